//! Tries the cases of data/: scripts and pages, with their words, trees, programs and faults. With words on its command
//! line it times the stages of a long script instead.
#![tactic(auto)]

mod asked;
mod expressions;
mod grammar;
mod names;
mod programs;
mod rounds;
mod statements;
mod stopped;
mod subject;
mod timing;
mod units;
mod words;
mod writing;

use asked::read_words;
use case_files::try_file;
use std::io;
use std::io::ErrorKind;
use std::rt::Files;
use subject::Scripts;
use timing::time_stages;

/// Tries each file of cases.
fn try_cases<R: Files + AllocGlobal + Print>(rt: &R) -> io::Result<()> {
    let mut all_passed = try_file(rt, "words.txt", &Scripts::Words)?;
    all_passed &= try_file(rt, "places.txt", &Scripts::Places)?;
    all_passed &= try_file(rt, "counts.txt", &Scripts::Counts)?;
    all_passed &= try_file(rt, "grammar.txt", &Scripts::Trees)?;
    all_passed &= try_file(rt, "without_edges.txt", &Scripts::BareTrees)?;
    all_passed &= try_file(rt, "depths.txt", &Scripts::Verdicts)?;
    all_passed &= try_file(rt, "printed.txt", &Scripts::Printed)?;
    all_passed &= try_file(rt, "scripts.txt", &Scripts::Programs)?;
    all_passed &= try_file(rt, "names.txt", &Scripts::Names)?;
    all_passed &= try_file(rt, "parts.txt", &Scripts::ScriptParts)?;
    all_passed &= try_file(rt, "pages.txt", &Scripts::PageParts)?;
    if all_passed {
        Ok(())
    } else {
        Err(ErrorKind::InvalidData.into())
    }
}

fn main(rt: HostRuntime) -> io::Result<()> {
    match read_words(&rt)? {
        Some(asked) => time_stages(&rt, &asked),
        None => try_cases(&rt),
    }
}
