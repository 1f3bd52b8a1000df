//! Tries the cases of data/: scripts, with what they write and how they end, and pages, each with a request and what is
//! answered.
#![tactic(auto)]

mod acts;
mod notes;
mod pages;
mod programs;
mod requests;
mod site;
mod stopped;
mod subject;

use case_files::try_file;
use std::io;
use std::io::ErrorKind;
use subject::Cases;

fn main(rt: HostRuntime) -> io::Result<()> {
    let statements = try_file(&rt, "statements.txt", &Cases::Written)?;
    let errors = try_file(&rt, "errors.txt", &Cases::Written)?;
    let objects = try_file(&rt, "objects.txt", &Cases::Counted)?;
    let replies = try_file(&rt, "replies.txt", &Cases::Replied)?;
    let ticks = try_file(&rt, "ticks.txt", &Cases::Spent)?;
    let request = try_file(&rt, "request.txt", &Cases::Answered)?;
    let response = try_file(&rt, "response.txt", &Cases::Answered)?;
    let server = try_file(&rt, "server.txt", &Cases::Answered)?;
    let answers = try_file(&rt, "answers.txt", &Cases::Answered)?;
    let scripts_passed = statements && errors && objects && replies && ticks;
    if scripts_passed && request && response && server && answers {
        Ok(())
    } else {
        Err(ErrorKind::InvalidData.into())
    }
}
