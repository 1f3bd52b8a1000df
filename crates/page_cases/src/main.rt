//! Tries the cases of data/: page files with their pieces, pages with their lines, folders, texts of the web, and the
//! words of command lines.
#![tactic(auto)]

mod builds;
mod commands;
mod folders;
mod hexadecimal;
mod includes;
mod pages;
mod sites;
mod web;

use builds::Builds;
use case_files::try_file;
use commands::CommandWords;
use folders::Folders;
use includes::Includes;
use pages::{PageBytes, Pages};
use std::io;
use std::io::ErrorKind;
use web::Web;

fn main(rt: HostRuntime) -> io::Result<()> {
    let mut all_passed = try_file(&rt, "pages.txt", &Pages)?;
    all_passed &= try_file(&rt, "bytes.txt", &PageBytes)?;
    all_passed &= try_file(&rt, "includes.txt", &Includes)?;
    all_passed &= try_file(&rt, "builds.txt", &Builds)?;
    all_passed &= try_file(&rt, "words.txt", &CommandWords)?;
    all_passed &= try_file(&rt, "folders.txt", &Folders)?;
    all_passed &= try_file(&rt, "web.txt", &Web)?;
    if all_passed {
        Ok(())
    } else {
        Err(ErrorKind::InvalidData.into())
    }
}
