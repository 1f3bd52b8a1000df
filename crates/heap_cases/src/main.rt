//! Tries the cases of data/: calls on the data of a page, calls of dictionaries, and calls on pools of slots. With the word
//! `time` it times the data of a page.
#![tactic(auto)]

mod answers;
mod calls;
mod keyed;
mod pools;
mod said;
mod timing;
mod values;

use answers::Pages;
use case_files::try_file;
use pools::Pools;
use std::io::ErrorKind;
use std::rt::Runtime;
use std::{env, io};
use timing::time_pages;

/// Tries the cases of each file.
fn try_cases<R: Runtime + AllocGlobal>(rt: &R) -> io::Result<()> {
    let cells = try_file(rt, "cells.txt", &Pages)?;
    let objects = try_file(rt, "objects.txt", &Pages)?;
    let dictionaries = try_file(rt, "dictionaries.txt", &Pages)?;
    let pools = try_file(rt, "pools.txt", &Pools)?;
    if cells && objects && dictionaries && pools {
        Ok(())
    } else {
        Err(ErrorKind::InvalidData.into())
    }
}

fn main(rt: HostRuntime) -> io::Result<()> {
    match env::args(&rt)?.nth(1) {
        None => try_cases(&rt),
        Some(word) if word.as_str() == "time" => time_pages(&rt),
        Some(_) => Err(ErrorKind::InvalidInput.into()),
    }
}
