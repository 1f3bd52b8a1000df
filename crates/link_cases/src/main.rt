//! Tries the cases of data/: connections in memory, served at a host over runs of words.
#![tactic(auto)]

mod cuts;
mod disturbed;
mod pages;
mod plan;
mod said;
mod serving;
mod story;

use case_files::try_file;
use cuts::{Of, Stories};
use std::io;
use std::io::ErrorKind;

fn main(rt: HostRuntime) -> io::Result<()> {
    let words = Stories {
        rt: &rt,
        of: Of::Words,
    };
    let pages = Stories {
        rt: &rt,
        of: Of::Pages,
    };
    let links = try_file(&rt, "links.txt", &words)?;
    let limits = try_file(&rt, "limits.txt", &words)?;
    let sites = try_file(&rt, "pages.txt", &pages)?;
    if links && limits && sites {
        Ok(())
    } else {
        Err(ErrorKind::InvalidData.into())
    }
}
