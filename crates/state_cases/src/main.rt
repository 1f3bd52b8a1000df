//! Tries the cases of data/: the letters of session keys, and calls of sessions and of the Application object.
#![tactic(auto)]

mod application;
mod letters;
mod said;
mod sessions;

use application::Applications;
use case_files::try_file;
use letters::Letters;
use sessions::Keys;
use std::io;
use std::io::ErrorKind;

fn main(rt: HostRuntime) -> io::Result<()> {
    let letters = try_file(&rt, "letters.txt", &Letters)?;
    let keys = try_file(&rt, "sessions.txt", &Keys)?;
    let application = try_file(&rt, "application.txt", &Applications { strict: false })?;
    let strict = try_file(&rt, "strict.txt", &Applications { strict: true })?;
    if letters && keys && application && strict {
        Ok(())
    } else {
        Err(ErrorKind::InvalidData.into())
    }
}
