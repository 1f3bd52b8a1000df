//! Tries the cases of data/: calls of a core over runs of words, the lines of journals, and recordings.
#![tactic(auto)]

mod calls;
mod desk;
mod entries;
mod jobs;
mod lines;
mod recordings;
mod said;
mod shared_values;
mod shown;
mod table;

use calls::Calls;
use case_files::try_file;
use lines::Lines;
use recordings::Recordings;
use std::io;
use std::io::ErrorKind;

fn main(rt: HostRuntime) -> io::Result<()> {
    let plain = Calls { strict: false };
    let calls = try_file(&rt, "calls.txt", &plain)?;
    let many = try_file(&rt, "many.txt", &plain)?;
    let locks = try_file(&rt, "locks.txt", &plain)?;
    let strict = try_file(&rt, "strict.txt", &Calls { strict: true })?;
    let lines = try_file(&rt, "lines.txt", &Lines)?;
    let recordings = try_file(&rt, "recordings.txt", &Recordings)?;
    if calls && many && locks && strict && lines && recordings {
        Ok(())
    } else {
        Err(ErrorKind::InvalidData.into())
    }
}
