//! Tries the cases of data/: requests from bytes, what pages see of a request, and answers. With words it times requests and
//! answers.
#![tactic(auto)]

mod drafts;
mod inputs;
mod requests;
mod timing;

use case_files::try_file;
use drafts::Drafts;
use inputs::Collections;
use requests::Requests;
use std::io::ErrorKind;
use std::rt::Runtime;
use std::{env, io};
use timing::time;

/// Tries the cases of each file.
fn try_cases<R: Runtime + AllocGlobal>(rt: &R) -> io::Result<()> {
    let requests = try_file(rt, "requests.txt", &Requests)?;
    let inputs = try_file(rt, "inputs.txt", &Collections)?;
    let drafts = try_file(rt, "drafts.txt", &Drafts)?;
    if requests && inputs && drafts {
        Ok(())
    } else {
        Err(ErrorKind::InvalidData.into())
    }
}

fn main(rt: HostRuntime) -> io::Result<()> {
    let mut is_timed = false;
    for name in env::args(&rt)?.skip(1) {
        is_timed = true;
        time(&rt, name.as_str())?;
    }
    if is_timed { Ok(()) } else { try_cases(&rt) }
}
