//! Tries the cases of data/: calls of the language's values, operators and functions.
#![tactic(auto)]

mod answers;
mod arguments;
mod characters;
mod functions;
mod kinds;
mod notation;
mod operators;
mod values;

use answers::Calls;
use case_files::try_file;
use std::io;
use std::io::ErrorKind;

fn main(rt: HostRuntime) -> io::Result<()> {
    let values = try_file(&rt, "values.txt", &Calls)?;
    let operators = try_file(&rt, "operators.txt", &Calls)?;
    let kinds = try_file(&rt, "kinds.txt", &Calls)?;
    let functions = try_file(&rt, "functions.txt", &Calls)?;
    let texts = try_file(&rt, "texts.txt", &Calls)?;
    if values && operators && kinds && functions && texts {
        Ok(())
    } else {
        Err(ErrorKind::InvalidData.into())
    }
}
