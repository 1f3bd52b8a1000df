//! What the words of a run ask for.

use std::io::ErrorKind;
use std::rt::Env;
use std::{env, io};

/// What a run is asked to do.
#[derive(Drop)]
pub struct Asked {
    /// The file whose text the script is made of.
    pub file: String,
    /// How many times it stands there, with its number from 0 on in place of each `#`.
    pub copies: u32,
    /// How many times each stage is timed.
    pub rounds: u32,
}

fn number(word: Option<String>) -> io::Result<u32> {
    match word {
        Some(word) => match word.as_str().parse() {
            Ok(number) => Ok(number),
            Err(_) => Err(ErrorKind::InvalidInput.into()),
        },
        None => Err(ErrorKind::InvalidInput.into()),
    }
}

/// Reads the words of the command line: none, or a file, a count of copies, and a count of rounds.
pub fn read_words<R: Env + AllocGlobal>(rt: &R) -> io::Result<Option<Asked>> {
    let mut words = env::args(rt)?.skip(1);
    let Some(file) = words.next() else {
        return Ok(None);
    };
    let copies = number(words.next())?;
    let rounds = number(words.next())?;
    Ok(Some(Asked {
        file,
        copies,
        rounds,
    }))
}
