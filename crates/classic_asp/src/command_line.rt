//! The words that the program was called with.

use std::alloc::{AllocError, Global};
use std::env;
use std::io::ErrorKind;
use std::rt::Env;

/// What a command line says.
#[derive(Debug, Drop)]
pub enum Line {
    /// `--help` alone.
    Help,
    /// `--version` alone.
    Version,
    /// Words for the host, without the program's own name.
    Words(Vec<String>),
    /// Some word is not UTF-8.
    Faulty,
    /// Memory ran out.
    Memory,
}

/// What the command line says.
pub fn line_words<R: Env + AllocGlobal>(rt: &R) -> Line {
    let mut words = Vec::new(rt.alloc());
    let args = match env::args(rt) {
        Ok(args) => args,
        Err(error) if error.kind() == ErrorKind::OutOfMemory => return Line::Memory,
        Err(_) => return Line::Faulty,
    };
    for word in args.skip(1) {
        if words.push(word).is_err() {
            return Line::Memory;
        }
    }
    match words.as_slice() {
        [word] if word.as_str() == "--help" => Line::Help,
        [word] if word.as_str() == "--version" => Line::Version,
        _ => Line::Words(words),
    }
}

/// The word that names the folder of the site, or `.` where there is none.
pub fn folder_word(alloc: Global, words: &[String]) -> Result<String, AllocError> {
    match words.get(1) {
        Some(word) => word.clone(),
        None => String::from_str(alloc, "."),
    }
}
