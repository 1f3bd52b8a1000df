//! What a host that serves needs of the outside besides a folder.

use asp_host::{Command, WordStop, read_words};
use std::alloc::{AllocError, Global};
use std::random::RandomSource;

/// The port that the words say, where they are those of `serve`.
pub fn served_port(alloc: Global, words: &[String]) -> Result<Option<u16>, AllocError> {
    match read_words(alloc, words) {
        Ok(
            Command::Serve {
                site: _,
                requests: _,
                workers: _,
                port,
                strict: _,
            },
        ) => Ok(Some(port)),
        Ok(_other) => Ok(None),
        Err(WordStop::Usage) => Ok(None),
        Err(WordStop::Memory) => Err(AllocError),
    }
}

/// Bytes of the system's random source, where it has one.
pub fn random_seed<R: RandomSource>(rt: &R) -> Option<[u8; 32]> {
    let mut seed = [0; 32];
    match rt.fill_bytes(&mut seed) {
        Ok(()) => Some(seed),
        Err(_) => None,
    }
}
