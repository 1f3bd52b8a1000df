//! A journal that would be too long or too heavy.

use std::error::Error;
use std::fmt;

/// How long and how heavy a journal would be that is too long or too heavy.
#[derive(Clone, Copy, Debug, PartialEq, Eq)]
pub struct Full {
    /// How many entries it would have, with one end for each unfinished run.
    pub entries: u64,
    /// What they would weigh; 2^64 - 1 stands for a greater weight.
    pub weight: u64,
}

impl fmt::Display for Full {
    fn fmt<W: fmt::Write>(&self, f: &mut fmt::Formatter<W>) -> fmt::Result {
        let Full { entries, weight } = self;
        write!(f, "journal full: {entries} entries, {weight} bytes")
    }
}

impl Error for Full {}
