//! Dictionaries as a session keeps them.

use crate::list::List;
use crate::value::Value;

/// A Scripting.Dictionary that a session keeps.
#[derive(Debug, Drop)]
pub struct SessDict {
    /// Its CompareMode: 0 compares texts exactly, 1 without ASCII case.
    pub mode: i32,
    /// Its entries, in the order of their insertion.
    pub pairs: List<Pair>,
}

/// An entry of a dictionary.
#[derive(Debug, Drop)]
pub struct Pair {
    pub key: Value,
    pub item: Value,
}
