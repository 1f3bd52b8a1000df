//! Sessions.

use vb_value::{List, SessDict, Text, Value};

/// A session (ASP 3.0, "Session Object").
#[derive(Debug, Drop)]
pub struct SessionState {
    /// Its number, which pages read as SessionID, counted from 1.
    pub serial: u32,
    /// After how many minutes without a request it ends: 1 to 1,440.
    pub timeout: u32,
    /// Its entries, in the order of their first writing. Names are folded.
    pub values: List<Named>,
    /// The dictionaries that its entries name; none until sessions keep objects.
    pub dicts: List<SessDict>,
}

/// An entry of a session.
#[derive(Debug, Drop)]
pub struct Named {
    pub name: Text,
    pub value: Value,
}
