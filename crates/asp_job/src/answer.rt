//! Answers, and how a run ends.

use crate::request::Header;
use crate::session::SessionState;
use std::error::Error;
use std::fmt;
use vb_value::{Bytes, LimitKind, List, Text};

/// What a client is answered. `Date`, `Content-Length` and `Connection` are written with it and stand in no field.
#[derive(Debug, Drop)]
pub struct Answer {
    /// The status code (RFC 9110, section 15).
    pub status: u16,
    /// The reason phrase (RFC 9112, section 4); it may be empty.
    pub reason: Text,
    /// The header fields, in the order in which they are written.
    pub headers: List<Header>,
    /// The content. It is kept where it is not sent, since its length is.
    pub body: Bytes,
    /// Whether the request was HEAD, so that the content is not sent.
    pub head_only: bool,
    /// Whether the connection ends after this answer.
    pub close: bool,
}

/// Why an act of a run failed.
#[derive(Clone, Copy, Debug, PartialEq, Eq)]
pub enum Fail {
    /// An error that no statement handled.
    Error {
        number: i32,
        /// The line in the file in which the error first arose, counted from 1.
        line: u32,
    },
    /// A limit.
    Limit {
        kind: LimitKind,
        /// The line in the file at which it was met, counted from 1.
        line: u32,
    },
}

impl fmt::Display for Fail {
    fn fmt<W: fmt::Write>(&self, f: &mut fmt::Formatter<W>) -> fmt::Result {
        match self {
            Fail::Error { number, line } => write!(f, "error {number}, line {line}"),
            Fail::Limit { kind, line } => write!(f, "limit {kind:?}, line {line}"),
        }
    }
}

impl Error for Fail {}

/// What a run leaves when it has ended.
#[derive(Debug, Drop)]
pub struct Finished {
    /// The answer; there is one exactly for the work of a page.
    pub answer: Option<Answer>,
    /// The session as the run leaves it; none after Abandon and after the session's end.
    pub session: Option<SessionState>,
    /// Why its first failing act failed, if one did.
    pub fail: Option<Fail>,
    /// How many objects its acts made, at most 4,294,967,295.
    pub made: u32,
    /// How many objects its acts ended, at most 4,294,967,295.
    pub finished: u32,
}
