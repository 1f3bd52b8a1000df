//! Requests.

use vb_value::{Bytes, List, Text};

/// The method of a request (RFC 9110, section 9), as far as pages and files tell methods apart.
#[derive(Clone, Copy, Debug, PartialEq, Eq)]
pub enum Verb {
    Get,
    Head,
    Post,
    /// Any other method. The names are compared as they are written, so `get` is one of these.
    Other,
}

/// A header field (RFC 9110, section 5).
#[derive(Debug, Drop)]
pub struct Header {
    /// The name, with its letters as they were written.
    pub name: Text,
    /// The value, without the blanks around it.
    pub value: Bytes,
}

/// A request, read whole.
#[derive(Debug, Drop)]
pub struct Request {
    pub verb: Verb,
    /// The path that the target names, made normal: percent-decoded, without `.`, `..` and empty segments.
    pub path: Text,
    /// What stands behind the first `?` of the target, as it was written; empty without one.
    pub query: Bytes,
    /// The minor version of HTTP/1: 0 or 1.
    pub minor: u8,
    /// The header fields, in their order.
    pub headers: List<Header>,
    pub body: Bytes,
    /// Whether the connection ends after the answer.
    pub close: bool,
}
