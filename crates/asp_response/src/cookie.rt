//! Cookies of an answer.

use vb_value::{List, Text};

/// What of a cookie is set.
#[derive(Clone, Copy, Debug, PartialEq, Eq)]
pub enum CookiePart {
    /// The paths to which it is sent back (RFC 6265, section 5.1.4).
    Path,
    /// The hosts to which it is sent back (RFC 6265, section 5.1.3).
    Domain,
}

/// The text beside a key of a cookie.
#[derive(Debug, Drop)]
pub struct CookiePair {
    pub key: Text,
    pub text: Text,
}

/// What a cookie holds.
#[derive(Debug, Drop)]
pub enum CookieValue {
    /// One text.
    Whole(Text),
    /// Texts beside keys, in the order in which they were first set.
    Pairs(List<CookiePair>),
}

/// A cookie, as a page has set it.
#[derive(Debug, Drop)]
pub struct Cookie {
    pub name: Text,
    pub value: CookieValue,
    pub path: Text,
    /// Empty where none is set.
    pub domain: Text,
    /// Whether it is sent back over secure connections alone (RFC 6265, section 5.2.5).
    pub secure: bool,
}
