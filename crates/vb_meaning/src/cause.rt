//! Errors as they arise (VBScript 5.6 language reference, "Err Object").

use std::fmt;
use vb_value::{Text, VbError};

/// What an error says.
#[derive(Debug, Drop)]
pub struct Raised {
    /// Its number.
    pub number: i32,
    /// Where it comes from.
    pub source: Text,
    /// What it is.
    pub description: Text,
}

/// Where an error comes from.
#[derive(Debug, Drop)]
pub enum Cause {
    /// The language: its source and description follow from its number.
    Language(i32),
    /// `Err.Raise`
    Raised(Raised),
}

impl fmt::Display for Cause {
    fn fmt<W: fmt::Write>(&self, f: &mut fmt::Formatter<W>) -> fmt::Result {
        match self {
            Cause::Language(number) => write!(f, "{}", VbError { number: *number }),
            Cause::Raised(raised) => write!(f, "error {}", raised.number),
        }
    }
}
