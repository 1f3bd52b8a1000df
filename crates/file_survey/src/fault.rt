//! What can be wrong with a table.

use std::error::Error;
use std::fmt;
use vb_value::Stop;

/// What is wrong with a line of a table.
#[derive(Clone, Copy, Debug, PartialEq, Eq)]
pub enum TableFault {
    /// The line is no row.
    NoRow,
    /// The row's kind is none.
    NoKind,
    /// A row before it has the same kind and word.
    Twice,
    /// The table has no row with the word `*` for a kind that wants one. The line is the table's last.
    NoRest,
}

impl fmt::Display for TableFault {
    /// The fault in words.
    fn fmt<W: fmt::Write>(&self, f: &mut fmt::Formatter<W>) -> fmt::Result {
        let why = match self {
            TableFault::NoRow => "no row",
            TableFault::NoKind => "no such kind",
            TableFault::Twice => "a row that stands there twice",
            TableFault::NoRest => "no row `*` of fault, form, file or component",
        };
        write!(f, "{why}")
    }
}

impl Error for TableFault {}

/// Why a text was not read as a table: a fault, whose line is counted from 1, or memory ran out.
pub type TableStop = Stop<TableFault>;
