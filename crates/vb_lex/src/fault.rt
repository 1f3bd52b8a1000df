//! Why a text has no words.

use std::error::Error;
use std::fmt;
use vb_value::Stop;

/// What can be wrong with the words of a script.
#[derive(Clone, Copy, Debug, PartialEq, Eq)]
pub enum LexFault {
    /// A `"` that no other `"` closes on its line.
    OpenString,
    /// A `[` that no `]` closes on its line.
    OpenBracket,
    /// A name of more than 255 characters.
    LongName,
    /// A number that is too great, that has a point directly beside it, or a name directly behind it.
    BadNumber,
    /// A `#`, which begins a date.
    DateLiteral,
    /// A `/` or a `^`, which work on numbers that this language has not.
    BadOperator,
    /// A character that begins no word, or a `_` that continues no line.
    BadCharacter,
}

impl fmt::Display for LexFault {
    /// The name of the fault.
    fn fmt<W: fmt::Write>(&self, f: &mut fmt::Formatter<W>) -> fmt::Result {
        write!(f, "{self:?}")
    }
}

impl Error for LexFault {}

/// Why [`lex`](crate::lex) gave no words: the first fault of the text and its line, or memory ran out.
pub type LexStop = Stop<LexFault>;
