//! Why a list of words is no script.

use std::error::Error;
use std::fmt;
use vb_value::Stop;

/// What is wrong with a word (VBScript 5.6 language reference, "Syntax errors").
#[derive(Clone, Copy, Debug, PartialEq, Eq)]
pub enum ParseFault {
    /// With one more construct open at this place the word could stand here.
    TooDeep,
    /// The word could stand here if the parenthesis of the call statement before it could hold several arguments:
    /// `f(1, 2)` wants `f 1, 2` or `Call f(1, 2)`.
    CallParens,
    /// Text of the page that is not blank, inside Class or between `Select Case` and its first `Case`.
    TextHere,
    /// No word like this may stand here, or one is missing.
    Unexpected,
}

impl fmt::Display for ParseFault {
    /// The name of the fault.
    fn fmt<W: fmt::Write>(&self, f: &mut fmt::Formatter<W>) -> fmt::Result {
        write!(f, "{self:?}")
    }
}

impl Error for ParseFault {}

/// Why the parser has no tree: the first word with which none goes on, or memory ran out. Where the words end too early
/// the line is that of the last one, and 1 where there is no word at all.
pub type ParseStop = Stop<ParseFault>;
