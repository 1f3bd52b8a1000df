//! The texts of errors.
ghost use Rattle.std.specs.Prelude.{◌≡◌};
ghost use Rattle.vb_value.specs.ErrorText.{error_text_of};
ghost use Rattle.vb_value.specs.Outcome.{Gives};

use crate::fault::{VbError, VbFault};
use crate::memory::Memory;
use crate::text::Text;
use std::alloc::Global;
use std::error::Error;
use std::fmt;

impl fmt::Display for VbError {
    fn fmt<W: fmt::Write>(&self, f: &mut fmt::Formatter<W>) -> fmt::Result {
        write!(f, "error {}: {}", self.number, message(self.number))
    }
}

impl Error for VbError {}

impl fmt::Display for VbFault {
    fn fmt<W: fmt::Write>(&self, f: &mut fmt::Formatter<W>) -> fmt::Result {
        match self {
            VbFault::Error(number) => write!(f, "{}", VbError { number: *number }),
            VbFault::Memory => write!(f, "{}", Memory),
        }
    }
}

impl Error for VbFault {}

/// The text of the error of a number, as `Err.Description` has it.
#[tactic(auto, using(crate::proofs::Messages::one_byte_each))]
pub fn error_text(alloc: Global, number: i32) -> Result<Text, Memory>
    ensures { Gives result (error_text_of number) }
{
    Text::from_str(alloc, message(number))
}

/// The text of the error of a number, in UTF-8.
#[tactic(auto, unfolding(crate::specs::ErrorText::error_text_of))]
fn message(number: i32) -> &'static str
    ensures { result.now ≡ error_text_of number }
{
    match number {
        5 => "Invalid procedure call or argument",
        6 => "Overflow",
        9 => "Subscript out of range",
        10 => "This array is fixed or temporarily locked",
        11 => "Division by zero",
        13 => "Type mismatch",
        14 => "Out of string space",
        28 => "Out of stack space",
        91 => "Object variable not set",
        94 => "Invalid use of Null",
        424 => "Object required",
        429 => "ActiveX component can't create object",
        438 => "Object doesn't support this property or method",
        450 => "Wrong number of arguments or invalid property assignment",
        451 => "Object not a collection",
        457 => "This key is already associated with an element of this collection",
        500 => "Variable is undefined",
        501 => "Illegal assignment",
        506 => "Class not defined",
        1156 => "Header Error",
        32811 => "Element not found",
        _ => "Unknown runtime error",
    }
}
