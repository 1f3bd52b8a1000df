//! Texts of one character many times.
ghost use Rattle.std.specs.Prelude.{◌≡◌, replicate};
ghost use Rattle.vb_value.specs.Errors.{reported};
ghost use Rattle.vb_value.specs.Outcome.{Answers, Gives};
ghost use Rattle.vb_strings.specs.Repeating as spec;
ghost use Rattle.vb_strings.specs.Results.{bounded};

use crate::results::count;
use std::alloc::Global;
use vb_value::{
    List, MOST_CHARACTERS, Memory, Text, Value, VbError, VbFault, is_null, the_argument, to_long,
};

/// `Space`.
pub fn space(alloc: Global, args: &[Value]) -> Result<Value, VbFault>
    ensures { Answers result VbFault.Memory (reported (bounded (spec.space_of args.now))) }
{
    let n = the_argument(args)?;
    repeated(alloc, to_long(n)?, ' ')
}

/// `String`.
pub fn string(alloc: Global, args: &[Value]) -> Result<Value, VbFault>
    ensures { Answers result VbFault.Memory (reported (bounded (spec.string_of args.now))) }
{
    match args {
        [n, c] if is_null(n) || is_null(c) => Ok(Value::Null),
        [n, c] => filled(alloc, n, c),
        _ => Err(VbError::WRONG_NUMBER)?,
    }
}

/// `String` where neither argument is Null.
fn filled(alloc: Global, n: &Value, c: &Value) -> Result<Value, VbFault>
    ensures { Answers result VbFault.Memory (reported (bounded (spec.filled n.now c.now))) }
{
    let number = to_long(n)?;
    let character = filling(c)?;
    repeated(alloc, number, character)
}

/// A character so many times; error 5 below 0, and 14 for more than a text may have.
fn repeated(alloc: Global, number: i32, character: char) -> Result<Value, VbFault>
    ensures { Answers result VbFault.Memory (reported (bounded (spec.repeated number character))) }
{
    let count = count(number)?;
    if MOST_CHARACTERS < count {
        return Err(VbError::OUT_OF_STRING_SPACE)?;
    }
    Ok(Value::Str(copies(alloc, count, character)?))
}

/// A character so many times.
fn copies(alloc: Global, count: usize, character: char) -> Result<Text, Memory>
    ensures { Gives result (replicate count character) }
{
    Ok(List::from_vec(vec![in alloc; character; count]?))
}

/// The character that `String` repeats: the first one of a text, or the one of a number.
fn filling(value: &Value) -> Result<char, VbError>
    ensures { result ≡ spec.filling_of value.now }
{
    match value {
        Value::Str(text) => first(text.as_slice()),
        _ => low_character(to_long(value)?),
    }
}

/// The first character of a text; error 5 where it has none.
pub fn first(text: &[char]) -> Result<char, VbError>
    ensures { result ≡ spec.first_of text.now }
{
    match text {
        [first, ..] => Ok(*first),
        [] => Err(VbError::INVALID_CALL),
    }
}

/// The character of a number, above 255 taken Mod 256; error 5 below 0.
fn low_character(number: i32) -> Result<char, VbError>
    ensures { result ≡ spec.low_character number }
{
    if number < 0 {
        return Err(VbError::INVALID_CALL);
    }
    Ok((number as u32 % 256) as u8 as char)
}
