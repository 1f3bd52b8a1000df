//! Characters and their numbers.
ghost use Rattle.std.specs.Prelude.{◌≡◌};
ghost use Rattle.vb_value.specs.Errors.{reported};
ghost use Rattle.vb_value.specs.Outcome.{Answers};
ghost use Rattle.vb_strings.specs.Characters as spec;

use crate::repeating::first;
use crate::texts::as_text;
use std::alloc::Global;
use vb_value::{Text, Value, VbError, VbFault, the_argument, to_long};

/// `Asc` and `AscW`.
pub fn asc(alloc: Global, args: &[Value]) -> Result<Value, VbFault>
    ensures { Answers result VbFault.Memory (reported (spec.asc_of args.now)) }
{
    let s = the_argument(args)?;
    let text = as_text(alloc, s)?;
    Ok(number(first(text.as_slice())?))
}

/// The number of a character.
fn number(character: char) -> Value
    ensures { result ≡ spec.number_of character }
{
    let code = character as i32;
    if code < 32768 {
        Value::Int(code as i16)
    } else if code < 65536 {
        Value::Int((code - 65536) as i16)
    } else {
        Value::Long(code)
    }
}

/// `Chr` and `ChrW`.
pub fn chr(alloc: Global, args: &[Value]) -> Result<Value, VbFault>
    ensures { Answers result VbFault.Memory (reported (spec.chr_of args.now)) }
{
    let n = the_argument(args)?;
    let character = character(code(to_long(n)?)?)?;
    Ok(Value::Str(Text::from_slice(alloc, &[character])?))
}

/// The number of a character, where one from -32768 to -1 is smaller by 65536; error 5 below that.
fn code(number: i32) -> Result<u32, VbError>
    ensures { result ≡ spec.code_of number }
{
    if number < -32768 {
        Err(VbError::INVALID_CALL)
    } else if number < 0 {
        Ok((number + 65536) as u32)
    } else {
        Ok(number as u32)
    }
}

/// The character of a number; error 5 where there is none.
fn character(code: u32) -> Result<char, VbError>
    ensures { result ≡ spec.character_of code }
{
    match char::from_u32(code) {
        Some(character) => Ok(character),
        None => Err(VbError::INVALID_CALL),
    }
}
