//! What a value is as a number, a Boolean and a text.
ghost use Rattle.std.specs.Prelude.{◌≡◌};
ghost use Rattle.vb_value.specs.Conversions.{to_number_of, to_int_of, to_long_of, to_cur_of, to_bool_of};
ghost use Rattle.vb_value.specs.Conversions.{number_text, number_value, to_str_of, named_truth};
ghost use Rattle.vb_value.specs.Errors.{reported};
ghost use Rattle.vb_value.specs.Outcome.{Answers, Gives};

use crate::copied::Copied;
use crate::fault::{VbError, VbFault};
use crate::memory::Memory;
use crate::names::is_word;
use crate::number::{Number, as_integer};
use crate::number_text::{currency_text, whole_text};
use crate::numeric_text::cur_of_text;
use crate::text::Text;
use crate::value::Value;
use std::alloc::Global;

/// A number as a value of its kind.
pub fn number_value(number: Number) -> Value
    ensures { result ≡ number_value number }
{
    match number {
        Number::Int(n) => Value::Int(n),
        Number::Long(n) => Value::Long(n),
        Number::Cur(n) => Value::Cur(n),
    }
}

/// A value as a number, a text as the first of Integer, Long and Currency that holds it. Error 94 for Null, 13
/// for an array and a text that is no number, 438 for an object, 91 for Nothing, 6 out of range.
pub fn to_number(value: &Value) -> Result<Number, VbError>
    ensures { result ≡ to_number_of value.now }
{
    match value {
        Value::Empty => Ok(Number::Int(0)),
        Value::Null => Err(VbError::INVALID_USE_OF_NULL),
        Value::Bool(truth) => Ok(Number::Int(if *truth { -1 } else { 0 })),
        Value::Int(n) => Ok(Number::Int(*n)),
        Value::Long(n) => Ok(Number::Long(*n)),
        Value::Cur(n) => Ok(Number::Cur(*n)),
        Value::Str(text) => Ok(Number::of_amount(cur_of_text(text)?)),
        Value::Arr(_) => Err(VbError::TYPE_MISMATCH),
        Value::Obj(_) => Err(VbError::UNSUPPORTED),
        Value::Nothing => Err(VbError::OBJECT_NOT_SET),
    }
}

/// A value as an Integer, half rounded to even. The errors are those of [`to_number`].
pub fn to_int(value: &Value) -> Result<i16, VbError>
    ensures { result ≡ to_int_of value.now }
{
    as_integer(to_number(value)?.whole() as i128)
}

/// A value as a Long, half rounded to even. The errors are those of [`to_number`].
pub fn to_long(value: &Value) -> Result<i32, VbError>
    ensures { result ≡ to_long_of value.now }
{
    to_number(value)?.long()
}

/// A value as a Currency, in ten-thousandths. The errors are those of [`to_number`].
pub fn to_cur(value: &Value) -> Result<i64, VbError>
    ensures { result ≡ to_cur_of value.now }
{
    Ok(to_number(value)?.amount())
}

/// A value as a Boolean: a text by its name, else a number by whether it is not 0. The errors are those of
/// [`to_number`].
pub fn to_bool(value: &Value) -> Result<bool, VbError>
    ensures { result ≡ to_bool_of value.now }
{
    match value {
        Value::Bool(truth) => Ok(*truth),
        Value::Str(text) => match named_truth(text) {
            Some(truth) => Ok(truth),
            None => Ok(cur_of_text(text)? != 0),
        },
        other => Ok(to_cur(other)? != 0),
    }
}

/// The Boolean whose name the text is, in any ASCII case.
pub fn named_truth(text: &Text) -> Option<bool>
    ensures { result ≡ named_truth text.now }
{
    if is_word(b"true", text.as_slice()) {
        Some(true)
    } else if is_word(b"false", text.as_slice()) {
        Some(false)
    } else {
        None
    }
}

/// A number as a text.
fn number_text(alloc: Global, number: Number) -> Result<Text, Memory>
    ensures { Gives result (number_text number) }
{
    match number {
        Number::Int(n) => whole_text(alloc, n as i64),
        Number::Long(n) => whole_text(alloc, n as i64),
        Number::Cur(n) => currency_text(alloc, n),
    }
}

/// A value as a text, of any length. Error 94 for Null, 13 for an array, 438 for an object, 91 for Nothing.
pub fn to_str(alloc: Global, value: &Value) -> Result<Text, VbFault>
    ensures { Answers result VbFault.Memory (reported (to_str_of value.now)) }
{
    match value {
        Value::Empty => Ok(Text::new(alloc)),
        Value::Bool(true) => Ok(Text::from_slice(alloc, &['T', 'r', 'u', 'e'])?),
        Value::Bool(false) => Ok(Text::from_slice(alloc, &['F', 'a', 'l', 's', 'e'])?),
        Value::Str(text) => Ok(text.copy()?),
        other => Ok(number_text(alloc, to_number(other)?)?),
    }
}
