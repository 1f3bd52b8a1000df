//! The bits of numbers as digits.
ghost use Rattle.std.specs.Prelude.{◌≡◌, ◌<◌, ◌≤◌, map};
ghost use Rattle.std.specs.Int.Digits.{digits_of};
ghost use Rattle.vb_value.specs.Arguments.{of_one, null_or};
ghost use Rattle.vb_value.specs.Errors.{reported};
ghost use Rattle.vb_value.specs.Outcome.{Answers, Gives};
ghost use Rattle.vb_funcs.specs.Bases as spec;

use std::alloc::Global;
use vb_value::{Memory, Text, Value, VbError, VbFault, is_null, limited, the_argument, to_long};

/// `Hex`.
pub fn hex(alloc: Global, args: &[Value]) -> Result<Value, VbFault>
    ensures { Answers result VbFault.Memory (reported (spec.hex_of args.now)) }
{
    bits_text(alloc, 16, args)
}

/// `Oct`.
pub fn oct(alloc: Global, args: &[Value]) -> Result<Value, VbFault>
    ensures { Answers result VbFault.Memory (reported (spec.oct_of args.now)) }
{
    bits_text(alloc, 8, args)
}

/// The text of the bits of the one argument; Null for Null.
fn bits_text(alloc: Global, base: u32, args: &[Value]) -> Result<Value, VbFault>
    requires least { 2 ≤ base }
    requires most { base ≤ 16 }
    ensures { Answers result VbFault.Memory (reported (of_one (null_or (spec.bits_text base)) args.now)) }
{
    let x = the_argument(args)?;
    if is_null(x) {
        return Ok(Value::Null);
    }
    let text = based_text(alloc, base, bits_of(x)?)?;
    Ok(limited(text)?)
}

/// The bits of a value: 16 of an Integer, else 32 of a Long.
fn bits_of(value: &Value) -> Result<u32, VbError>
    ensures { result ≡ spec.bits_of value.now }
{
    match value {
        Value::Int(n) => Ok(n.cast_unsigned() as u32),
        other => Ok(to_long(other)?.cast_unsigned()),
    }
}

/// A number to a base.
fn based_text(alloc: Global, base: u32, n: u32) -> Result<Text, Memory>
    requires least { 2 ≤ base }
    requires most { base ≤ 16 }
    ensures { Gives result (spec.based_text base n) }
{
    if n == 0 {
        Text::from_slice(alloc, &['0'])
    } else {
        digits(alloc, base, n)
    }
}

/// The digits of a number to a base; none for 0.
#[tactic(auto, using(crate::proofs::Digits::digits_more))]
fn digits(alloc: Global, base: u32, n: u32) -> Result<Text, Memory>
    requires least { 2 ≤ base }
    requires most { base ≤ 16 }
    ensures { Gives result (map spec.digit_character (digits_of base n)) }
{
    if n == 0 {
        return Ok(Text::new(alloc));
    }
    let mut text = digits(alloc, base, n / base)?;
    text.push(digit(n % base))?;
    Ok(text)
}

/// A digit, a capital letter from 10 on.
fn digit(n: u32) -> char
    requires { n < 16 }
    ensures { result ≡ spec.digit_character n }
{
    if n < 10 {
        (b'0' + n as u8) as char
    } else {
        (b'A' + (n as u8 - 10)) as char
    }
}
