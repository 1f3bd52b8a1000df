//! The fields of lines: numbers and bytes.
ghost use Rattle.std.specs.Prelude.{◌≡◌, ◌<◌, false};
ghost use Rattle.std.specs.Fmt.{decimal, digit_glyph, signed_decimal};
ghost use Rattle.vb_value.specs.Outcome.{Adds};
ghost use Rattle.asp_record.specs.Lines as spec;

use vb_value::{Bytes, Memory};

/// Adds a number without leading zeros.
pub fn push_decimal(bytes: &mut Bytes, number: u64) -> Result<(), Memory>
    ensures { Adds result bytes.old bytes.new (decimal number) }
{
    let text = number.to_string(*bytes.allocator())?;
    bytes.append_slice(text.as_bytes())
}

/// Adds a number that may have a sign.
pub fn push_signed(bytes: &mut Bytes, number: i64) -> Result<(), Memory>
    ensures { Adds result bytes.old bytes.new (signed_decimal number) }
{
    let text = number.to_string(*bytes.allocator())?;
    bytes.append_slice(text.as_bytes())
}

/// Adds a space and a number.
pub fn push_number(bytes: &mut Bytes, number: u64) -> Result<(), Memory>
    ensures { Adds result bytes.old bytes.new (spec.number number) }
{
    bytes.append_slice(b" ")?;
    push_decimal(bytes, number)
}

/// Adds a space and a text.
pub fn push_field(bytes: &mut Bytes, text: &[u8]) -> Result<(), Memory>
    ensures { Adds result bytes.old bytes.new (spec.field text.now) }
{
    bytes.append_slice(b" ")?;
    bytes.append_slice(text)
}

/// The hexadecimal digit of a number, in lower case.
fn digit(number: u8) -> u8
    requires { number < 16 }
    ensures { result ≡ digit_glyph false number }
{
    if number < 10 {
        b'0' + number
    } else {
        b'a' + (number - 10)
    }
}

fn push_byte(bytes: &mut Bytes, byte: u8) -> Result<(), Memory>
    ensures { Adds result bytes.old bytes.new (spec.hex_byte byte) }
{
    bytes.push(digit(byte / 16))?;
    bytes.push(digit(byte % 16))
}

/// Adds two hexadecimal digits for each byte.
#[tactic(auto, unfolding(crate::specs::Lines::hex))]
pub fn push_hex(bytes: &mut Bytes, more: &[u8]) -> Result<(), Memory>
    ensures { Adds result bytes.old bytes.new (spec.hex more.now) }
{
    for byte in more {
        push_byte(bytes, *byte)?;
    }
    Ok(())
}
