//! Values as a journal writes them.
ghost use Rattle.std.specs.Prelude.{◌++◌, IsTrue, map};
ghost use Rattle.std.specs.Char.{encode_utf8};
ghost use Rattle.std.specs.Fmt.{signed_decimal};
ghost use Rattle.std.specs.List.{list_all};
ghost use Rattle.std.specs.Result.{OnOk};
ghost use lib.Utf8.{scalar, scalars};
ghost use Rattle.vb_value.specs.Outcome.{Adds};
ghost use Rattle.asp_record.specs.Journal as journal;
ghost use Rattle.asp_record.specs.Lines as lines;
ghost use Rattle.asp_record.specs.Values as spec;

use crate::fields::{push_hex, push_signed};
use vb_value::{Bytes, Memory, Text, Value};

/// Adds the UTF-8 of a character.
fn push_character(bytes: &mut Bytes, character: char) -> Result<(), Memory>
    ensures text { Adds result bytes.old bytes.new (lines.hex (encode_utf8 character)) }
    ensures ranged { IsTrue (scalar character) }
{
    let mut utf8 = [0; 4];
    push_hex(bytes, character.encode_utf8(&mut utf8).as_bytes())
}

/// Adds `s` and the UTF-8 of a text.
pub fn push_text(bytes: &mut Bytes, text: &Text) -> Result<(), Memory>
    ensures text { Adds result bytes.old bytes.new (spec.text_form text.now) }
    ensures ranged { OnOk result (IsTrue (scalars text.now)) }
{
    bytes.append_slice(b"s")?;
    for character in text.as_slice() {
        push_character(bytes, *character)?;
    }
    Ok(())
}

/// Adds the letter of a number's subtype and the number.
fn push_lettered(bytes: &mut Bytes, letter: &[u8], number: i64) -> Result<(), Memory>
    ensures { Adds result bytes.old bytes.new (letter.now ++ signed_decimal number) }
{
    bytes.append_slice(letter)?;
    push_signed(bytes, number)
}

/// Adds `,` behind another text.
fn push_mark(bytes: &mut Bytes, has_more: bool) -> Result<(), Memory>
    ensures { Adds result bytes.old bytes.new (lines.mark has_more) }
{
    if has_more {
        bytes.append_slice(b",")?;
    }
    Ok(())
}

fn push_bound(bytes: &mut Bytes, bound: &i32) -> Result<(), Memory>
    ensures text { Adds result bytes.old bytes.new (signed_decimal bound.now) }
    ensures ranged { OnOk result (IsTrue (journal.is_long bound.now)) }
{
    push_signed(bytes, i64::from(*bound))
}

fn push_bounds(bytes: &mut Bytes, bounds: &[i32]) -> Result<(), Memory>
    ensures text { Adds result bytes.old bytes.new (lines.with_commas (map signed_decimal bounds.now)) }
    ensures ranged { OnOk result (IsTrue (list_all journal.is_long bounds.now)) }
{
    let mut more = false;
    for bound in bounds {
        push_mark(bytes, more)?;
        push_bound(bytes, bound)?;
        more = true;
    }
    Ok(())
}

/// Adds names with `,` between them.
pub fn push_names(bytes: &mut Bytes, names: &[Text]) -> Result<(), Memory>
    ensures text { Adds result bytes.old bytes.new (lines.with_commas (map spec.text_form names.now)) }
    ensures ranged { OnOk result (IsTrue (list_all scalars names.now)) }
{
    let mut more = false;
    for name in names {
        push_mark(bytes, more)?;
        push_text(bytes, name)?;
        more = true;
    }
    Ok(())
}

/// Adds what stands before the bounds of an array.
fn push_opening(bytes: &mut Bytes, fixed: bool) -> Result<(), Memory>
    ensures { Adds result bytes.old bytes.new (spec.opening fixed) }
{
    if fixed {
        bytes.append_slice(b"!")?;
    }
    bytes.append_slice(b"[")
}

fn push_bool(bytes: &mut Bytes, truth: bool) -> Result<(), Memory>
    ensures { Adds result bytes.old bytes.new (spec.truth_form truth) }
{
    if truth {
        bytes.append_slice(b"t")
    } else {
        bytes.append_slice(b"f")
    }
}

/// Adds the text of a value. It recurses once for each array inside another.
pub fn push_value(bytes: &mut Bytes, value: &Value) -> Result<(), Memory>
    ensures text { Adds result bytes.old bytes.new (spec.value_text value.now) }
    ensures ranged { OnOk result (IsTrue (journal.is_ranged value.now)) }
{
    match value {
        Value::Empty => bytes.append_slice(b"e"),
        Value::Null => bytes.append_slice(b"n"),
        Value::Bool(truth) => push_bool(bytes, *truth),
        Value::Int(number) => push_lettered(bytes, b"i", i64::from(*number)),
        Value::Long(number) => push_lettered(bytes, b"l", i64::from(*number)),
        Value::Cur(number) => push_lettered(bytes, b"c", *number),
        Value::Str(text) => push_text(bytes, text),
        Value::Arr(array) => {
            push_opening(bytes, array.fixed)?;
            push_bounds(bytes, array.bounds.as_slice())?;
            bytes.append_slice(b"|")?;
            let mut more = false;
            for item in array.items.as_slice() {
                push_mark(bytes, more)?;
                push_value(bytes, item)?;
                more = true;
            }
            bytes.append_slice(b"]")?;
            Ok(())
        }
        Value::Obj(_) | Value::Nothing => Ok(()),
    }
}
