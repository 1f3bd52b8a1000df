//! Texts that are joined.
ghost use Rattle.std.specs.Prelude.{◌≡◌, ◌++◌};
ghost use Rattle.vb_value.specs.Errors.{reported};
ghost use Rattle.vb_value.specs.Outcome.{Answers};
ghost use Rattle.vb_value.specs.TextLimit.{limited};
ghost use Rattle.vb_ops.specs.Joining as spec;

use std::alloc::Global;
use vb_value::{
    MOST_CHARACTERS, Text, Value, VbError, VbFault, is_empty, is_null, limited, to_str,
};

/// Two values joined as texts, Null as an empty one. Error 14 for more than 1,048,576 characters.
pub fn joined_values(alloc: Global, a: &Value, b: &Value) -> Result<Value, VbFault>
    ensures { Answers result VbFault.Memory (reported (spec.joined_values a.now b.now)) }
{
    let first = text_of(alloc, a)?;
    let second = text_of(alloc, b)?;
    joined(first, second)
}

/// Two texts as one. Memory for it is taken only where it is not too long.
#[tactic(auto, using(crate::proofs::Limits::too_long_together))]
fn joined(first: Text, second: Text) -> Result<Value, VbFault>
    ensures { Answers result VbFault.Memory (reported (limited (first ++ second))) }
{
    if MOST_CHARACTERS < first.len() + second.len() {
        return Err(VbError::OUT_OF_STRING_SPACE)?;
    }
    let mut text = first;
    text.append(second)?;
    Ok(limited(text)?)
}

/// The text of a value, an empty one for Null.
fn text_of(alloc: Global, value: &Value) -> Result<Text, VbFault>
    ensures { Answers result VbFault.Memory (reported (spec.text_of value.now)) }
{
    if is_null(value) {
        Ok(Text::new(alloc))
    } else {
        to_str(alloc, value)
    }
}

/// Whether `+` joins these operands.
pub fn joins(a: &Value, b: &Value) -> bool
    ensures { result ≡ spec.joins a.now b.now }
{
    (is_text(a) && (is_text(b) || is_empty(b))) || (is_empty(a) && is_text(b))
}

/// Whether the value is a String.
fn is_text(value: &Value) -> bool
    ensures { result ≡ spec.is_text value.now }
{
    match value {
        Value::Str(_) => true,
        _ => false,
    }
}
