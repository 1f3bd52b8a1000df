//! What values say as keys.
ghost use Rattle.std.specs.Prelude.{◌≡◌};
ghost use Rattle.vb_value.specs.Outcome.{Gives};
ghost use Rattle.vb_heap.specs.Keys as spec;

use crate::key::{Key, KeyText};
use std::alloc::Global;
use vb_value::{Copied, Memory, Text, Value, fold};

/// What a value says as a key in a mode. `None` for one that is no key: an array, Null, Nothing or an object.
pub fn key_of(alloc: Global, mode: i32, value: &Value) -> Result<Option<Key>, Memory>
    ensures { Gives result (spec.key_of mode value.now) }
{
    match value {
        Value::Empty => Ok(Some(Key::Number(0))),
        Value::Bool(truth) => Ok(Some(Key::Number(if *truth { -10_000 } else { 0 }))),
        Value::Int(n) => Ok(Some(Key::Number(*n as i64 * 10_000))),
        Value::Long(n) => Ok(Some(Key::Number(*n as i64 * 10_000))),
        Value::Cur(n) => Ok(Some(Key::Number(*n))),
        Value::Str(text) => Ok(Some(Key::Text(KeyText::new(text_in(alloc, mode, text)?)))),
        Value::Null | Value::Arr(_) | Value::Obj(_) | Value::Nothing => Ok(None),
    }
}

/// What a text says as a key in a mode.
fn text_in(alloc: Global, mode: i32, text: &Text) -> Result<Text, Memory>
    ensures { Gives result (spec.text_in mode text.now) }
{
    if mode == 0 {
        text.copy()
    } else {
        fold(alloc, text)
    }
}
