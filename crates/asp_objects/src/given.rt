//! What members of a page's objects answer, and how they take their arguments.
ghost use Rattle.std.specs.Prelude.{◌≡◌};
ghost use Rattle.std.specs.Option.{option_copied};
ghost use Rattle.vb_value.specs.Outcome.{Answers, Gives};
ghost use Rattle.asp_objects.specs.Given as spec;

use std::alloc::Global;
use vb_syntax::{AskStop, Given};
use vb_value::{Copied, List, Memory, Text, Value, VbError, VbFault, to_long, to_str};

/// An error of the language.
pub(crate) fn failed(error: VbError) -> AskStop
    ensures { result ≡ AskStop.Error error.number }
{
    AskStop::Error(error.number)
}

/// A value as a text.
pub(crate) fn text_in(alloc: Global, value: &Value) -> Result<Text, AskStop>
    ensures { Answers result AskStop.Memory (spec.text_in value.now) }
{
    match to_str(alloc, value) {
        Ok(text) => Ok(text),
        Err(VbFault::Error(number)) => Err(AskStop::Error(number)),
        Err(VbFault::Memory) => Err(AskStop::Memory),
    }
}

/// A value as a Long.
pub(crate) fn long_in(value: &Value) -> Result<i32, AskStop>
    ensures { result ≡ spec.long_in value.now }
{
    match to_long(value) {
        Ok(number) => Ok(number),
        Err(error) => Err(failed(error)),
    }
}

/// How many places stand before one that is counted from 1.
pub(crate) fn before_place(place: i32) -> Result<usize, AskStop>
    ensures { result ≡ spec.before_place place }
{
    if place < 1 {
        Err(failed(VbError::OUT_OF_RANGE))
    } else {
        Ok(place as usize - 1)
    }
}

/// A number as a Long.
pub(crate) fn count(number: usize) -> Result<Given, AskStop>
    ensures { result ≡ spec.count number }
{
    if number > 2_147_483_647 {
        Err(failed(VbError::OVERFLOW))
    } else {
        Ok(Given::Value(Value::Long(number as i32)))
    }
}

fn there(text: Option<&Text>) -> Result<Given, AskStop>
    ensures { Answers result AskStop.Memory (spec.there (option_copied text.entry)) }
{
    match text {
        Some(text) => Ok(Given::Value(Value::Str(text.copy()?))),
        None => Err(failed(VbError::OUT_OF_RANGE)),
    }
}

/// The text at a place that is counted from 1.
pub(crate) fn item_at(items: &[Text], place: i32) -> Result<Given, AskStop>
    ensures { Answers result AskStop.Memory (spec.item_at items.now place) }
{
    let before = before_place(place)?;
    there(items.get(before))
}

/// The same texts once more.
pub(crate) fn copy_texts(alloc: Global, texts: &[Text]) -> Result<List<Text>, Memory>
    ensures { Gives result texts.now }
{
    let mut copies = List::with_capacity(alloc, texts.len())?;
    for text in texts {
        copies.push(text.copy()?)?;
    }
    Ok(copies)
}
