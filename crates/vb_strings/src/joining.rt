//! Texts one behind another.
ghost use Rattle.std.specs.Prelude.{◌≡◌, ◌-◌, ◌^◌, ◌++◌, min, length};
ghost use Rattle.vb_value.specs.Errors.{reported};
ghost use Rattle.vb_value.specs.Outcome.{Answers, Gives};
ghost use Rattle.vb_strings.specs.Joining as spec;
ghost use Rattle.vb_strings.specs.Results.{bounded};
ghost use Rattle.vb_value.specs.TextLimit.{limited};

use crate::splitting::one_space;
use crate::texts::as_text;
use std::alloc::Global;
use vb_value::{
    Array, List, MOST_CHARACTERS, Memory, Text, Value, VbError, VbFault, is_null, to_str,
};

/// `Join`.
pub fn join(alloc: Global, args: &[Value]) -> Result<Value, VbFault>
    ensures { Answers result VbFault.Memory (reported (bounded (spec.join_of args.now))) }
{
    match args {
        [a] => join_value(alloc, a, &one_space(alloc)?),
        [a, d] => join_value(alloc, a, d),
        _ => Err(VbError::WRONG_NUMBER)?,
    }
}

/// `Join` with its two arguments. Error 94 for Null, then that of the separator, then 13 for no array and 5 for
/// another number of dimensions than one.
fn join_value(alloc: Global, a: &Value, d: &Value) -> Result<Value, VbFault>
    ensures { Answers result VbFault.Memory (reported (bounded (spec.join_value a.now d.now))) }
{
    if is_null(a) {
        return Err(VbError::INVALID_USE_OF_NULL)?;
    }
    let separator = as_text(alloc, d)?;
    match a {
        Value::Arr(array) => join_array(alloc, array, separator.as_slice()),
        _ => Err(VbError::TYPE_MISMATCH)?,
    }
}

/// The items of an array of one dimension as one text.
fn join_array(alloc: Global, array: &Array, separator: &[char]) -> Result<Value, VbFault>
    ensures { Answers result VbFault.Memory (reported (bounded (spec.join_items array.now.bounds array.now.items separator.now))) }
{
    if array.bounds.len() != 1 {
        return Err(VbError::INVALID_CALL)?;
    }
    let texts = texts(alloc, array.items.as_slice())?;
    joined(alloc, separator, texts.as_slice())
}

/// Values as texts.
#[tactic(auto, using(crate::proofs::Items::texts_more, crate::proofs::Items::texts_stop))]
fn texts(alloc: Global, values: &[Value]) -> Result<List<Text>, VbFault>
    ensures { Answers result VbFault.Memory (reported (spec.texts_of values.now)) }
{
    let mut texts = List::with_capacity(alloc, values.len())?;
    for value in values {
        texts.push(to_str(alloc, value)?)?;
    }
    Ok(texts)
}

/// Texts one behind another with a separator between each two. Error 14 for more characters than a text may have.
pub fn joined(alloc: Global, separator: &[char], texts: &[Text]) -> Result<Value, VbFault>
    ensures { Answers result VbFault.Memory (reported (limited (spec.joined separator.now texts.now))) }
{
    match texts {
        [] => Ok(Value::Str(Text::new(alloc))),
        [first, others @ ..] => {
            let length = first.len().saturating_add(joined_length(separator, others));
            if MOST_CHARACTERS < length {
                return Err(VbError::OUT_OF_STRING_SPACE)?;
            }
            Ok(Value::Str(together(alloc, length, first, separator, others)?))
        }
    }
}

/// How many characters the texts have with a separator before each; 2^64 - 1 for more than that.
#[tactic(auto, using(crate::proofs::Joins::length_more))]
fn joined_length(separator: &[char], texts: &[Text]) -> usize
    ensures { result ≡ min (length (spec.behind separator.now texts.now)) (2 ^ 64 - 1) }
{
    let mut length = 0usize;
    for text in texts {
        length = length
            .saturating_add(separator.len())
            .saturating_add(text.len());
    }
    length
}

/// A text and others, each behind a separator. There is room for `length` characters from the start.
#[tactic(auto, using(crate::proofs::Joins::together_more))]
fn together(
    alloc: Global,
    length: usize,
    first: &Text,
    separator: &[char],
    others: &[Text],
) -> Result<Text, Memory>
    ensures { Gives result (first.now ++ spec.behind separator.now others.now) }
{
    let mut text = Text::with_capacity(alloc, length)?;
    text.append_slice(first.as_slice())?;
    for other in others {
        text.append_slice(separator)?;
        text.append_slice(other.as_slice())?;
    }
    Ok(text)
}
