//! Lengths and parts of texts.
ghost use Rattle.std.specs.Prelude.{◌≡◌, ◌∷◌, [], take, drop};
ghost use Rattle.vb_value.specs.Errors.{reported};
ghost use Rattle.vb_value.specs.NumericText.{without_first, without_last};
ghost use Rattle.vb_value.specs.Outcome.{Answers};
ghost use Rattle.vb_strings.specs.Parts as spec;
ghost use Rattle.vb_strings.specs.Results.{bounded};

use crate::results::{before_place, count, long, text_of};
use crate::texts::as_text;
use std::alloc::Global;
use vb_value::{Value, VbError, VbFault, is_null, the_argument, to_long};

/// `Len`.
pub fn len(alloc: Global, args: &[Value]) -> Result<Value, VbFault>
    ensures { Answers result VbFault.Memory (reported (spec.len_of args.now)) }
{
    let s = the_argument(args)?;
    if is_null(s) {
        return Ok(Value::Null);
    }
    let text = as_text(alloc, s)?;
    Ok(long(text.text().len())?)
}

/// `Left`.
pub fn left(alloc: Global, args: &[Value]) -> Result<Value, VbFault>
    ensures { Answers result VbFault.Memory (reported (bounded (spec.left_of args.now))) }
{
    match args {
        [s, n] => front(alloc, s, n),
        _ => Err(VbError::WRONG_NUMBER)?,
    }
}

/// At most so many characters from the front.
fn front(alloc: Global, s: &Value, n: &Value) -> Result<Value, VbFault>
    ensures { Answers result VbFault.Memory (reported (bounded (spec.left_of (s.now ∷ n.now ∷ [])))) }
{
    if is_null(s) {
        return Ok(Value::Null);
    }
    let text = as_text(alloc, s)?;
    let count = count(to_long(n)?)?;
    text_of(alloc, at_most(text.as_slice(), count))
}

/// `Right`.
pub fn right(alloc: Global, args: &[Value]) -> Result<Value, VbFault>
    ensures { Answers result VbFault.Memory (reported (bounded (spec.right_of args.now))) }
{
    match args {
        [s, n] => back(alloc, s, n),
        _ => Err(VbError::WRONG_NUMBER)?,
    }
}

/// At most so many characters from the end.
fn back(alloc: Global, s: &Value, n: &Value) -> Result<Value, VbFault>
    ensures { Answers result VbFault.Memory (reported (bounded (spec.right_of (s.now ∷ n.now ∷ [])))) }
{
    if is_null(s) {
        return Ok(Value::Null);
    }
    let text = as_text(alloc, s)?;
    let count = count(to_long(n)?)?;
    let start = text.text().len().saturating_sub(count);
    text_of(alloc, behind(text.as_slice(), start))
}

/// `Mid`.
pub fn mid(alloc: Global, args: &[Value]) -> Result<Value, VbFault>
    ensures { Answers result VbFault.Memory (reported (bounded (spec.mid_of args.now))) }
{
    match args {
        [s, i] => rest(alloc, s, i),
        [s, i, n] => middle(alloc, s, i, n),
        _ => Err(VbError::WRONG_NUMBER)?,
    }
}

/// A text from a place on.
fn rest(alloc: Global, s: &Value, i: &Value) -> Result<Value, VbFault>
    ensures { Answers result VbFault.Memory (reported (bounded (spec.mid_of (s.now ∷ i.now ∷ [])))) }
{
    if is_null(s) {
        return Ok(Value::Null);
    }
    let text = as_text(alloc, s)?;
    let skipped = before_place(to_long(i)?)?;
    text_of(alloc, behind(text.as_slice(), skipped))
}

/// At most so many characters from a place on.
fn middle(alloc: Global, s: &Value, i: &Value, n: &Value) -> Result<Value, VbFault>
    ensures { Answers result VbFault.Memory (reported (bounded (spec.mid_of (s.now ∷ i.now ∷ n.now ∷ [])))) }
{
    if is_null(s) {
        return Ok(Value::Null);
    }
    let text = as_text(alloc, s)?;
    let place = to_long(i)?;
    let number = to_long(n)?;
    let skipped = before_place(place)?;
    let count = count(number)?;
    text_of(alloc, at_most(behind(text.as_slice(), skipped), count))
}

/// What stands behind so many characters.
pub fn behind(text: &[char], skipped: usize) -> &[char]
    ensures { result.now ≡ drop skipped text.now }
{
    if skipped < text.len() {
        &text[skipped..]
    } else {
        &[]
    }
}

/// The first so many characters, or all where there are fewer.
pub fn at_most(text: &[char], count: usize) -> &[char]
    ensures { result.now ≡ take count text.now }
{
    if count < text.len() {
        &text[..count]
    } else {
        text
    }
}

/// `LTrim`.
pub fn ltrim(alloc: Global, args: &[Value]) -> Result<Value, VbFault>
    ensures { Answers result VbFault.Memory (reported (bounded (spec.ltrim_of args.now))) }
{
    let s = the_argument(args)?;
    if is_null(s) {
        return Ok(Value::Null);
    }
    let text = as_text(alloc, s)?;
    text_of(alloc, without_first_spaces(text.as_slice()))
}

/// `RTrim`.
pub fn rtrim(alloc: Global, args: &[Value]) -> Result<Value, VbFault>
    ensures { Answers result VbFault.Memory (reported (bounded (spec.rtrim_of args.now))) }
{
    let s = the_argument(args)?;
    if is_null(s) {
        return Ok(Value::Null);
    }
    let text = as_text(alloc, s)?;
    text_of(alloc, without_last_spaces(text.as_slice()))
}

/// `Trim`.
pub fn trim(alloc: Global, args: &[Value]) -> Result<Value, VbFault>
    ensures { Answers result VbFault.Memory (reported (bounded (spec.trim_of args.now))) }
{
    let s = the_argument(args)?;
    if is_null(s) {
        return Ok(Value::Null);
    }
    let text = as_text(alloc, s)?;
    text_of(
        alloc,
        without_last_spaces(without_first_spaces(text.as_slice())),
    )
}

/// The text from its first character on that is no space.
fn without_first_spaces(text: &[char]) -> &[char]
    ensures { result.now ≡ without_first spec.is_space text.now }
{
    let mut left = text;
    while let [first, rest @ ..] = left
        && *first == ' '
    {
        left = rest;
    }
    left
}

/// The text up to its last character that is no space.
fn without_last_spaces(text: &[char]) -> &[char]
    ensures { result.now ≡ without_last spec.is_space text.now }
{
    let mut end = text.len();
    while 0 < end && text[end - 1] == ' ' {
        end -= 1;
    }
    &text[..end]
}
