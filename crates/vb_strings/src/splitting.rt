//! Texts cut at separators.
ghost use Rattle.std.specs.Prelude.{◌≡◌, ◌∷◌, [], map};
ghost use Rattle.vb_value.specs.declared.value.Value.{Str};
ghost use Rattle.vb_value.specs.Errors.{reported};
ghost use Rattle.vb_value.specs.Outcome.{Answers, Gives};
ghost use Rattle.vb_strings.specs.Results.{bounded};
ghost use Rattle.vb_strings.specs.Splitting as spec;

use crate::borders::borders;
use crate::comparing::{Comparison, comparison_named};
use crate::parts::{at_most, behind};
use crate::places::first_in;
use crate::results::most;
use crate::texts::as_text;
use std::alloc::Global;
use vb_value::{
    Array, List, MOST_CHARACTERS, Memory, Text, Value, VbError, VbFault, as_long, to_long,
};

/// `Split`.
pub fn split(alloc: Global, args: &[Value]) -> Result<Value, VbFault>
    ensures { Answers result VbFault.Memory (reported (bounded (spec.split_of args.now))) }
{
    match args {
        [s] => split_at_spaces(alloc, s),
        [s, d] => split_value(alloc, s, d, Ok(-1), Ok(Comparison::Exact)),
        [s, d, n] => split_value(alloc, s, d, to_long(n), Ok(Comparison::Exact)),
        [s, d, n, given] => split_value(alloc, s, d, to_long(n), comparison_named(given)),
        _ => Err(VbError::WRONG_NUMBER)?,
    }
}

/// `Split` where no separator is given.
fn split_at_spaces(alloc: Global, s: &Value) -> Result<Value, VbFault>
    ensures { Answers result VbFault.Memory (reported (bounded (spec.split_of (s.now ∷ [])))) }
{
    let space = one_space(alloc)?;
    split_value(alloc, s, &space, Ok(-1), Ok(Comparison::Exact))
}

/// A space, the separator where none is given.
pub fn one_space(alloc: Global) -> Result<Value, Memory>
    ensures { Gives result spec.one_space }
{
    Ok(Value::Str(Text::from_slice(alloc, &[' '])?))
}

/// `Split` with all its arguments.
fn split_value(
    alloc: Global,
    s: &Value,
    d: &Value,
    n: Result<i32, VbError>,
    comparison: Result<Comparison, VbError>,
) -> Result<Value, VbFault>
    ensures { Answers result VbFault.Memory (reported (bounded (spec.split_value s.now d.now n comparison))) }
{
    let text = as_text(alloc, s)?;
    let separator = as_text(alloc, d)?;
    let number = n?;
    let comparison = comparison?;
    split_array(alloc, comparison, text.text(), separator.text(), number)
}

/// At most so many parts of a text as an array, all for -1.
fn split_array(
    alloc: Global,
    comparison: Comparison,
    text: &Text,
    separator: &Text,
    number: i32,
) -> Result<Value, VbFault>
    ensures { Answers result VbFault.Memory (reported (bounded (spec.split_array comparison text.now separator.now number))) }
{
    let texts = split_text(alloc, comparison, text, separator, number)?;
    short_array(alloc, texts)
}

/// At most so many parts of a text, all for -1.
#[tactic(auto, unfolding(crate::specs::Splitting::split))]
fn split_text(
    alloc: Global,
    comparison: Comparison,
    text: &Text,
    separator: &Text,
    number: i32,
) -> Result<List<Text>, VbFault>
    ensures { Answers result VbFault.Memory (reported (spec.split comparison text.now separator.now number)) }
{
    if text.is_empty() {
        return Ok(List::new(alloc));
    }
    if separator.is_empty() {
        return Ok(whole(alloc, text.as_slice())?);
    }
    let most = most(text.as_slice().len() + 1, number)?;
    if most == 0 {
        return Ok(List::new(alloc));
    }
    Ok(parts(
        alloc,
        comparison,
        separator.as_slice(),
        most - 1,
        text.as_slice(),
    )?)
}

/// A text as one part.
pub fn whole(alloc: Global, text: &[char]) -> Result<List<Text>, Memory>
    ensures { Gives result (text.now ∷ []) }
{
    let mut parts = List::with_capacity(alloc, 1)?;
    parts.push(Text::from_slice(alloc, text)?)?;
    Ok(parts)
}

/// The parts of a text between the first so many of its separators.
#[tactic(auto, using(crate::proofs::Cuts::cut_more, crate::proofs::Cuts::cut_none, crate::proofs::Cuts::cut_nowhere))]
pub fn parts(
    alloc: Global,
    comparison: Comparison,
    separator: &[char],
    cuts: usize,
    text: &[char],
) -> Result<List<Text>, Memory>
    ensures { Gives result (spec.parts comparison separator.now cuts text.now) }
{
    let borders = borders(alloc, comparison, separator)?;
    let mut parts = List::new(alloc);
    let mut rest = text;
    let mut left = cuts;
    while 0 < left
        && let Some(before) = first_in(comparison, rest, separator, borders.as_slice())
    {
        parts.push(Text::from_slice(alloc, at_most(rest, before))?)?;
        rest = behind(rest, before + separator.len());
        left -= 1;
    }
    parts.push(Text::from_slice(alloc, rest)?)?;
    Ok(parts)
}

/// Texts as an array; error 14 where one is too long for an answer.
#[tactic(auto, using(crate::proofs::Bounds::array_same, crate::proofs::Bounds::array_refused))]
fn short_array(alloc: Global, texts: List<Text>) -> Result<Value, VbFault>
    ensures { Answers result VbFault.Memory (reported (bounded (spec.array_of texts))) }
{
    let short = are_short(texts.as_slice());
    let array = array(alloc, texts)?;
    if !short {
        return Err(VbError::OUT_OF_STRING_SPACE)?;
    }
    Ok(array)
}

/// Texts as an array.
fn array(alloc: Global, texts: List<Text>) -> Result<Value, VbFault>
    ensures { Answers result VbFault.Memory (reported (spec.array_of texts)) }
{
    let bound = as_long(texts.len() as i128 - 1)?;
    let bounds = List::from_slice(alloc, &[bound])?;
    let items = values(alloc, texts)?;
    Ok(Value::Arr(Array {
        bounds,
        fixed: false,
        items,
    }))
}

/// Whether none of the texts is too long for an answer.
fn are_short(texts: &[Text]) -> bool
    ensures { result ≡ spec.are_short texts.now }
{
    for text in texts {
        if MOST_CHARACTERS < text.len() {
            return false;
        }
    }
    true
}

/// Texts as values.
fn values(alloc: Global, texts: List<Text>) -> Result<List<Value>, Memory>
    ensures { Gives result (map Str texts) }
{
    let mut values = List::with_capacity(alloc, texts.len())?;
    for text in texts.into_vec() {
        values.push(Value::Str(text))?;
    }
    Ok(values)
}
