//! Places of one text in another.
ghost use Rattle.std.specs.Prelude.{◌≡◌, ◌∷◌, []};
ghost use Rattle.vb_strings.specs.Borders.{AreBorders};
ghost use Rattle.vb_strings.specs.Functions.{call_string_of};
ghost use Rattle.vb_value.specs.declared.function.StrFn.TheVariants.{InStr};
ghost use Rattle.vb_value.specs.Errors.{reported};
ghost use Rattle.vb_value.specs.Outcome.{Answers};
ghost use Rattle.vb_strings.specs.Searching as spec;

use crate::borders::borders;
use crate::comparing::{Comparison, comparison_named};
use crate::parts::{at_most, behind};
use crate::places::{first_in, last_place_in};
use crate::results::{before_place, long, most};
use crate::texts::as_text;
use std::alloc::Global;
use vb_value::{Value, VbError, VbFault, is_null, to_long};

/// `InStr`.
pub fn in_str(alloc: Global, args: &[Value]) -> Result<Value, VbFault>
    ensures { Answers result VbFault.Memory (reported (spec.in_str_of args.now)) }
{
    match args {
        [a, b] => first_place(alloc, Ok(1), a, b, Ok(Comparison::Exact)),
        [i, a, b] => first_place(alloc, to_long(i), a, b, Ok(Comparison::Exact)),
        [i, a, b, given] => first_place(alloc, to_long(i), a, b, comparison_named(given)),
        _ => Err(VbError::WRONG_NUMBER)?,
    }
}

/// `InStr` of two values that are lent.
#[tactic(auto, using(crate::proofs::Bounds::same_answers))]
pub fn place_in(alloc: Global, a: &Value, b: &Value) -> Result<Value, VbFault>
    ensures { Answers result VbFault.Memory (reported (call_string_of InStr (a.now ∷ b.now ∷ []))) }
{
    first_place(alloc, Ok(1), a, b, Ok(Comparison::Exact))
}

/// `InStr` from a place on, of values that are lent.
#[tactic(auto, using(crate::proofs::Bounds::same_answers))]
pub fn place_from(alloc: Global, i: &Value, a: &Value, b: &Value) -> Result<Value, VbFault>
    ensures { Answers result VbFault.Memory (reported (call_string_of InStr (i.now ∷ a.now ∷ b.now ∷ []))) }
{
    first_place(alloc, to_long(i), a, b, Ok(Comparison::Exact))
}

/// `InStr` with all its arguments.
fn first_place(
    alloc: Global,
    from: Result<i32, VbError>,
    a: &Value,
    b: &Value,
    comparison: Result<Comparison, VbError>,
) -> Result<Value, VbFault>
    ensures { Answers result VbFault.Memory (reported (spec.in_str from a.now b.now comparison)) }
{
    if is_null(a) || is_null(b) {
        return Ok(Value::Null);
    }
    let from = from?;
    let text = as_text(alloc, a)?;
    let pattern = as_text(alloc, b)?;
    let comparison = comparison?;
    search_from(alloc, comparison, text.as_slice(), pattern.as_slice(), from)
}

/// A search of a text from a place on.
#[tactic(auto, unfolding(crate::specs::Searching::search_from))]
fn search_from(
    alloc: Global,
    comparison: Comparison,
    text: &[char],
    pattern: &[char],
    place: i32,
) -> Result<Value, VbFault>
    ensures { Answers result VbFault.Memory (reported (spec.search_from comparison text.now pattern.now place)) }
{
    let skipped = before_place(place)?;
    let borders = borders(alloc, comparison, pattern)?;
    let place = place_behind(comparison, skipped, text, pattern, borders.as_slice());
    Ok(long(place)?)
}

/// The first place of the pattern behind the skipped characters, 0 where there is none.
fn place_behind(
    comparison: Comparison,
    skipped: usize,
    text: &[char],
    pattern: &[char],
    borders: &[usize],
) -> usize
    requires { AreBorders comparison pattern.now borders.now }
    ensures { result ≡ spec.place_behind comparison skipped text.now pattern.now }
{
    match first_in(comparison, behind(text, skipped), pattern, borders) {
        Some(before) => skipped + before + 1,
        None => 0,
    }
}

/// `InStrRev`.
pub fn in_str_rev(alloc: Global, args: &[Value]) -> Result<Value, VbFault>
    ensures { Answers result VbFault.Memory (reported (spec.in_str_rev_of args.now)) }
{
    match args {
        [a, b] => last_place(alloc, a, b, Ok(-1), Ok(Comparison::Exact)),
        [a, b, i] => last_place(alloc, a, b, to_long(i), Ok(Comparison::Exact)),
        [a, b, i, given] => last_place(alloc, a, b, to_long(i), comparison_named(given)),
        _ => Err(VbError::WRONG_NUMBER)?,
    }
}

/// `InStrRev` with all its arguments.
fn last_place(
    alloc: Global,
    a: &Value,
    b: &Value,
    from: Result<i32, VbError>,
    comparison: Result<Comparison, VbError>,
) -> Result<Value, VbFault>
    ensures { Answers result VbFault.Memory (reported (spec.in_str_rev a.now b.now from comparison)) }
{
    if is_null(a) || is_null(b) {
        return Ok(Value::Null);
    }
    let text = as_text(alloc, a)?;
    let pattern = as_text(alloc, b)?;
    let from = from?;
    let comparison = comparison?;
    search_up_to(alloc, comparison, text.as_slice(), pattern.as_slice(), from)
}

/// A search of a text up to a place, toward the front.
#[tactic(auto, unfolding(crate::specs::Searching::search_up_to))]
fn search_up_to(
    alloc: Global,
    comparison: Comparison,
    text: &[char],
    pattern: &[char],
    place: i32,
) -> Result<Value, VbFault>
    ensures { Answers result VbFault.Memory (reported (spec.search_up_to comparison text.now pattern.now place)) }
{
    let last = end(text, place)?;
    let borders = borders(alloc, comparison, pattern)?;
    let place = place_up_to(comparison, last, text, pattern, borders.as_slice());
    Ok(long(place)?)
}

/// The place at which a search toward the front begins: that of the last character for -1.
fn end(text: &[char], place: i32) -> Result<usize, VbError>
    ensures { result ≡ spec.end_of text.now place }
{
    if place == 0 {
        return Err(VbError::INVALID_CALL);
    }
    most(text.len(), place)
}

/// The last place of the pattern that ends at or before a place, 0 where there is none.
fn place_up_to(
    comparison: Comparison,
    last: usize,
    text: &[char],
    pattern: &[char],
    borders: &[usize],
) -> usize
    requires { AreBorders comparison pattern.now borders.now }
    ensures { result ≡ spec.place_up_to comparison last text.now pattern.now }
{
    if text.len() < last {
        return 0;
    }
    last_place_in(comparison, at_most(text, last), pattern, borders)
}
