//! Parts of texts replaced.
ghost use Rattle.std.specs.Prelude.{◌≡◌};
ghost use Rattle.vb_value.specs.Errors.{reported};
ghost use Rattle.vb_value.specs.Outcome.{Answers, Gives};
ghost use Rattle.vb_strings.specs.Replacing as spec;
ghost use Rattle.vb_strings.specs.Results.{bounded};

use crate::comparing::{Comparison, comparison_named};
use crate::joining::joined;
use crate::parts::behind;
use crate::results::{before_place, most};
use crate::splitting::{parts, whole};
use crate::texts::as_text;
use std::alloc::Global;
use vb_value::{List, Memory, Text, Value, VbError, VbFault, to_long};

/// The arguments of `Replace` that may be left out, each converted.
#[derive(Clone, Copy)]
struct Choices {
    place: Result<i32, VbError>,
    number: Result<i32, VbError>,
    comparison: Result<Comparison, VbError>,
}

/// `Replace`.
pub fn replace(alloc: Global, args: &[Value]) -> Result<Value, VbFault>
    ensures { Answers result VbFault.Memory (reported (bounded (spec.replace_of args.now))) }
{
    match args {
        [s, a, b] => replace_value(
            alloc,
            s,
            a,
            b,
            choices_of(Ok(1), Ok(-1), Ok(Comparison::Exact)),
        ),
        [s, a, b, i] => {
            let choices = choices_of(to_long(i), Ok(-1), Ok(Comparison::Exact));
            replace_value(alloc, s, a, b, choices)
        }
        [s, a, b, i, n] => {
            let choices = choices_of(to_long(i), to_long(n), Ok(Comparison::Exact));
            replace_value(alloc, s, a, b, choices)
        }
        [s, a, b, i, n, given] => {
            let choices = choices_of(to_long(i), to_long(n), comparison_named(given));
            replace_value(alloc, s, a, b, choices)
        }
        _ => Err(VbError::WRONG_NUMBER)?,
    }
}

/// The arguments that may be left out.
fn choices_of(
    place: Result<i32, VbError>,
    number: Result<i32, VbError>,
    comparison: Result<Comparison, VbError>,
) -> Choices
    ensures place { result.place ≡ place }
    ensures number { result.number ≡ number }
    ensures comparison { result.comparison ≡ comparison }
{
    Choices {
        place,
        number,
        comparison,
    }
}

/// `Replace` with all its arguments.
fn replace_value(
    alloc: Global,
    s: &Value,
    a: &Value,
    b: &Value,
    choices: Choices,
) -> Result<Value, VbFault>
    ensures { let answer = spec.replace_value s.now a.now b.now choices.place choices.number choices.comparison in
        Answers result VbFault.Memory (reported (bounded answer)) }
{
    let text = as_text(alloc, s)?;
    let pattern = as_text(alloc, a)?;
    let other = as_text(alloc, b)?;
    let place = choices.place?;
    let number = choices.number?;
    let comparison = choices.comparison?;
    let skipped = before_place(place)?;
    let most = most(text.text().len(), number)?;
    let text = behind(text.as_slice(), skipped);
    let parts = around(alloc, comparison, pattern.as_slice(), most, text)?;
    joined(alloc, other.as_slice(), parts.as_slice())
}

/// What stands around the first so many occurrences of the pattern.
fn around(
    alloc: Global,
    comparison: Comparison,
    pattern: &[char],
    most: usize,
    text: &[char],
) -> Result<List<Text>, Memory>
    ensures { Gives result (spec.around comparison pattern.now most text.now) }
{
    if pattern.is_empty() {
        whole(alloc, text)
    } else {
        parts(alloc, comparison, pattern, most, text)
    }
}
