//! How characters and texts are compared.
ghost use Rattle.std.specs.Prelude.{◌≡◌};
ghost use Rattle.vb_value.specs.Errors.{reported};
ghost use Rattle.vb_value.specs.Outcome.{Answers, Gives};
ghost use Rattle.vb_strings.specs.Comparing as spec;

use crate::texts::as_text;
use std::alloc::Global;
use std::cmp::Ordering;
use vb_value::{Memory, Text, Value, VbError, VbFault, fold, is_null, to_long};

/// How the characters of texts are compared (VBScript 5.6, "Comparison Constants").
#[derive(Clone, Copy, Debug, PartialEq, Eq)]
pub enum Comparison {
    /// By their numbers.
    Exact,
    /// The letters A to Z as a to z.
    AnyCase,
}

/// The comparison that an argument names; error 5 for another number than 0 and 1.
pub fn comparison_named(value: &Value) -> Result<Comparison, VbError>
    ensures { result ≡ spec.comparison_of value.now }
{
    named(to_long(value)?)
}

/// The comparison of this number.
fn named(number: i32) -> Result<Comparison, VbError>
    ensures { result ≡ spec.named number }
{
    match number {
        0 => Ok(Comparison::Exact),
        1 => Ok(Comparison::AnyCase),
        _ => Err(VbError::INVALID_CALL),
    }
}

/// Whether two characters are the same.
pub fn same(comparison: Comparison, a: char, b: char) -> bool
    ensures { result ≡ spec.same comparison a b }
{
    match comparison {
        Comparison::Exact => a == b,
        Comparison::AnyCase => a.to_ascii_lowercase() == b.to_ascii_lowercase(),
    }
}

/// `StrComp`.
pub fn str_comp(alloc: Global, args: &[Value]) -> Result<Value, VbFault>
    ensures { Answers result VbFault.Memory (reported (spec.str_comp_of args.now)) }
{
    match args {
        [a, b] => compared(alloc, a, b, Ok(Comparison::Exact)),
        [a, b, given] => compared(alloc, a, b, comparison_named(given)),
        _ => Err(VbError::WRONG_NUMBER)?,
    }
}

/// Two values compared as texts.
fn compared(
    alloc: Global,
    a: &Value,
    b: &Value,
    comparison: Result<Comparison, VbError>,
) -> Result<Value, VbFault>
    ensures { Answers result VbFault.Memory (reported (spec.compared a.now b.now comparison)) }
{
    if is_null(a) || is_null(b) {
        return Ok(Value::Null);
    }
    let first = as_text(alloc, a)?;
    let second = as_text(alloc, b)?;
    let order = order(alloc, comparison?, first.text(), second.text())?;
    Ok(Value::Int(sign(order)))
}

/// How two texts compare.
#[tactic(auto, using(crate::proofs::Orders::exact_order))]
fn order(alloc: Global, comparison: Comparison, a: &Text, b: &Text) -> Result<Ordering, Memory>
    ensures { Gives result (spec.order_of comparison a.now b.now) }
{
    match comparison {
        Comparison::Exact => Ok(a.cmp(b)),
        Comparison::AnyCase => {
            let first = fold(alloc, a)?;
            let second = fold(alloc, b)?;
            Ok(first.cmp(&second))
        }
    }
}

/// -1, 0 or 1.
fn sign(order: Ordering) -> i16
    ensures { result ≡ spec.sign_of order }
{
    match order {
        Ordering::Less => -1,
        Ordering::Equal => 0,
        Ordering::Greater => 1,
    }
}
