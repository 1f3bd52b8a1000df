//! Comparisons.
ghost use Rattle.std.specs.Prelude.{◌≡◌, []};
ghost use Rattle.std.specs.Ordering.{nat_cmp};
ghost use Rattle.std.specs.Cmp.Lexicographic.{slice_cmp};
ghost use Rattle.vb_ops.specs.Comparison as spec;

use std::cmp::Ordering;
use vb_value::{ObjNo, Op2, Text, Value, VbError, check, is_null};

/// How two values compare: texts by the numbers of their characters, numbers by value, and a number before any
/// text. None beside Null. Error 13 for an array, 438 for an object, 91 for Nothing, the left side's first.
pub fn compare(a: &Value, b: &Value) -> Result<Option<Ordering>, VbError>
    ensures { result ≡ spec.compare_of a.now b.now }
{
    check(a)?;
    check(b)?;
    Ok(order_between(a, b))
}

/// How two values compare that are no arrays, objects or Nothing; not at all beside Null.
fn order_between(a: &Value, b: &Value) -> Option<Ordering>
    ensures { result ≡ spec.order_between a.now b.now }
{
    if is_null(a) || is_null(b) {
        None
    } else {
        Some(scalar_order(a, b))
    }
}

/// How two values compare that are no arrays, objects, Nothing or Null.
fn scalar_order(a: &Value, b: &Value) -> Ordering
    ensures { result ≡ spec.scalar_order a.now b.now }
{
    match a {
        Value::Str(text) => text_order(text, b),
        Value::Empty => empty_order(b),
        Value::Bool(truth) => amount_order(truth_amount(*truth), b),
        Value::Int(n) => amount_order(*n as i64 * 10_000, b),
        Value::Long(n) => amount_order(*n as i64 * 10_000, b),
        Value::Cur(n) => amount_order(*n, b),
        Value::Null | Value::Arr(_) | Value::Obj(_) | Value::Nothing => amount_order(0, b),
    }
}

/// A String against a value.
fn text_order(text: &Text, value: &Value) -> Ordering
    ensures { result ≡ spec.text_order text.now value.now }
{
    match value {
        Value::Str(other) => text.cmp(other),
        Value::Empty => against_nothing(text),
        Value::Null | Value::Bool(_) => Ordering::Greater,
        Value::Int(_) | Value::Long(_) | Value::Cur(_) => Ordering::Greater,
        Value::Arr(_) | Value::Obj(_) | Value::Nothing => Ordering::Greater,
    }
}

/// A text against one without characters.
#[tactic(auto, using(crate::proofs::Orders::behind_nothing))]
fn against_nothing(text: &Text) -> Ordering
    ensures { result ≡ slice_cmp nat_cmp text.now [] }
{
    if text.is_empty() {
        Ordering::Equal
    } else {
        Ordering::Greater
    }
}

/// A text without characters against a text.
fn nothing_against(text: &Text) -> Ordering
    ensures { result ≡ slice_cmp nat_cmp [] text.now }
{
    if text.is_empty() {
        Ordering::Equal
    } else {
        Ordering::Less
    }
}

/// Empty against a value.
fn empty_order(value: &Value) -> Ordering
    ensures { result ≡ spec.empty_order value.now }
{
    match value {
        Value::Str(text) => nothing_against(text),
        Value::Empty | Value::Null | Value::Bool(_) => amount_order(0, value),
        Value::Int(_) | Value::Long(_) | Value::Cur(_) => amount_order(0, value),
        Value::Arr(_) | Value::Obj(_) | Value::Nothing => amount_order(0, value),
    }
}

/// A number of ten-thousandths against a value.
fn amount_order(amount: i64, value: &Value) -> Ordering
    ensures { result ≡ spec.amount_order amount value.now }
{
    match value {
        Value::Str(_) => Ordering::Less,
        Value::Bool(truth) => amount.cmp(&truth_amount(*truth)),
        Value::Int(n) => amount.cmp(&(*n as i64 * 10_000)),
        Value::Long(n) => amount.cmp(&(*n as i64 * 10_000)),
        Value::Cur(n) => amount.cmp(n),
        Value::Empty | Value::Null => amount.cmp(&0),
        Value::Arr(_) | Value::Obj(_) | Value::Nothing => amount.cmp(&0),
    }
}

/// The value of a Boolean in ten-thousandths.
fn truth_amount(truth: bool) -> i64
    ensures { result ≡ spec.amount_in (Value.Bool truth) }
{
    if truth { -10_000 } else { 0 }
}

/// What a comparison gives of two values that are no arrays, objects or Nothing.
pub fn comparison(op: Op2, a: &Value, b: &Value) -> Value
    ensures { Ok result ≡ spec.comparison_of op a.now b.now }
{
    match order_between(a, b) {
        None => Value::Null,
        Some(order) => Value::Bool(holds(op, order)),
    }
}

/// Whether a comparison holds for an order.
fn holds(op: Op2, order: Ordering) -> bool
    ensures { result ≡ spec.holds op order }
{
    match op {
        Op2::Equal => order == Ordering::Equal,
        Op2::Unequal => order != Ordering::Equal,
        Op2::Less => order == Ordering::Less,
        Op2::Greater => order == Ordering::Greater,
        Op2::AtMost => order != Ordering::Greater,
        Op2::AtLeast => order != Ordering::Less,
        Op2::Multiply | Op2::Divide | Op2::Modulo | Op2::Add | Op2::Subtract | Op2::Join => false,
        Op2::Is | Op2::And | Op2::Or | Op2::Xor | Op2::Eqv | Op2::Imp => false,
    }
}

/// `Is`. Error 424 where a side is neither an object nor Nothing.
pub fn is(a: &Value, b: &Value) -> Result<Value, VbError>
    ensures { result ≡ spec.is_of a.now b.now }
{
    let first = object_of(a)?;
    let second = object_of(b)?;
    Ok(Value::Bool(is_same(first, second)))
}

/// The object of a value, none for Nothing.
fn object_of(value: &Value) -> Result<Option<ObjNo>, VbError>
    ensures { result ≡ spec.object_of value.now }
{
    match value {
        Value::Obj(object) => Ok(Some(*object)),
        Value::Nothing => Ok(None),
        Value::Empty | Value::Null | Value::Bool(_) => Err(VbError::OBJECT_REQUIRED),
        Value::Int(_) | Value::Long(_) | Value::Cur(_) => Err(VbError::OBJECT_REQUIRED),
        Value::Str(_) | Value::Arr(_) => Err(VbError::OBJECT_REQUIRED),
    }
}

/// Whether two are the same object, or both none.
fn is_same(a: Option<ObjNo>, b: Option<ObjNo>) -> bool
    ensures { result ≡ spec.is_same a b }
{
    match (a, b) {
        (Some(a), Some(b)) => a.0 == b.0,
        (None, None) => true,
        _ => false,
    }
}
