//! The operators on values.
ghost use Rattle.std.specs.Prelude.{◌≡◌};
ghost use Rattle.vb_value.specs.Errors.{reported};
ghost use Rattle.vb_value.specs.Outcome.{Answers};
ghost use Rattle.vb_ops.specs.Operators as spec;
ghost use Rattle.vb_ops.specs.Arithmetic.{on_numbers, sum_of, difference_of, product_of, quotient_of, remainder_of};
ghost use Rattle.vb_ops.specs.Joining.{join_of, add_of};
ghost use Rattle.vb_ops.specs.Logic.{and_of, or_of, xor_of, eqv_of, imp_of, on_bits};

use crate::arithmetic::{difference, negative, numbers_of, product, quotient, remainder, sum};
use crate::comparison::{comparison, is};
use crate::joining::{joined_values, joins};
use crate::logic::{and, bits_of, bits_value, eqv, imp, not, or, xor};
use std::alloc::Global;
use vb_value::{
    Op1, Op2, Value, VbError, VbFault, check, is_null, number_value, to_bool, to_number,
};

/// What an operator gives of a value. It takes no memory. Errors: 13, 438 and 91 for an array, an object and
/// Nothing, 13 for a text that is no number, 6 out of range.
pub fn apply1(op: Op1, value: &Value) -> Result<Value, VbFault>
    ensures { result ≡ reported (spec.apply1_of op value.now) }
{
    match op {
        Op1::Minus => Ok(minus(value)?),
        Op1::Not => Ok(not_value(value)?),
    }
}

/// `-`.
fn minus(value: &Value) -> Result<Value, VbError>
    ensures { result ≡ spec.apply1_of Op1.Minus value.now }
{
    check(value)?;
    if is_null(value) {
        return Ok(Value::Null);
    }
    Ok(number_value(negative(to_number(value)?)?))
}

/// `Not`.
fn not_value(value: &Value) -> Result<Value, VbError>
    ensures { result ≡ spec.apply1_of Op1.Not value.now }
{
    check(value)?;
    Ok(bits_value(not(bits_of(value)?)))
}

/// Whether a condition holds; Null does not. The errors are those of `to_bool`.
pub fn truth(value: &Value) -> Result<bool, VbError>
    ensures { result ≡ spec.truth_of value.now }
{
    if is_null(value) {
        Ok(false)
    } else {
        to_bool(value)
    }
}

/// What an operator gives of two values. Errors: 13, 438 and 91 for an array, an object and Nothing, the left
/// side's first, 424 for `Is`, 13 for a text that is no number, 11 for a divisor of 0, 14 for a text of more than
/// 1,048,576 characters, 6 out of range.
pub fn apply2(alloc: Global, op: Op2, a: &Value, b: &Value) -> Result<Value, VbFault>
    ensures { Answers result VbFault.Memory (reported (spec.apply2_of op a.now b.now)) }
{
    if tests_objects(op) {
        return Ok(is(a, b)?);
    }
    check(a)?;
    check(b)?;
    apply_scalars(alloc, op, a, b)
}

/// Whether the operator is `Is`.
fn tests_objects(op: Op2) -> bool
    ensures { result ≡ spec.tests_objects op }
{
    match op {
        Op2::Is => true,
        _ => false,
    }
}

/// What an operator but `Is` gives of two values that are no arrays, objects or Nothing.
fn apply_scalars(alloc: Global, op: Op2, a: &Value, b: &Value) -> Result<Value, VbFault>
    ensures { Answers result VbFault.Memory (reported (spec.scalars_of op a.now b.now)) }
{
    match op {
        Op2::Multiply => Ok(multiply(a, b)?),
        Op2::Divide => Ok(divide(a, b)?),
        Op2::Modulo => Ok(modulo(a, b)?),
        Op2::Add => add(alloc, a, b),
        Op2::Subtract => Ok(subtract(a, b)?),
        Op2::Join => join(alloc, a, b),
        Op2::And => Ok(and_values(a, b)?),
        Op2::Or => Ok(or_values(a, b)?),
        Op2::Xor => Ok(xor_values(a, b)?),
        Op2::Eqv => Ok(eqv_values(a, b)?),
        Op2::Imp => Ok(imp_values(a, b)?),
        Op2::Equal | Op2::Unequal | Op2::Less => Ok(comparison(op, a, b)),
        Op2::Greater | Op2::AtMost | Op2::AtLeast | Op2::Is => Ok(comparison(op, a, b)),
    }
}

/// `+`.
fn add(alloc: Global, a: &Value, b: &Value) -> Result<Value, VbFault>
    ensures { Answers result VbFault.Memory (reported (add_of a.now b.now)) }
{
    if joins(a, b) {
        return joined_values(alloc, a, b);
    }
    match numbers_of(a, b)? {
        None => Ok(Value::Null),
        Some((x, y)) => Ok(number_value(sum(x, y)?)),
    }
}

/// `&`.
fn join(alloc: Global, a: &Value, b: &Value) -> Result<Value, VbFault>
    ensures { Answers result VbFault.Memory (reported (join_of a.now b.now)) }
{
    if is_null(a) && is_null(b) {
        Ok(Value::Null)
    } else {
        joined_values(alloc, a, b)
    }
}

/// `*`.
fn multiply(a: &Value, b: &Value) -> Result<Value, VbError>
    ensures { result ≡ on_numbers product_of a.now b.now }
{
    match numbers_of(a, b)? {
        None => Ok(Value::Null),
        Some((x, y)) => Ok(number_value(product(x, y)?)),
    }
}

/// `\`.
fn divide(a: &Value, b: &Value) -> Result<Value, VbError>
    ensures { result ≡ on_numbers quotient_of a.now b.now }
{
    match numbers_of(a, b)? {
        None => Ok(Value::Null),
        Some((x, y)) => Ok(number_value(quotient(x, y)?)),
    }
}

/// `Mod`.
fn modulo(a: &Value, b: &Value) -> Result<Value, VbError>
    ensures { result ≡ on_numbers remainder_of a.now b.now }
{
    match numbers_of(a, b)? {
        None => Ok(Value::Null),
        Some((x, y)) => Ok(number_value(remainder(x, y)?)),
    }
}

/// `-`.
fn subtract(a: &Value, b: &Value) -> Result<Value, VbError>
    ensures { result ≡ on_numbers difference_of a.now b.now }
{
    match numbers_of(a, b)? {
        None => Ok(Value::Null),
        Some((x, y)) => Ok(number_value(difference(x, y)?)),
    }
}

/// `And`.
fn and_values(a: &Value, b: &Value) -> Result<Value, VbError>
    ensures { result ≡ on_bits and_of a.now b.now }
{
    let first = bits_of(a)?;
    let second = bits_of(b)?;
    Ok(bits_value(and(first, second)))
}

/// `Or`.
fn or_values(a: &Value, b: &Value) -> Result<Value, VbError>
    ensures { result ≡ on_bits or_of a.now b.now }
{
    let first = bits_of(a)?;
    let second = bits_of(b)?;
    Ok(bits_value(or(first, second)))
}

/// `Xor`.
fn xor_values(a: &Value, b: &Value) -> Result<Value, VbError>
    ensures { result ≡ on_bits xor_of a.now b.now }
{
    let first = bits_of(a)?;
    let second = bits_of(b)?;
    Ok(bits_value(xor(first, second)))
}

/// `Eqv`.
fn eqv_values(a: &Value, b: &Value) -> Result<Value, VbError>
    ensures { result ≡ on_bits eqv_of a.now b.now }
{
    let first = bits_of(a)?;
    let second = bits_of(b)?;
    Ok(bits_value(eqv(first, second)))
}

/// `Imp`.
fn imp_values(a: &Value, b: &Value) -> Result<Value, VbError>
    ensures { result ≡ on_bits imp_of a.now b.now }
{
    let first = bits_of(a)?;
    let second = bits_of(b)?;
    Ok(bits_value(imp(first, second)))
}
