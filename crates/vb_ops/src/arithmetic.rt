//! Arithmetic on numbers. Each result is computed in 128 bits and its range is tested last.
ghost use Rattle.std.specs.Prelude.{◌≡◌};
ghost use Rattle.vb_ops.specs.Arithmetic as spec;

use vb_value::{
    Number, Value, VbError, as_currency, as_integer, as_long, is_null, to_number, whole_of_amount,
};

/// Two numbers of one kind.
#[derive(Clone, Copy, Debug, PartialEq, Eq)]
pub enum NumberPair {
    Integers(i16, i16),
    Longs(i32, i32),
    /// In ten-thousandths.
    Currencies(i64, i64),
}

/// The sum.
pub fn sum(a: Number, b: Number) -> Result<Number, VbError>
    ensures { result ≡ spec.sum_of a b }
{
    match aligned(a, b) {
        NumberPair::Integers(a, b) => integer_or_long(a as i128 + b as i128),
        NumberPair::Longs(a, b) => long(a as i128 + b as i128),
        NumberPair::Currencies(a, b) => currency(a as i128 + b as i128),
    }
}

/// The difference.
pub fn difference(a: Number, b: Number) -> Result<Number, VbError>
    ensures { result ≡ spec.difference_of a b }
{
    match aligned(a, b) {
        NumberPair::Integers(a, b) => integer_or_long(a as i128 - b as i128),
        NumberPair::Longs(a, b) => long(a as i128 - b as i128),
        NumberPair::Currencies(a, b) => currency(a as i128 - b as i128),
    }
}

/// The product.
pub fn product(a: Number, b: Number) -> Result<Number, VbError>
    ensures { result ≡ spec.product_of a b }
{
    match aligned(a, b) {
        NumberPair::Integers(a, b) => integer_or_long(a as i128 * b as i128),
        NumberPair::Longs(a, b) => long(a as i128 * b as i128),
        NumberPair::Currencies(a, b) => currency(whole_of_amount(a as i128 * b as i128)),
    }
}

/// The negative.
pub fn negative(a: Number) -> Result<Number, VbError>
    ensures { result ≡ spec.negative_of a }
{
    difference(Number::Int(0), a)
}

/// The quotient of whole Longs, cut toward zero. Error 11 for a divisor of 0.
pub fn quotient(a: Number, b: Number) -> Result<Number, VbError>
    ensures { result ≡ spec.quotient_of a b }
{
    let dividend = a.long()? as i128;
    let divisor = b.long()? as i128;
    if divisor == 0 {
        return Err(VbError::DIVISION_BY_ZERO);
    }
    whole_result(a, b, dividend / divisor)
}

/// The rest of that quotient, with the dividend's sign. Error 11 for a divisor of 0.
pub fn remainder(a: Number, b: Number) -> Result<Number, VbError>
    ensures { result ≡ spec.remainder_of a b }
{
    let dividend = a.long()? as i128;
    let divisor = b.long()? as i128;
    if divisor == 0 {
        return Err(VbError::DIVISION_BY_ZERO);
    }
    whole_result(a, b, dividend % divisor)
}

/// The numbers that two values are; none where a side is Null.
pub fn numbers_of(a: &Value, b: &Value) -> Result<Option<(Number, Number)>, VbError>
    ensures { result ≡ spec.numbers_of a.now b.now }
{
    if is_null(a) || is_null(b) {
        return Ok(None);
    }
    let first = to_number(a)?;
    let second = to_number(b)?;
    Ok(Some((first, second)))
}

/// Two numbers as numbers of one kind.
fn aligned(a: Number, b: Number) -> NumberPair
    ensures { result ≡ spec.aligned a b }
{
    match (a, b) {
        (Number::Int(a), Number::Int(b)) => NumberPair::Integers(a, b),
        (Number::Int(a), Number::Long(b)) => NumberPair::Longs(a as i32, b),
        (Number::Long(a), Number::Int(b)) => NumberPair::Longs(a, b as i32),
        (Number::Long(a), Number::Long(b)) => NumberPair::Longs(a, b),
        (Number::Int(a), Number::Cur(b)) => NumberPair::Currencies(a as i64 * 10_000, b),
        (Number::Long(a), Number::Cur(b)) => NumberPair::Currencies(a as i64 * 10_000, b),
        (Number::Cur(a), Number::Int(b)) => NumberPair::Currencies(a, b as i64 * 10_000),
        (Number::Cur(a), Number::Long(b)) => NumberPair::Currencies(a, b as i64 * 10_000),
        (Number::Cur(a), Number::Cur(b)) => NumberPair::Currencies(a, b),
    }
}

/// A whole result: Integer where it fits and both numbers are Integers, else Long.
#[tactic(auto, unfolding(crate::specs::Arithmetic::whole_result))]
fn whole_result(a: Number, b: Number, n: i128) -> Result<Number, VbError>
    ensures { result ≡ spec.whole_result a b n }
{
    match (a, b) {
        (Number::Int(_), Number::Int(_)) => integer_or_long(n),
        (Number::Int(_), Number::Long(_) | Number::Cur(_)) => long(n),
        (Number::Long(_) | Number::Cur(_), _) => long(n),
    }
}

/// A Long of this value; error 6 where it does not fit.
#[tactic(auto, unfolding(crate::specs::Arithmetic::long))]
fn long(n: i128) -> Result<Number, VbError>
    ensures { result ≡ spec.long n }
{
    Ok(Number::Long(as_long(n)?))
}

/// An Integer of this value where it fits, else a Long; error 6 where that does not fit.
#[tactic(auto, unfolding(crate::specs::Arithmetic::integer_or_long, crate::specs::Arithmetic::long))]
fn integer_or_long(n: i128) -> Result<Number, VbError>
    ensures { result ≡ spec.integer_or_long n }
{
    match as_integer(n) {
        Ok(n) => Ok(Number::Int(n)),
        Err(_) => long(n),
    }
}

/// A Currency of so many ten-thousandths; error 6 where it does not fit.
#[tactic(auto, unfolding(crate::specs::Arithmetic::currency))]
fn currency(n: i128) -> Result<Number, VbError>
    ensures { result ≡ spec.currency n }
{
    Ok(Number::Cur(as_currency(n)?))
}
