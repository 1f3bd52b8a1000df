//! Sizes, signs and whole parts of numbers.
ghost use Rattle.std.specs.Prelude.{◌≡◌};
ghost use Rattle.vb_funcs.specs.Arithmetic as spec;

use vb_value::{
    Number, Value, VbError, as_currency, as_long, is_null, number_value, the_argument, to_cur,
    to_number,
};

/// `Abs`.
pub fn abs(args: &[Value]) -> Result<Value, VbError>
    ensures { result ≡ spec.abs_of args.now }
{
    let x = the_argument(args)?;
    if is_null(x) {
        return Ok(Value::Null);
    }
    size(to_number(x)?)
}

/// `Int`.
pub fn int(args: &[Value]) -> Result<Value, VbError>
    ensures { result ≡ spec.int_of args.now }
{
    let x = the_argument(args)?;
    if is_null(x) {
        return Ok(Value::Null);
    }
    lowered(to_number(x)?)
}

/// `Fix`.
pub fn fix(args: &[Value]) -> Result<Value, VbError>
    ensures { result ≡ spec.fix_of args.now }
{
    let x = the_argument(args)?;
    if is_null(x) {
        return Ok(Value::Null);
    }
    Ok(cut(to_number(x)?))
}

/// `Sgn`.
pub fn sgn(args: &[Value]) -> Result<Value, VbError>
    ensures { result ≡ spec.sgn_of args.now }
{
    let x = the_argument(args)?;
    Ok(Value::Int(sign(to_cur(x)?)))
}

/// The size of a number, of its kind; error 6 where that does not hold it.
fn size(number: Number) -> Result<Value, VbError>
    ensures { result ≡ spec.size_of number }
{
    match number {
        Number::Int(n) => Ok(number_value(Number::of_whole(n.unsigned_abs() as i32))),
        Number::Long(n) => long(n.unsigned_abs() as i128),
        Number::Cur(n) => currency(n.unsigned_abs() as i128),
    }
}

/// A Long of this value; error 6 where it does not fit.
fn long(n: i128) -> Result<Value, VbError>
    ensures { result ≡ spec.long n }
{
    Ok(Value::Long(as_long(n)?))
}

/// A Currency of so many ten-thousandths; error 6 where it does not fit.
fn currency(n: i128) -> Result<Value, VbError>
    ensures { result ≡ spec.currency n }
{
    Ok(Value::Cur(as_currency(n)?))
}

/// A number made whole downward, of its kind.
fn lowered(number: Number) -> Result<Value, VbError>
    ensures { result ≡ spec.lowered number }
{
    match number {
        Number::Int(n) => Ok(Value::Int(n)),
        Number::Long(n) => Ok(Value::Long(n)),
        Number::Cur(n) => currency(floor(n)),
    }
}

/// The greatest whole number at most `n`, both in ten-thousandths.
#[tactic(auto, unfolding(crate::specs::Arithmetic::floor_of))]
fn floor(n: i64) -> i128
    ensures { result ≡ spec.floor_of n }
{
    if n < 0 {
        let less = (n + 1).unsigned_abs();
        -((less as i128 / 10_000 + 1) * 10_000)
    } else {
        n as i128 / 10_000 * 10_000
    }
}

/// A number without its decimals, of its kind.
fn cut(number: Number) -> Value
    ensures { result ≡ spec.cut number }
{
    match number {
        Number::Int(n) => Value::Int(n),
        Number::Long(n) => Value::Long(n),
        Number::Cur(n) => Value::Cur(n / 10_000 * 10_000),
    }
}

/// 1, 0 or -1 for a number above, at or below 0.
fn sign(n: i64) -> i16
    ensures { result ≡ spec.sign_of n }
{
    if n < 0 {
        -1
    } else if n == 0 {
        0
    } else {
        1
    }
}
