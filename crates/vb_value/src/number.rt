//! Numbers of the language.
ghost use Rattle.std.specs.Prelude.{◌≡◌, ◌^◌, ◌<◌, ◌≤◌, unsigned_abs};
ghost use Rattle.vb_value.specs.Numbers as spec;

use crate::fault::VbError;

/// How many ten-thousandths one has.
const UNIT: u128 = 10_000;

/// A number of the language, by its kind. Empty and a Boolean count as Integer where a number is wanted.
#[derive(Clone, Copy, Debug, PartialEq, Eq)]
pub enum Number {
    Int(i16),
    Long(i32),
    /// Currency, in ten-thousandths.
    Cur(i64),
}

impl Number {
    /// So many ten-thousandths, as the first of Integer, Long and Currency that holds them.
    pub fn of_amount(amount: i64) -> Number
        ensures { result ≡ spec.least_number amount }
    {
        if amount % 10_000 != 0 {
            return Number::Cur(amount);
        }
        match i32::try_from(amount / 10_000) {
            Ok(whole) => Number::of_whole(whole),
            Err(_) => Number::Cur(amount),
        }
    }

    /// A whole number, as an Integer where that holds it, else a Long.
    pub fn of_whole(whole: i32) -> Number
        ensures { result ≡ spec.whole_number whole }
    {
        match i16::try_from(whole) {
            Ok(whole) => Number::Int(whole),
            Err(_) => Number::Long(whole),
        }
    }

    /// The value in ten-thousandths.
    pub fn amount(self) -> i64
        ensures { result ≡ spec.amount_of self }
    {
        match self {
            Number::Int(n) => n as i64 * 10_000,
            Number::Long(n) => n as i64 * 10_000,
            Number::Cur(n) => n,
        }
    }

    /// The value as a whole number, half rounded to even.
    #[tactic(auto, unfolding(crate::specs::Numbers::rounded))]
    pub fn whole(self) -> i64
        ensures { result ≡ spec.whole_of self }
    {
        match self {
            Number::Int(n) => n as i64,
            Number::Long(n) => n as i64,
            Number::Cur(n) => whole_of_amount(n as i128) as i64,
        }
    }

    /// The value as a whole Long, half rounded to even; error 6 where it is none.
    pub fn long(self) -> Result<i32, VbError>
        ensures { result ≡ spec.long_of self }
    {
        as_long(self.whole() as i128)
    }
}

/// A count of ten-thousandths as a whole number, half rounded to even.
#[tactic(auto, unfolding(crate::specs::Numbers::rounded))]
fn round(count: u128) -> u128
    requires { count ≤ 2 ^ 127 }
    ensures value { result ≡ spec.rounded 10000 count }
    ensures bound { result ≤ count }
{
    let whole = count / UNIT;
    let rest = count % UNIT;
    if 2 * rest < UNIT {
        whole
    } else if UNIT < 2 * rest {
        whole + 1
    } else {
        whole + whole % 2
    }
}

/// A number of ten-thousandths as a whole number, half rounded to even.
#[tactic(auto, unfolding(crate::specs::Numbers::rounded))]
pub fn whole_of_amount(amount: i128) -> i128
    ensures { result ≡ spec.int_rounded 10000 amount }
{
    let size = round(amount.unsigned_abs());
    if amount < 0 {
        -(size as i128)
    } else {
        size as i128
    }
}

/// A whole number as an Integer; error 6 where it is none.
pub fn as_integer(n: i128) -> Result<i16, VbError>
    ensures { result ≡ spec.as_integer n }
{
    i16::try_from(n).map_err(|_| VbError::OVERFLOW)
}

/// A whole number as a Long; error 6 where it is none.
pub fn as_long(n: i128) -> Result<i32, VbError>
    ensures { result ≡ spec.as_long n }
{
    i32::try_from(n).map_err(|_| VbError::OVERFLOW)
}

/// A number of ten-thousandths as a Currency; error 6 where it is none.
pub fn as_currency(n: i128) -> Result<i64, VbError>
    ensures { result ≡ spec.as_currency n }
{
    i64::try_from(n).map_err(|_| VbError::OVERFLOW)
}
