//! What numbers among the arguments count, and what answers hold.
ghost use Rattle.std.specs.Prelude.{◌≡◌};
ghost use Rattle.vb_value.specs.Errors.{reported};
ghost use Rattle.vb_value.specs.Outcome.{Answers};
ghost use Rattle.vb_value.specs.TextLimit as limit;
ghost use Rattle.vb_strings.specs.Results as spec;

use std::alloc::Global;
use vb_value::{Text, Value, VbError, VbFault, as_long, limited};

/// A number of characters; error 5 below 0.
pub fn count(number: i32) -> Result<usize, VbError>
    ensures { result ≡ spec.count_of number }
{
    if number < 0 {
        Err(VbError::INVALID_CALL)
    } else {
        Ok(number as usize)
    }
}

/// How many characters stand before a place, which counts from 1; error 5 for a lesser one.
pub fn before_place(place: i32) -> Result<usize, VbError>
    ensures { result ≡ spec.before_place place }
{
    if place < 1 {
        Err(VbError::INVALID_CALL)
    } else {
        Ok(place as usize - 1)
    }
}

/// How many are wanted at most, all of them for -1; error 5 below that.
pub fn most(all: usize, number: i32) -> Result<usize, VbError>
    ensures { result ≡ spec.most_of all number }
{
    if number < -1 {
        Err(VbError::INVALID_CALL)
    } else if number < 0 {
        Ok(all)
    } else {
        Ok(number as usize)
    }
}

/// A count or a place as a Long; error 6 where it does not fit.
pub fn long(n: usize) -> Result<Value, VbError>
    ensures { result ≡ spec.long n }
{
    Ok(Value::Long(as_long(n as i128)?))
}

/// Characters as the answer of a function; error 14 for more than a text may have.
pub fn text_of(alloc: Global, characters: &[char]) -> Result<Value, VbFault>
    ensures { Answers result VbFault.Memory (reported (limit.limited characters.now)) }
{
    Ok(limited(Text::from_slice(alloc, characters)?)?)
}
