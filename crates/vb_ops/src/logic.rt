//! Logic on Booleans, bits and Null.
ghost use Rattle.std.specs.Prelude.{◌≡◌};
ghost use Rattle.vb_ops.specs.Logic as spec;

use vb_value::{Number, Value, VbError, named_truth, to_number};

/// An operand of a logical operator.
#[derive(Clone, Copy, Debug, PartialEq, Eq)]
pub enum Bits {
    Truth(bool),
    Integer(i16),
    Long(i32),
    /// Null.
    Unknown,
}

/// Two operands of one kind.
#[derive(Clone, Copy, Debug, PartialEq, Eq)]
pub enum BitsPair {
    Truths(bool, bool),
    Integers(i16, i16),
    Longs(i32, i32),
    /// An operand beside Null.
    Beside(Bits),
}

/// A value as an operand.
pub fn bits_of(value: &Value) -> Result<Bits, VbError>
    ensures { result ≡ spec.bits_of value.now }
{
    match value {
        Value::Null => Ok(Bits::Unknown),
        Value::Bool(truth) => Ok(Bits::Truth(*truth)),
        Value::Str(text) => match named_truth(text) {
            Some(truth) => Ok(Bits::Truth(truth)),
            None => number_bits(to_number(value)?),
        },
        Value::Empty | Value::Int(_) | Value::Long(_) | Value::Cur(_) => {
            number_bits(to_number(value)?)
        }
        Value::Arr(_) | Value::Obj(_) | Value::Nothing => number_bits(to_number(value)?),
    }
}

/// A number as an operand.
fn number_bits(number: Number) -> Result<Bits, VbError>
    ensures { result ≡ spec.number_bits number }
{
    match number {
        Number::Int(n) => Ok(Bits::Integer(n)),
        Number::Long(n) => Ok(Bits::Long(n)),
        Number::Cur(_) => Ok(Bits::Long(number.long()?)),
    }
}

/// An operand as a value.
pub fn bits_value(bits: Bits) -> Value
    ensures { result ≡ spec.bits_value bits }
{
    match bits {
        Bits::Truth(truth) => Value::Bool(truth),
        Bits::Integer(n) => Value::Int(n),
        Bits::Long(n) => Value::Long(n),
        Bits::Unknown => Value::Null,
    }
}

/// `Not`.
pub fn not(a: Bits) -> Bits
    ensures { result ≡ spec.not_of a }
{
    match a {
        Bits::Truth(truth) => Bits::Truth(!truth),
        Bits::Integer(n) => Bits::Integer(!n),
        Bits::Long(n) => Bits::Long(!n),
        Bits::Unknown => Bits::Unknown,
    }
}

/// `And`.
pub fn and(a: Bits, b: Bits) -> Bits
    ensures { result ≡ spec.and_of a b }
{
    match paired(a, b) {
        BitsPair::Truths(a, b) => Bits::Truth(a && b),
        BitsPair::Integers(a, b) => Bits::Integer(a & b),
        BitsPair::Longs(a, b) => Bits::Long(a & b),
        BitsPair::Beside(known) if has_none(known) => known,
        BitsPair::Beside(_) => Bits::Unknown,
    }
}

/// `Or`.
pub fn or(a: Bits, b: Bits) -> Bits
    ensures { result ≡ spec.or_of a b }
{
    match paired(a, b) {
        BitsPair::Truths(a, b) => Bits::Truth(a || b),
        BitsPair::Integers(a, b) => Bits::Integer(a | b),
        BitsPair::Longs(a, b) => Bits::Long(a | b),
        BitsPair::Beside(known) if has_all(known) => known,
        BitsPair::Beside(_) => Bits::Unknown,
    }
}

/// `Xor`.
pub fn xor(a: Bits, b: Bits) -> Bits
    ensures { result ≡ spec.xor_of a b }
{
    match paired(a, b) {
        BitsPair::Truths(a, b) => Bits::Truth(a != b),
        BitsPair::Integers(a, b) => Bits::Integer(a ^ b),
        BitsPair::Longs(a, b) => Bits::Long(a ^ b),
        BitsPair::Beside(_) => Bits::Unknown,
    }
}

/// `Eqv`.
pub fn eqv(a: Bits, b: Bits) -> Bits
    ensures { result ≡ spec.eqv_of a b }
{
    not(xor(a, b))
}

/// `Imp`.
pub fn imp(a: Bits, b: Bits) -> Bits
    ensures { result ≡ spec.imp_of a b }
{
    or(not(a), b)
}

/// Two operands as operands of one kind.
fn paired(a: Bits, b: Bits) -> BitsPair
    ensures { result ≡ spec.paired a b }
{
    match (a, b) {
        (Bits::Truth(a), Bits::Truth(b)) => BitsPair::Truths(a, b),
        (Bits::Truth(a), Bits::Integer(b)) => BitsPair::Integers(truth_bits(a), b),
        (Bits::Truth(a), Bits::Long(b)) => BitsPair::Longs(truth_bits(a) as i32, b),
        (Bits::Integer(a), Bits::Truth(b)) => BitsPair::Integers(a, truth_bits(b)),
        (Bits::Integer(a), Bits::Integer(b)) => BitsPair::Integers(a, b),
        (Bits::Integer(a), Bits::Long(b)) => BitsPair::Longs(a as i32, b),
        (Bits::Long(a), Bits::Truth(b)) => BitsPair::Longs(a, truth_bits(b) as i32),
        (Bits::Long(a), Bits::Integer(b)) => BitsPair::Longs(a, b as i32),
        (Bits::Long(a), Bits::Long(b)) => BitsPair::Longs(a, b),
        (Bits::Unknown, known) | (known, Bits::Unknown) => BitsPair::Beside(known),
    }
}

/// The bits of a Boolean.
fn truth_bits(truth: bool) -> i16
    ensures { result ≡ spec.number_in (Bits.Truth truth) }
{
    if truth { -1 } else { 0 }
}

/// Whether an operand has no bits.
fn has_none(a: Bits) -> bool
    ensures { result ≡ spec.has_none a }
{
    match a {
        Bits::Truth(truth) => !truth,
        Bits::Integer(n) => n == 0,
        Bits::Long(n) => n == 0,
        Bits::Unknown => false,
    }
}

/// Whether an operand has all bits.
fn has_all(a: Bits) -> bool
    ensures { result ≡ spec.has_all a }
{
    match a {
        Bits::Truth(truth) => truth,
        Bits::Integer(n) => n == -1,
        Bits::Long(n) => n == -1,
        Bits::Unknown => false,
    }
}
