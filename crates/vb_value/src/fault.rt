//! Errors of the language.
ghost use Rattle.std.specs.Prelude.{◌≡◌};

use crate::memory::Memory;

/// An error of the language, by its number (VBScript 5.6, "VBScript Run-time Errors").
#[derive(Clone, Copy, Debug, PartialEq, Eq)]
pub struct VbError {
    pub number: i32,
}

/// Why a call that makes a value did not make it.
#[derive(Clone, Copy, Debug, PartialEq, Eq)]
pub enum VbFault {
    /// An error of the language, by its number.
    Error(i32),
    /// Memory ran out.
    Memory,
}

impl VbError {
    /// An argument that the call does not take.
    pub const INVALID_CALL: VbError = VbError { number: 5 };
    /// A number that its kind does not hold.
    pub const OVERFLOW: VbError = VbError { number: 6 };
    /// An index or a bound outside an array.
    pub const OUT_OF_RANGE: VbError = VbError { number: 9 };
    /// An array whose dimensions stay.
    pub const ARRAY_IS_FIXED: VbError = VbError { number: 10 };
    /// A divisor of 0.
    pub const DIVISION_BY_ZERO: VbError = VbError { number: 11 };
    /// A value of another kind than the one that is wanted.
    pub const TYPE_MISMATCH: VbError = VbError { number: 13 };
    /// A text that is too long.
    pub const OUT_OF_STRING_SPACE: VbError = VbError { number: 14 };
    /// Calls that nest too deep.
    pub const OUT_OF_STACK_SPACE: VbError = VbError { number: 28 };
    /// Nothing, where an object's value is wanted.
    pub const OBJECT_NOT_SET: VbError = VbError { number: 91 };
    /// Null, where a value is wanted.
    pub const INVALID_USE_OF_NULL: VbError = VbError { number: 94 };
    /// A value that is no object, where one is wanted.
    pub const OBJECT_REQUIRED: VbError = VbError { number: 424 };
    /// A class of objects that the host does not have.
    pub const CANNOT_CREATE_OBJECT: VbError = VbError { number: 429 };
    /// An object, where its value is wanted, or a member that it does not have.
    pub const UNSUPPORTED: VbError = VbError { number: 438 };
    /// Another number of arguments than the call takes.
    pub const WRONG_NUMBER: VbError = VbError { number: 450 };
    /// A value that For Each does not go over.
    pub const NOT_A_COLLECTION: VbError = VbError { number: 451 };
    /// A key that is there already.
    pub const KEY_EXISTS: VbError = VbError { number: 457 };
    /// A name that is not declared, under Option Explicit.
    pub const UNDEFINED_VARIABLE: VbError = VbError { number: 500 };
    /// A name that takes no value.
    pub const ILLEGAL_ASSIGNMENT: VbError = VbError { number: 501 };
    /// A class that is not declared.
    pub const UNDEFINED_CLASS: VbError = VbError { number: 506 };
    /// A header that is changed after the response has begun.
    pub const HEADER_ERROR: VbError = VbError { number: 1156 };
    /// A key that is not there.
    pub const ELEMENT_NOT_FOUND: VbError = VbError { number: 32811 };
}

impl From<Memory> for VbFault {
    ghost use Rattle.vb_value.specs.declared.fault.VbFault.TheVariants.{Memory as OutOfMemory};

    ghost from_gives = { λ _ fault. fault ≡ OutOfMemory };

    fn from(_: Memory) -> VbFault {
        VbFault::Memory
    }
}

impl From<VbError> for VbFault {
    ghost use Rattle.vb_value.specs.declared.fault.VbFault.TheVariants.{Error};

    ghost from_gives = { λ error fault. fault ≡ Error error.number };

    fn from(error: VbError) -> VbFault {
        VbFault::Error(error.number)
    }
}
