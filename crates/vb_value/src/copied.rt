//! Values that can be copied where memory lasts.
ghost use Rattle.vb_value.specs.Outcome.{Gives};

use crate::memory::Memory;

/// A value of which an equal one can be made.
pub trait Copied {
    /// A value equal to this one.
    fn copy(&self) -> Result<Self, Memory>
        ensures { Gives result self.now };
}

impl<T: Copied + Drop> Copied for Option<T> {
    fn copy(&self) -> Result<Option<T>, Memory> {
        match self {
            None => Ok(None),
            Some(value) => Ok(Some(value.copy()?)),
        }
    }
}

impl Copied for bool {
    fn copy(&self) -> Result<bool, Memory> {
        Ok(*self)
    }
}

impl Copied for char {
    fn copy(&self) -> Result<char, Memory> {
        Ok(*self)
    }
}

impl Copied for u8 {
    fn copy(&self) -> Result<u8, Memory> {
        Ok(*self)
    }
}

impl Copied for u32 {
    fn copy(&self) -> Result<u32, Memory> {
        Ok(*self)
    }
}

impl Copied for u64 {
    fn copy(&self) -> Result<u64, Memory> {
        Ok(*self)
    }
}

impl Copied for i16 {
    fn copy(&self) -> Result<i16, Memory> {
        Ok(*self)
    }
}

impl Copied for i32 {
    fn copy(&self) -> Result<i32, Memory> {
        Ok(*self)
    }
}
