//! A box that contracts see as what it holds.
ghost use Rattle.std.specs.Prelude.{◌≡◌};
ghost use Rattle.vb_value.specs.Outcome.{Gives};

use crate::memory::Memory;
use std::alloc::Global;
use std::marker::Model;

/// A value on the heap, for a type that holds itself.
#[derive(Debug, Drop)]
pub struct Boxed<T> {
    inner: Box<T>,
}

impl<T> Model for Boxed<T> {
    ghost Value = { T };

    ghost coded = { T.code };

    ghost view = { λ boxed. boxed.inner.value };
}

impl<T> Boxed<T> {
    /// The value inside.
    pub fn get(&self) -> &T
        ensures { result.now ≡ self.now }
    {
        &self.inner
    }

    /// Takes the value out.
    pub fn into_inner(self) -> T
        ensures { result ≡ self }
    {
        let Boxed { inner } = self;
        Box::into_inner(inner)
    }
}

impl<T: Drop> Boxed<T> {
    /// The value in a box of its own.
    pub fn new(alloc: Global, value: T) -> Result<Boxed<T>, Memory>
        ensures { Gives result value }
    {
        Ok(Boxed {
            inner: Box::new(alloc, value)?,
        })
    }
}
