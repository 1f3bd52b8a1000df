//! Why a call that reads a script or a page stopped.
ghost use Rattle.std.specs.Prelude.{◌≡◌};
ghost use Rattle.vb_value.specs.Outcome.{Becomes};

use crate::memory::Memory;
use std::error::Error;
use std::fmt;

/// Why a call stopped: at a fault of what it was given, or because memory ran out.
#[derive(Clone, Copy, Debug, PartialEq, Eq)]
pub enum Stop<K> {
    /// The first fault.
    Fault {
        /// What is wrong.
        kind: K,
        /// The line on which it stands, counted from 1.
        line: u32,
    },
    /// Memory ran out.
    Memory,
}

impl<K> Stop<K> {
    /// The same stop, with another kind of fault.
    pub fn map<L, F: FnOnce(K) -> L>(self, make: F) -> Stop<L>
        requires { (kind : K) → F.pre make kind }
        ensures { Becomes self (λ kind new. F.post make kind new) result }
    {
        match self {
            Stop::Fault { kind, line } => Stop::Fault {
                kind: make(kind),
                line,
            },
            Stop::Memory => Stop::Memory,
        }
    }
}

impl<K> From<Memory> for Stop<K> {
    ghost use Rattle.vb_value.specs.declared.stop.Stop.TheVariants.{Memory as OutOfMemory};

    ghost from_gives = { λ _ stop. stop ≡ OutOfMemory };

    fn from(_: Memory) -> Stop<K> {
        Stop::Memory
    }
}

impl<K: fmt::Display> fmt::Display for Stop<K> {
    fn fmt<W: fmt::Write>(&self, f: &mut fmt::Formatter<W>) -> fmt::Result {
        match self {
            Stop::Fault { kind, line } => write!(f, "line {line}: {kind}"),
            Stop::Memory => write!(f, "{}", Memory),
        }
    }
}

impl<K: Copy + fmt::Debug + fmt::Display> Error for Stop<K> {}
