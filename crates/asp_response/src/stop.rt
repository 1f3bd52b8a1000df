//! Why a call on a draft was refused.
ghost use Rattle.std.specs.Prelude.{◌≡◌};

use std::alloc::{AllocError, AllocFailed};
use std::error::Error;
use std::fmt;
use vb_value::{LimitKind, Memory};

/// Why a call on a draft was refused. A refused call changes nothing.
#[derive(Clone, Copy, Debug, PartialEq, Eq)]
pub enum DraftStop {
    /// An error of the language: 5 for a text that may not stand where it should, 1156 for a change of the head
    /// after Flush.
    Error(i32),
    /// The body would be longer than 4 MiB.
    Limit(LimitKind),
    /// Memory ran out.
    Memory,
}

impl fmt::Display for DraftStop {
    fn fmt<W: fmt::Write>(&self, f: &mut fmt::Formatter<W>) -> fmt::Result {
        match self {
            DraftStop::Error(number) => write!(f, "error {number}"),
            DraftStop::Limit(_) => write!(f, "the body is too long"),
            DraftStop::Memory => write!(f, "{}", Memory),
        }
    }
}

impl Error for DraftStop {}

impl From<Memory> for DraftStop {
    ghost use Rattle.asp_response.specs.declared.stop.DraftStop.TheVariants.{Memory as OutOfMemory};

    ghost from_gives = { λ _ stop. stop ≡ OutOfMemory };

    fn from(_: Memory) -> DraftStop {
        DraftStop::Memory
    }
}
