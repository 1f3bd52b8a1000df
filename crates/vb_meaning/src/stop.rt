//! Why something that a script does gives no value.
ghost use Rattle.std.specs.Prelude.{◌≡◌};

use crate::cause::Cause;
use std::alloc::{AllocError, AllocFailed};
use std::error::Error;
use std::fmt;
use vb_heap::HeapStop;
use vb_syntax::AskStop;
use vb_value::{AppCall, LimitKind, Memory, VbError, VbFault};

/// Why something that a script does gives no value.
#[derive(Debug, Drop)]
pub enum Stop {
    /// An error, and the line of the statement in which it first arose once that is known.
    Error(Cause, Option<u32>),
    /// A member of the page's objects stops the page.
    Page,
    /// A limit of the host, and the line of the statement that would pass it once that is known.
    Limit(LimitKind, Option<u32>),
    /// A call of the Application object is wanted, and there is no reply to it.
    Wants(AppCall),
    /// Memory ran out. No meaning ends so.
    Memory,
}

impl fmt::Display for Stop {
    fn fmt<W: fmt::Write>(&self, f: &mut fmt::Formatter<W>) -> fmt::Result {
        match self {
            Stop::Error(cause, _) => write!(f, "{cause}"),
            Stop::Page => write!(f, "the page stops"),
            Stop::Limit(kind, _) => write!(f, "limit {kind:?}"),
            Stop::Wants(_) => write!(f, "a reply of the Application object is wanted"),
            Stop::Memory => write!(f, "{}", Memory),
        }
    }
}

impl Error for Stop {}

impl From<Memory> for Stop {
    ghost use Rattle.vb_meaning.specs.declared.stop.Stop.TheVariants.{Memory as OutOfMemory};

    ghost from_gives = { λ _ stop. stop ≡ OutOfMemory };

    fn from(_: Memory) -> Stop {
        Stop::Memory
    }
}

impl From<AllocError> for Stop {
    ghost use Rattle.vb_meaning.specs.declared.stop.Stop.TheVariants.{Memory as OutOfMemory};

    ghost from_gives = { λ _ stop. stop ≡ OutOfMemory };

    fn from(_: AllocError) -> Stop {
        Stop::Memory
    }
}

impl<T: Drop> From<AllocFailed<T>> for Stop {
    ghost use Rattle.vb_meaning.specs.declared.stop.Stop.TheVariants.{Memory as OutOfMemory};

    ghost from_gives = { λ _ stop. stop ≡ OutOfMemory };

    fn from(_: AllocFailed<T>) -> Stop {
        Stop::Memory
    }
}

impl From<VbError> for Stop {
    ghost use Rattle.vb_meaning.specs.Step.{error_stop};

    ghost from_gives = { λ error stop. stop ≡ error_stop error };

    fn from(error: VbError) -> Stop {
        Stop::Error(Cause::Language(error.number), None)
    }
}

impl From<VbFault> for Stop {
    ghost use Rattle.vb_meaning.specs.Stops.{fault_stop};

    ghost from_gives = { λ fault stop. stop ≡ fault_stop fault };

    fn from(fault: VbFault) -> Stop {
        match fault {
            VbFault::Error(number) => Stop::Error(Cause::Language(number), None),
            VbFault::Memory => Stop::Memory,
        }
    }
}

impl From<HeapStop> for Stop {
    ghost use Rattle.vb_meaning.specs.Stops.{heap_stop};

    ghost from_gives = { λ why stop. stop ≡ heap_stop why };

    fn from(why: HeapStop) -> Stop {
        match why {
            HeapStop::Error(number) => Stop::Error(Cause::Language(number), None),
            HeapStop::Limit(kind) => Stop::Limit(kind, None),
            HeapStop::Memory => Stop::Memory,
        }
    }
}

impl From<AskStop> for Stop {
    ghost use Rattle.vb_meaning.specs.Stops.{ask_stop};

    ghost from_gives = { λ why stop. stop ≡ ask_stop why };

    fn from(why: AskStop) -> Stop {
        match why {
            AskStop::Error(number) => Stop::Error(Cause::Language(number), None),
            AskStop::PageStop => Stop::Page,
            AskStop::Limit(kind) => Stop::Limit(kind, None),
            AskStop::Memory => Stop::Memory,
        }
    }
}
