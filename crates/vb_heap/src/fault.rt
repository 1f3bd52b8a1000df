//! Why a call on the data of a page did not do its work.
ghost use Rattle.std.specs.Prelude.{◌≡◌};

use std::alloc::{AllocError, AllocFailed};
use thiserror::Error;
use vb_value::{LimitKind, Memory, VbError, VbFault};

/// Why a call on the data of a page did not do its work. It left the data as they were.
#[derive(Clone, Copy, Debug, PartialEq, Eq, Error)]
pub enum HeapStop {
    /// An error of the language, by its number.
    #[error("error {0}")]
    Error(i32),
    /// A limit of the host, `Data` or `Nest`.
    #[error("limit {0:?}")]
    Limit(LimitKind),
    /// Memory ran out.
    #[error("out of memory")]
    Memory,
}

impl From<Memory> for HeapStop {
    ghost use Rattle.vb_heap.specs.declared.fault.HeapStop.TheVariants.{Memory as OutOfMemory};

    ghost from_gives = { λ _ stop. stop ≡ OutOfMemory };

    fn from(_: Memory) -> HeapStop {
        HeapStop::Memory
    }
}

impl From<AllocError> for HeapStop {
    ghost use Rattle.vb_heap.specs.declared.fault.HeapStop.TheVariants.{Memory as OutOfMemory};

    ghost from_gives = { λ _ stop. stop ≡ OutOfMemory };

    fn from(_: AllocError) -> HeapStop {
        HeapStop::Memory
    }
}

impl<T: Drop> From<AllocFailed<T>> for HeapStop {
    ghost use Rattle.vb_heap.specs.declared.fault.HeapStop.TheVariants.{Memory as OutOfMemory};

    ghost from_gives = { λ _ stop. stop ≡ OutOfMemory };

    fn from(_: AllocFailed<T>) -> HeapStop {
        HeapStop::Memory
    }
}

impl From<VbError> for HeapStop {
    ghost use Rattle.vb_heap.specs.declared.fault.HeapStop.TheVariants.{Error as Refused};

    ghost from_gives = { λ error stop. stop ≡ Refused error.number };

    fn from(error: VbError) -> HeapStop {
        HeapStop::Error(error.number)
    }
}

impl From<VbFault> for HeapStop {
    ghost use Rattle.vb_heap.specs.Answers.{stop_of};

    ghost from_gives = { λ fault stop. stop ≡ stop_of fault };

    fn from(fault: VbFault) -> HeapStop {
        match fault {
            VbFault::Error(number) => HeapStop::Error(number),
            VbFault::Memory => HeapStop::Memory,
        }
    }
}
