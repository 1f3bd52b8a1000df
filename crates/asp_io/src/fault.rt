//! Faults of the outside.
ghost use Rattle.std.specs.Prelude.{◌≡◌};
ghost use Rattle.std.specs.IoError.{error_kind};
ghost use Rattle.asp_io.specs.Faults.{stop_of};
ghost use Rattle.asp_io.specs.declared.fault.IoStop.TheVariants.{Failed as HasFailed, Memory as OutOfMemory};

use std::alloc::{AllocError, AllocFailed};
use std::io;
use std::io::ErrorKind;
use thiserror::Error;
use vb_value::Memory;

/// A stream or a connection failed, and its count of faults rose.
#[derive(Clone, Copy, Debug, PartialEq, Eq, Error)]
#[error("the stream or the connection failed")]
pub struct Failed;

/// An error of std is a fault.
impl From<io::Error> for Failed {
    fn from(_: io::Error) -> Failed {
        Failed
    }
}

/// Memory that ran out for a connection is a fault of its wire.
impl From<AllocError> for Failed {
    fn from(_: AllocError) -> Failed {
        Failed
    }
}

/// Why a call to the outside that also takes memory gave nothing.
#[derive(Clone, Copy, Debug, PartialEq, Eq, Error)]
pub enum IoStop {
    /// The folder or the stream failed, and its count of faults rose.
    #[error("the folder or the stream failed")]
    Failed,
    /// Memory ran out.
    #[error("out of memory")]
    Memory,
}

impl From<Failed> for IoStop {
    ghost from_gives = { λ _ stop. stop ≡ HasFailed };

    fn from(_: Failed) -> IoStop {
        IoStop::Failed
    }
}

impl From<Memory> for IoStop {
    ghost from_gives = { λ _ stop. stop ≡ OutOfMemory };

    fn from(_: Memory) -> IoStop {
        IoStop::Memory
    }
}

impl From<AllocError> for IoStop {
    ghost from_gives = { λ _ stop. stop ≡ OutOfMemory };

    fn from(_: AllocError) -> IoStop {
        IoStop::Memory
    }
}

impl<T: Drop> From<AllocFailed<T>> for IoStop {
    ghost from_gives = { λ _ stop. stop ≡ OutOfMemory };

    fn from(_: AllocFailed<T>) -> IoStop {
        IoStop::Memory
    }
}

/// An error of std is out of memory by its kind, and else a fault.
impl From<io::Error> for IoStop {
    ghost from_gives = { λ error stop. stop ≡ stop_of (error_kind error) };

    fn from(error: io::Error) -> IoStop {
        match error.kind() {
            ErrorKind::OutOfMemory => IoStop::Memory,
            _ => IoStop::Failed,
        }
    }
}
