//! Why a case gives nothing.

use std::alloc::{AllocError, AllocFailed};
use std::error::Error;
use std::fmt;
use vb_value::Memory;

/// Why a case gives nothing.
#[derive(Clone, Copy, Debug, PartialEq, Eq)]
pub enum CaseStop {
    /// Its line is not in the form of its file.
    Unreadable,
    /// Memory ran out.
    Memory,
}

impl fmt::Display for CaseStop {
    fn fmt<W: fmt::Write>(&self, f: &mut fmt::Formatter<W>) -> fmt::Result {
        match self {
            CaseStop::Unreadable => write!(f, "it can't be read"),
            CaseStop::Memory => write!(f, "out of memory"),
        }
    }
}

impl Error for CaseStop {}

impl From<Memory> for CaseStop {
    fn from(_: Memory) -> CaseStop {
        CaseStop::Memory
    }
}

impl From<AllocError> for CaseStop {
    fn from(_: AllocError) -> CaseStop {
        CaseStop::Memory
    }
}

impl<T: Drop> From<AllocFailed<T>> for CaseStop {
    fn from(_: AllocFailed<T>) -> CaseStop {
        CaseStop::Memory
    }
}
