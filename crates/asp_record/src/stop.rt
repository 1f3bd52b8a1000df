//! Why bytes were not read.
ghost use Rattle.std.specs.Prelude.{◌≡◌};

use std::error::Error;
use std::fmt;
use vb_value::Memory;

/// Why bytes were not read.
#[derive(Clone, Copy, Debug, PartialEq, Eq)]
pub enum RecordStop {
    /// They are not in the format.
    Refused {
        /// The first byte of the first line that does not fit.
        offset: u64,
    },
    /// Memory ran out.
    Memory,
}

impl fmt::Display for RecordStop {
    fn fmt<W: fmt::Write>(&self, f: &mut fmt::Formatter<W>) -> fmt::Result {
        match self {
            RecordStop::Refused { offset } => write!(f, "refused at byte {offset}"),
            RecordStop::Memory => write!(f, "{}", Memory),
        }
    }
}

impl Error for RecordStop {}

impl From<Memory> for RecordStop {
    ghost use Rattle.asp_record.specs.declared.stop.RecordStop.TheVariants.{Memory as OutOfMemory};

    ghost from_gives = { λ _ stop. stop ≡ OutOfMemory };

    fn from(_: Memory) -> RecordStop {
        RecordStop::Memory
    }
}
