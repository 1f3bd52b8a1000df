//! Why a call of the Application object was refused.
ghost use Rattle.std.specs.Prelude.{◌≡◌};

use std::error::Error;
use std::fmt;
use vb_value::Memory;

/// Why a call was refused. A refused call changes nothing.
#[derive(Clone, Copy, Debug, PartialEq, Eq)]
pub enum AppStop {
    /// Another run has the lock, and the call is one that it keeps out.
    Blocked {
        /// The run that has the lock.
        holder: u32,
    },
    /// Memory ran out.
    Memory,
}

impl fmt::Display for AppStop {
    fn fmt<W: fmt::Write>(&self, f: &mut fmt::Formatter<W>) -> fmt::Result {
        match self {
            AppStop::Blocked { holder } => write!(f, "run {holder} has the lock"),
            AppStop::Memory => write!(f, "{}", Memory),
        }
    }
}

impl Error for AppStop {}

impl From<Memory> for AppStop {
    ghost use Rattle.asp_app.specs.declared.stop.AppStop.TheVariants.{Memory as OutOfMemory};

    ghost from_gives = { λ _ stop. stop ≡ OutOfMemory };

    fn from(_: Memory) -> AppStop {
        AppStop::Memory
    }
}
