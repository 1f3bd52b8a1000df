//! Why no key was made.
ghost use Rattle.std.specs.Prelude.{◌≡◌};

use std::error::Error;
use std::fmt;
use vb_value::Memory;

/// Why no key was made. Nothing was changed.
#[derive(Clone, Copy, Debug, PartialEq, Eq)]
pub enum KeyStop {
    /// As many keys are live as may be.
    Full,
    /// Memory ran out.
    Memory,
}

impl fmt::Display for KeyStop {
    fn fmt<W: fmt::Write>(&self, f: &mut fmt::Formatter<W>) -> fmt::Result {
        match self {
            KeyStop::Full => write!(f, "too many sessions"),
            KeyStop::Memory => write!(f, "{}", Memory),
        }
    }
}

impl Error for KeyStop {}

impl From<Memory> for KeyStop {
    ghost use Rattle.asp_session.specs.declared.stop.KeyStop.TheVariants.{Memory as OutOfMemory};

    ghost from_gives = { λ _ stop. stop ≡ OutOfMemory };

    fn from(_: Memory) -> KeyStop {
        KeyStop::Memory
    }
}
