//! Why a request was not answered.
#![tactic(auto)]

ghost use Rattle.std.specs.Prelude.{◌≡◌};

use asp_core::AdmitStop;
use asp_job::Fail;
use asp_journal::Full;
use asp_lane::RunStop;
use std::error::Error;
use std::fmt;
use vb_value::Memory;

/// Why a request was not answered.
#[derive(Clone, Copy, Debug, PartialEq, Eq)]
pub enum GetStop {
    /// The first run failed, that of `Application_OnStart`.
    StartFailed(Fail),
    /// The journal would be too long or too heavy.
    JournalFull(Full),
    /// Memory ran out.
    Memory,
}

impl fmt::Display for GetStop {
    fn fmt<W: fmt::Write>(&self, f: &mut fmt::Formatter<W>) -> fmt::Result {
        match self {
            GetStop::StartFailed(_) => write!(f, "Application_OnStart failed"),
            GetStop::JournalFull(full) => write!(f, "{full}"),
            GetStop::Memory => write!(f, "{}", Memory),
        }
    }
}

impl Error for GetStop {}

/// A host that was just made neither stops nor has pages that wait.
impl From<AdmitStop> for GetStop {
    ghost use Rattle.asp_get.specs.Underway.{admit_stop};

    ghost from_gives = { λ stop given. given ≡ admit_stop stop };

    fn from(stop: AdmitStop) -> GetStop {
        match stop {
            AdmitStop::JournalFull(full) => GetStop::JournalFull(full),
            AdmitStop::Memory | AdmitStop::Stopping | AdmitStop::WaitingFull => GetStop::Memory,
        }
    }
}

impl From<RunStop> for GetStop {
    ghost use Rattle.asp_get.specs.Underway.{run_stop};

    ghost from_gives = { λ stop given. given ≡ run_stop stop };

    fn from(stop: RunStop) -> GetStop {
        match stop {
            RunStop::JournalFull(full) => GetStop::JournalFull(full),
            RunStop::Memory => GetStop::Memory,
        }
    }
}

impl From<Memory> for GetStop {
    ghost use Rattle.asp_get.specs.declared.stop.GetStop.TheVariants.{Memory as OutOfMemory};

    ghost from_gives = { λ _ stop. stop ≡ OutOfMemory };

    fn from(_: Memory) -> GetStop {
        GetStop::Memory
    }
}
