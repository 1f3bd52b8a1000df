//! Why a recording was not fed to its end.
ghost use Rattle.std.specs.Prelude.{◌≡◌};

use asp_core::{AdmitStop, EventStop};
use asp_job::Fail;
use asp_journal::Full;
use std::error::Error;
use std::fmt;
use vb_value::Memory;

/// Why a recording was not fed to its end.
#[derive(Clone, Copy, Debug, PartialEq, Eq)]
pub enum FeedStop {
    /// The first run failed, that of `Application_OnStart`. Nothing came.
    StartFailed(Fail),
    /// The journal would be too long or too heavy.
    JournalFull(Full),
    /// The sink failed.
    WriteFault,
    /// Memory ran out.
    Memory,
}

impl fmt::Display for FeedStop {
    fn fmt<W: fmt::Write>(&self, f: &mut fmt::Formatter<W>) -> fmt::Result {
        match self {
            FeedStop::StartFailed(_) => write!(f, "Application_OnStart failed"),
            FeedStop::JournalFull(full) => write!(f, "{full}"),
            FeedStop::WriteFault => write!(f, "the sink failed"),
            FeedStop::Memory => write!(f, "{}", Memory),
        }
    }
}

impl Error for FeedStop {}

impl From<EventStop> for FeedStop {
    ghost use Rattle.asp_replay.specs.Underway.{event_stop};

    ghost from_gives = { λ stop given. given ≡ event_stop stop };

    fn from(stop: EventStop) -> FeedStop {
        match stop {
            EventStop::JournalFull(full) => FeedStop::JournalFull(full),
            EventStop::Memory => FeedStop::Memory,
        }
    }
}

impl From<AdmitStop> for FeedStop {
    ghost use Rattle.asp_replay.specs.Underway.{admit_stop};

    ghost from_gives = { λ stop given. given ≡ admit_stop stop };

    fn from(stop: AdmitStop) -> FeedStop {
        match stop {
            AdmitStop::JournalFull(full) => FeedStop::JournalFull(full),
            AdmitStop::Memory | AdmitStop::Stopping | AdmitStop::WaitingFull => FeedStop::Memory,
        }
    }
}

impl From<Memory> for FeedStop {
    ghost use Rattle.asp_replay.specs.declared.stop.FeedStop.TheVariants.{Memory as OutOfMemory};

    ghost from_gives = { λ _ stop. stop ≡ OutOfMemory };

    fn from(_: Memory) -> FeedStop {
        FeedStop::Memory
    }
}
