//! Why calls of the core are refused.
ghost use Rattle.std.specs.Prelude.{◌≡◌};

use asp_journal::Full;
use std::error::Error;
use std::fmt;
use vb_value::Memory;

/// Why an event was refused.
#[derive(Clone, Copy, Debug, PartialEq, Eq)]
pub enum EventStop {
    /// The journal would be too long or too heavy.
    JournalFull(Full),
    /// Memory ran out.
    Memory,
}

/// Why a job was not admitted.
#[derive(Clone, Copy, Debug, PartialEq, Eq)]
pub enum AdmitStop {
    /// A Stop stands.
    Stopping,
    /// As many runs of pages wait as may.
    WaitingFull,
    /// The journal would be too long or too heavy.
    JournalFull(Full),
    /// Memory ran out.
    Memory,
}

/// Why no run was begun.
#[derive(Clone, Copy, Debug, PartialEq, Eq)]
pub enum BeginStop {
    /// None may begin, as many are unfinished as may be, or a Halt stands.
    Idle,
    /// The journal would be too long or too heavy.
    JournalFull(Full),
    /// Memory ran out.
    Memory,
}

/// Why a call of the Application object was not made.
#[derive(Clone, Copy, Debug, PartialEq, Eq)]
pub enum AppStepStop {
    /// The lock of this run keeps the call out.
    Blocked { holder: u32 },
    /// The journal would be too long or too heavy.
    JournalFull(Full),
    /// Memory ran out.
    Memory,
}

impl From<Full> for EventStop {
    ghost use Rattle.asp_core.specs.declared.stop.EventStop.TheVariants.{JournalFull};

    ghost from_gives = { λ full stop. stop ≡ JournalFull full };

    fn from(full: Full) -> EventStop {
        EventStop::JournalFull(full)
    }
}

impl From<EventStop> for AdmitStop {
    ghost use Rattle.asp_core.specs.Stops.{admit_stop};

    ghost from_gives = { λ stop given. given ≡ admit_stop stop };

    fn from(stop: EventStop) -> AdmitStop {
        match stop {
            EventStop::JournalFull(full) => AdmitStop::JournalFull(full),
            EventStop::Memory => AdmitStop::Memory,
        }
    }
}

impl From<EventStop> for BeginStop {
    ghost use Rattle.asp_core.specs.Stops.{begin_stop};

    ghost from_gives = { λ stop given. given ≡ begin_stop stop };

    fn from(stop: EventStop) -> BeginStop {
        match stop {
            EventStop::JournalFull(full) => BeginStop::JournalFull(full),
            EventStop::Memory => BeginStop::Memory,
        }
    }
}

impl From<EventStop> for AppStepStop {
    ghost use Rattle.asp_core.specs.Stops.{app_stop};

    ghost from_gives = { λ stop given. given ≡ app_stop stop };

    fn from(stop: EventStop) -> AppStepStop {
        match stop {
            EventStop::JournalFull(full) => AppStepStop::JournalFull(full),
            EventStop::Memory => AppStepStop::Memory,
        }
    }
}

impl From<Memory> for EventStop {
    ghost use Rattle.asp_core.specs.declared.stop.EventStop.TheVariants.{Memory as OutOfMemory};

    ghost from_gives = { λ _ stop. stop ≡ OutOfMemory };

    fn from(_: Memory) -> EventStop {
        EventStop::Memory
    }
}

/// Why an answer was not handed out.
#[derive(Clone, Copy, Debug, PartialEq, Eq)]
pub enum CollectStop {
    /// Another lane asked for the run.
    Foreign { lane: u32 },
    /// The run has not ended.
    NotEnded,
    /// The run is not that of a page.
    NoAnswer,
    /// The answer was handed out before.
    Taken,
}

impl fmt::Display for EventStop {
    fn fmt<W: fmt::Write>(&self, f: &mut fmt::Formatter<W>) -> fmt::Result {
        match self {
            EventStop::JournalFull(full) => write!(f, "{full}"),
            EventStop::Memory => write!(f, "{}", Memory),
        }
    }
}

impl Error for EventStop {}

impl fmt::Display for AdmitStop {
    fn fmt<W: fmt::Write>(&self, f: &mut fmt::Formatter<W>) -> fmt::Result {
        match self {
            AdmitStop::Stopping => write!(f, "the host stops"),
            AdmitStop::WaitingFull => write!(f, "too many pages wait"),
            AdmitStop::JournalFull(full) => write!(f, "{full}"),
            AdmitStop::Memory => write!(f, "{}", Memory),
        }
    }
}

impl Error for AdmitStop {}

impl fmt::Display for BeginStop {
    fn fmt<W: fmt::Write>(&self, f: &mut fmt::Formatter<W>) -> fmt::Result {
        match self {
            BeginStop::Idle => write!(f, "no run may begin"),
            BeginStop::JournalFull(full) => write!(f, "{full}"),
            BeginStop::Memory => write!(f, "{}", Memory),
        }
    }
}

impl Error for BeginStop {}

impl fmt::Display for AppStepStop {
    fn fmt<W: fmt::Write>(&self, f: &mut fmt::Formatter<W>) -> fmt::Result {
        match self {
            AppStepStop::Blocked { holder } => write!(f, "run {holder} has the lock"),
            AppStepStop::JournalFull(full) => write!(f, "{full}"),
            AppStepStop::Memory => write!(f, "{}", Memory),
        }
    }
}

impl Error for AppStepStop {}

impl fmt::Display for CollectStop {
    fn fmt<W: fmt::Write>(&self, f: &mut fmt::Formatter<W>) -> fmt::Result {
        match self {
            CollectStop::Foreign { lane } => write!(f, "lane {lane} asked for the run"),
            CollectStop::NotEnded => write!(f, "the run has not ended"),
            CollectStop::NoAnswer => write!(f, "the run has no answer"),
            CollectStop::Taken => write!(f, "the answer was handed out before"),
        }
    }
}

impl Error for CollectStop {}
