//! Why a run did not go through.
#![tactic(auto)]

ghost use Rattle.std.specs.Prelude.{◌≡◌};
ghost use Rattle.asp_lane.specs.Underway as spec;

use crate::turn::TurnEnd;
use asp_core::BeginStop;
use asp_journal::Full;
use std::error::Error;
use std::fmt;
use vb_value::Memory;

/// Why a run did not go through.
#[derive(Clone, Copy, Debug, PartialEq, Eq)]
pub enum RunStop {
    /// The journal would be too long or too heavy.
    JournalFull(Full),
    /// Memory ran out.
    Memory,
}

impl fmt::Display for RunStop {
    fn fmt<W: fmt::Write>(&self, f: &mut fmt::Formatter<W>) -> fmt::Result {
        match self {
            RunStop::JournalFull(full) => write!(f, "{full}"),
            RunStop::Memory => write!(f, "{}", Memory),
        }
    }
}

impl Error for RunStop {}

/// A run that waits alone is not idle.
impl From<BeginStop> for RunStop {
    ghost use Rattle.asp_lane.specs.Underway.{begin_stop};

    ghost from_gives = { λ stop given. given ≡ begin_stop stop };

    fn from(stop: BeginStop) -> RunStop {
        match stop {
            BeginStop::JournalFull(full) => RunStop::JournalFull(full),
            BeginStop::Idle | BeginStop::Memory => RunStop::Memory,
        }
    }
}

/// Why a run does not go on after a turn that came to this.
pub(crate) fn turn_stop(came_to: TurnEnd) -> Option<RunStop>
    ensures { result ≡ spec.turn_stop came_to }
{
    match came_to {
        TurnEnd::Done | TurnEnd::More => None,
        TurnEnd::JournalFull(full) => Some(RunStop::JournalFull(full)),
        TurnEnd::Idle | TurnEnd::Memory => Some(RunStop::Memory),
    }
}
