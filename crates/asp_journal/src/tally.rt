//! What a journal tells of all runs together.
#![tactic(auto)]

ghost use Rattle.std.specs.Prelude.{◌≡◌, ◌+◌, ◌<◌, ◌^◌, unwrap_or};
ghost use Rattle.asp_job.specs.Runs as runs;
ghost use Rattle.asp_journal.specs.Tables as spec;
ghost use Rattle.asp_journal.specs.Telling as telling;

use crate::told::{counts, makes_key};
use crate::weighing::what_weight;
use asp_job::What;

/// What a journal tells of all runs together.
#[derive(Clone, Copy, Debug)]
pub struct Tally {
    /// How many keys were made.
    pub made: u64,
    /// How many jobs came.
    pub jobs: u64,
    /// The moment of the last Tick, 0 before the first.
    pub moment: u64,
    /// How many entries count.
    pub entries: u64,
    /// What the entries weigh. 2^64 - 1 stands for a greater weight.
    pub weight: u64,
    /// Whether a Stop stands.
    pub stopping: bool,
    /// Whether a Halt stands.
    pub halted: bool,
}

fn moment_after(moment: u64, what: &What) -> u64
    ensures { result ≡ unwrap_or (runs.moment_in what.now) moment }
{
    match what {
        What::Tick { moment: later } => *later,
        _ => moment,
    }
}

fn is_job(what: &What) -> bool
    ensures { result ≡ telling.is_job what.now }
{
    matches!(what, What::Admit { .. } | What::Refuse { .. })
}

fn is_stop(what: &What) -> bool
    ensures { result ≡ runs.is_stop what.now }
{
    matches!(what, What::Stop)
}

fn is_halt(what: &What) -> bool
    ensures { result ≡ runs.is_halt what.now }
{
    matches!(what, What::Halt)
}

/// The same after an entry.
pub fn tallied(tally: Tally, what: &What) -> Tally
    requires entries { tally.entries < 2 ^ 63 }
    requires made { tally.made < 2 ^ 63 }
    requires jobs { tally.jobs < 2 ^ 63 }
    ensures { result ≡ spec.tally_after what.now tally }
{
    Tally {
        made: if makes_key(what) {
            tally.made + 1
        } else {
            tally.made
        },
        jobs: if is_job(what) {
            tally.jobs + 1
        } else {
            tally.jobs
        },
        moment: moment_after(tally.moment, what),
        entries: if counts(what) {
            tally.entries + 1
        } else {
            tally.entries
        },
        weight: tally.weight.saturating_add(what_weight(what)),
        stopping: is_stop(what) || tally.stopping,
        halted: is_halt(what) || tally.halted,
    }
}
