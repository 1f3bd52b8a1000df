//! Which keys' sessions are over, and which run is next.
#![tactic(auto)]

ghost use Rattle.std.specs.Prelude.{◌≡◌, ◌≤◌, ◌<◌, length, ℕ, false, true, IfNone, IfSome, OnSome};
ghost use Rattle.vb_value.specs.Outcome.{Gives};
ghost use Rattle.asp_job.specs.Keys as spec;
ghost use Rattle.asp_job.specs.Runs as runs;
ghost use Rattle.asp_job.specs.Turns as turns;
ghost use Rattle.asp_job.specs.declared.entry.TheConstants.{MOST_UNFINISHED};
ghost use Rattle.asp_core.specs.Book.{past_by};
ghost use Rattle.asp_core.specs.Kernel as kernel;
ghost use Rattle.asp_core.specs.Opening.{IsNext};
ghost use Rattle.asp_core.specs.Sessions.{Tells, sessions_in};

use asp_job::MOST_UNFINISHED;
use asp_journal::Journal;
use asp_session::Sessions;
use std::alloc::Global;
use vb_value::{List, Memory};

/// The keys whose sessions are over at a moment.
#[tactic(auto, using(crate::proofs::Expiring::due_told, crate::proofs::Expiring::due_none))]
pub fn due_at(
    alloc: Global,
    journal: &Journal,
    sessions: &Sessions,
    moment: u64,
) -> Result<List<u32>, Memory>
    requires { Tells sessions.now.account (past_by journal.now) }
    ensures { Gives result (spec.due_at (sessions_in sessions.now.account) (past_by journal.now) moment) }
{
    if journal.is_stopping() {
        return Ok(List::new(alloc));
    }
    sessions.due(alloc, moment)
}

/// The least of the runs that may begin, where few are unfinished and no Halt stands.
pub fn least_run(journal: &Journal) -> Option<u64>
    requires { (run : ℕ) → turns.may_begin (past_by journal.now) run ≡ true →
        (0 < run) × (run ≤ runs.drawn (past_by journal.now)) }
    ensures none { IfNone result (kernel.NoneIsNext (past_by journal.now)) }
    ensures next { IfSome result (λ run. IsNext (past_by journal.now) run) }
    ensures within { IfSome result (λ run. run ≤ runs.drawn (past_by journal.now)) }
{
    if journal.is_halted() || journal.unfinished() >= MOST_UNFINISHED as u64 {
        return None;
    }
    journal.next_run()
}
