//! The entries that an event adds to a journal.
#![tactic(auto)]

ghost use Rattle.std.specs.Prelude.{◌≡◌, ◌+◌, ◌<◌, ◌≤◌, ◌^◌, ◌++◌, ◌∷◌, [], ℕ, List as Items, length, OnOk};
ghost use Rattle.std.specs.Prelude.{OnErr, IfOk, IfErr};
ghost use Rattle.vb_value.specs.Outcome.{Gives, Adds};
ghost use Rattle.asp_job.specs.History as history;
ghost use Rattle.asp_job.specs.Journal as journals;
ghost use Rattle.asp_job.specs.Keys as keys;
ghost use Rattle.asp_job.specs.Runs as runs;
ghost use Rattle.asp_job.specs.Turns as turns;
ghost use Rattle.asp_job.specs.declared.entry.TheConstants.{MOST_ENTRIES};
ghost use Rattle.asp_core.specs.Book.{past_by};
ghost use Rattle.asp_core.specs.Kernel as kernel;
ghost use Rattle.asp_core.specs.Sessions.{Tells, sessions_in};

use crate::keys::due_at;
use asp_job::{Entry, What, Work};
use asp_journal::Journal;
use asp_session::Sessions;
use std::alloc::Global;
use vb_value::{List, Memory};

/// Queues a run for the end of each key's session.
#[tactic(auto, using(crate::proofs::Closing::queue_first))]
fn add_closing(entries: &mut List<Entry>, lane: u32, first: u32, keys: &[u32]) -> Result<(), Memory>
    requires { first + length keys.now < 2 ^ 32 }
    ensures { Adds result entries.old entries.new (journals.queue_entries lane first (turns.closing_runs keys.now)) }
{
    let mut run = first;
    for key in keys {
        entries.push(Entry {
            lane,
            what: What::Queue {
                run,
                work: Work::SessionEnd,
                key: *key,
            },
        })?;
        run += 1;
    }
    Ok(())
}

#[tactic(auto, using(crate::proofs::Expiring::due_few))]
fn due_entries(
    alloc: Global,
    journal: &Journal,
    sessions: &Sessions,
    lane: u32,
    moment: u64,
) -> Result<List<Entry>, Memory>
    requires few { history.entries_in (past_by journal.now) ≤ MOST_ENTRIES }
    requires tells { Tells sessions.now.account (past_by journal.now) }
    ensures { Gives result (history.with_lane lane (What.Tick moment)
        ∷ journals.queue_entries lane (runs.drawn (past_by journal.now) + 1)
        (turns.closing_runs (keys.due_at (sessions_in sessions.now.account) (past_by journal.now) moment))) }
{
    let keys = due_at(alloc, journal, sessions, moment)?;
    let first = journal.drawn() as u32 + 1;
    let mut entries = List::new(alloc);
    entries.push(Entry {
        lane,
        what: What::Tick { moment },
    })?;
    add_closing(&mut entries, lane, first, keys.as_slice())?;
    Ok(entries)
}

/// A Tick and the runs that are then owed, where the moment is greater.
#[tactic(auto)]
pub fn tick_entries(
    alloc: Global,
    journal: &Journal,
    sessions: &Sessions,
    lane: u32,
    moment: u64,
) -> Result<List<Entry>, Memory>
    requires few { history.entries_in (past_by journal.now) ≤ MOST_ENTRIES }
    requires tells { Tells sessions.now.account (past_by journal.now) }
    ensures { Gives result (kernel.ticked (sessions_in sessions.now.account) (past_by journal.now) lane moment) }
{
    if journal.moment() < moment {
        due_entries(alloc, journal, sessions, lane, moment)
    } else {
        Ok(List::new(alloc))
    }
}

/// A Stop and the runs that are then owed.
#[tactic(auto, using(crate::proofs::Closing::queue_last, crate::proofs::Expiring::live_few, crate::proofs::Accounts::live_are))]
pub fn stop_entries(
    alloc: Global,
    journal: &Journal,
    sessions: &Sessions,
    lane: u32,
) -> Result<List<Entry>, Memory>
    requires few { history.entries_in (past_by journal.now) ≤ MOST_ENTRIES }
    requires tells { Tells sessions.now.account (past_by journal.now) }
    ensures { Gives result (kernel.stopped_by (sessions_in sessions.now.account) (past_by journal.now) lane) }
{
    let keys = sessions.live(alloc)?;
    let first = journal.drawn() as u32 + 1;
    let mut entries = List::new(alloc);
    entries.push(Entry {
        lane,
        what: What::Stop,
    })?;
    add_closing(&mut entries, lane, first, keys.as_slice())?;
    entries.push(Entry {
        lane,
        what: What::Queue {
            run: first + keys.len() as u32,
            work: Work::Stop,
            key: 0,
        },
    })?;
    Ok(entries)
}
