//! Room in a journal.
#![tactic(auto)]

ghost use Rattle.std.specs.Prelude.{◌≡◌, ◌+◌, ◌-◌, ◌*◌, ◌<◌, ◌≤◌, ◌^◌, ◌++◌, min, length, sum_by};
ghost use Rattle.std.specs.Prelude.{OnOk, OnErr, IfErr, Err};
ghost use Rattle.asp_job.specs.History as history;
ghost use Rattle.asp_job.specs.Journal as journals;
ghost use Rattle.asp_job.specs.declared.entry.TheConstants.{MOST_ENTRIES};
ghost use Rattle.asp_journal.specs.Tables.{AreFit};
ghost use Rattle.asp_core.specs.Book.{Grows, IsRoomy, Stays, past_by, past_in};
ghost use Rattle.asp_core.specs.Calm as spec;
ghost use Rattle.asp_core.specs.Kernel as kernel;
ghost use Rattle.asp_core.specs.Sessions.{account_closed};

use crate::account::queue_runs;
use crate::book::Book;
use crate::stop::EventStop;
use asp_job::{Entry, MOST_ENTRIES, MOST_WEIGHT};
use asp_journal::{Full, Journal, what_weight};
use asp_session::Sessions;
use vb_value::List;

/// What entries weigh. 2^64 - 1 stands for a greater weight.
#[tactic(auto, using(asp_journal::proofs::Past::sum_more))]
pub fn entries_weight(entries: &[Entry]) -> u64
    ensures { result ≡ min (sum_by spec.entry_weight entries.now) (2 ^ 64 - 1) }
{
    let mut total: u64 = 0;
    for entry in entries {
        total = total.saturating_add(what_weight(&entry.what));
    }
    total
}

/// Looks whether so many entries of that weight fit, with one end for each unfinished run.
fn check_load(journal: &Journal, count: u64, weight: u64) -> Result<(), Full>
    requires few { history.entries_in (past_by journal.now) ≤ MOST_ENTRIES }
    requires count { count < 2 ^ 62 }
    ensures ok { OnOk result (spec.HasLoad (past_by journal.now) count weight) }
    ensures full { IfErr result (spec.IsOver (past_by journal.now) count weight) }
{
    let full = Full {
        entries: journal.entries_in() + journal.unfinished() + count,
        weight: journal.weight_load().saturating_add(weight),
    };
    if full.entries > MOST_ENTRIES || full.weight > MOST_WEIGHT {
        return Err(full);
    }
    Ok(())
}

/// Looks whether so many entries of that weight fit, and makes room for them and for all that is to come for sure.
pub fn room_for(book: &mut Book, count: usize, weight: u64) -> Result<(), EventStop>
    requires few { history.entries_in (past_in book.old) ≤ MOST_ENTRIES }
    requires count { count < 2 ^ 62 }
    ensures stays { Stays book.old book.new }
    ensures ok { OnOk result (spec.HasLoad (past_in book.old) count weight × IsRoomy book.new count) }
    ensures full { (full : Full) → result ≡ Err (EventStop.JournalFull full) →
        spec.IsOver (past_in book.old) count weight full }
    ensures fits { result ≡ Err EventStop.Memory → spec.HasLoad (past_in book.old) count weight }
{
    check_load(book.journal(), count as u64, weight)?;
    if book.make_room(count).is_err() {
        return Err(EventStop::Memory);
    }
    Ok(())
}

/// Makes room for the session keys of a job and for so many runs.
pub fn make_key_room(sessions: &mut Sessions, keys: u32, runs: usize) -> Result<(), EventStop>
    requires { runs < 2 ^ 32 }
    ensures account { sessions.new.account ≡ sessions.old.account }
    ensures keys { OnOk result (keys ≤ sessions.new.key_room) }
    ensures runs { OnOk result (runs ≤ sessions.new.run_room) }
    ensures memory { OnErr result (result ≡ Err EventStop.Memory) }
{
    match sessions.room(keys, runs as u32) {
        Ok(()) => Ok(()),
        Err(_) => Err(EventStop::Memory),
    }
}

/// Adds entries that begin and end no run, if they fit, and queues the runs that they queue. A refusal leaves the book and
/// the session keys.
pub fn add_calm(
    book: &mut Book,
    sessions: &mut Sessions,
    more: List<Entry>,
) -> Result<(), EventStop>
    requires few { history.entries_in (past_in book.old) ≤ MOST_ENTRIES }
    requires fit { AreFit (past_in book.old) more }
    requires calm { spec.AreCalm more }
    ensures ok { OnOk result (Grows book.old more book.new) }
    ensures account { OnOk result (sessions.new.account ≡ account_closed more sessions.old.account) }
    ensures err { OnErr result (Stays book.old book.new × (sessions.new.account ≡ sessions.old.account)) }
    ensures full { (full : Full) → result ≡ Err (EventStop.JournalFull full) →
        kernel.IsTooMuch (journals.past_after (past_in book.old) more) full }
{
    let weight = entries_weight(more.as_slice());
    room_for(book, more.len(), weight)?;
    make_key_room(sessions, 0, more.len())?;
    queue_runs(sessions, more.as_slice());
    book.add(more);
    Ok(())
}
