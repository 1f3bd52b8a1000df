//! The book after an event.
#![tactic(auto)]

ghost use Rattle.std.specs.Prelude.{◌≡◌, ◌+◌, ◌-◌, ◌<◌, ◌≤◌, ◌++◌, length};
ghost use Rattle.std.specs.Prelude.{OnOk, OnErr, IfOk, Err};
ghost use Rattle.asp_job.specs.History as history;
ghost use Rattle.asp_job.specs.Journal as journals;
ghost use Rattle.asp_job.specs.declared.entry.TheConstants.{MOST_ENTRIES};
ghost use Rattle.asp_job.specs.Size.{IsSmall};
ghost use Rattle.asp_journal.specs.declared.full.Full.{Full};
ghost use Rattle.asp_core.specs.Book.{Grows, Stays, past_by, past_in};
ghost use Rattle.asp_core.specs.Drawing as drawing;
ghost use Rattle.asp_core.specs.Kernel as kernel;
ghost use Rattle.asp_core.specs.Sessions.{IsAccountOf, Tells, account_grown, sessions_in};

use crate::admitted::Drawn;
use crate::book::Book;
use crate::drawing::{Coming, add_job, prepared};
use crate::entries::{stop_entries, tick_entries};
use crate::house::{House, Lent};
use crate::room::add_calm;
use crate::stop::EventStop;
use asp_job::{Entry, Job, Runner};
use asp_journal::Journal;
use asp_session::Sessions;
use std::alloc::Global;
use vb_value::{List, Memory};

/// The entries of a Tick, and how many keys' sessions are over by it.
#[tactic(auto, using(crate::proofs::Ticking::expired_is, crate::proofs::Ticking::tick_length))]
fn ticked(
    alloc: Global,
    journal: &Journal,
    sessions: &Sessions,
    lane: u32,
    moment: u64,
) -> Result<(List<Entry>, u32), Memory>
    requires few { history.entries_in (past_by journal.now) ≤ MOST_ENTRIES }
    requires tells { Tells sessions.now.account (past_by journal.now) }
    ensures entries { IfOk result (λ made. made.0
        ≡ kernel.ticked (sessions_in sessions.now.account) (past_by journal.now) lane moment) }
    ensures count { IfOk result (λ made. made.1
        ≡ kernel.expired_by (sessions_in sessions.now.account) (past_by journal.now) moment) }
{
    let entries = tick_entries(alloc, journal, sessions, lane, moment)?;
    let expired = entries.len().saturating_sub(1) as u32;
    Ok((entries, expired))
}

/// The book and the session keys after a Tick, and how many keys' sessions are over by it. A refusal leaves them.
#[tactic(auto, using(crate::proofs::Expiring::of_ticks))]
pub fn with_tick<R: Runner>(
    house: &House<R>,
    book: &mut Book,
    sessions: &mut Sessions,
    lane: u32,
    moment: u64,
) -> Result<u32, EventStop>
    requires account { IsAccountOf
        (kernel.rules_by (R.meaning house.now.runner.value house.now.site.value) house.now.setting)
        (past_in book.old) sessions.old.account }
    requires small { history.entries_in (past_in book.old) ≤ MOST_ENTRIES }
    ensures grows { OnOk result (Grows book.old (journals.tick_entries
        (kernel.rules_by (R.meaning house.now.runner.value house.now.site.value) house.now.setting)
        (past_in book.old) lane moment) book.new) }
    ensures count { IfOk result (λ count. count ≡ kernel.expired
        (kernel.rules_by (R.meaning house.now.runner.value house.now.site.value) house.now.setting)
        (past_in book.old) moment) }
    ensures account { OnOk result (sessions.new.account ≡ account_grown
        (kernel.rules_by (R.meaning house.now.runner.value house.now.site.value) house.now.setting) (past_in book.old)
        (journals.tick_entries (kernel.rules_by (R.meaning house.now.runner.value house.now.site.value)
        house.now.setting) (past_in book.old) lane moment) sessions.old.account) }
    ensures err { OnErr result (Stays book.old book.new × (sessions.new.account ≡ sessions.old.account)) }
    ensures full { (full : Full) → result ≡ Err (EventStop.JournalFull full) →
        kernel.IsTooMuch (journals.past_after (past_in book.old) (journals.tick_entries
        (kernel.rules_by (R.meaning house.now.runner.value house.now.site.value) house.now.setting)
        (past_in book.old) lane moment)) full }
{
    let alloc = book.journal().alloc();
    let (more, expired) = match ticked(alloc, book.journal(), sessions, lane, moment) {
        Ok(made) => made,
        Err(_) => return Err(EventStop::Memory),
    };
    add_calm(book, sessions, more)?;
    Ok(expired)
}

/// The book and the session keys after a Stop. A refusal leaves them.
#[tactic(auto, using(crate::proofs::Expiring::of_stops))]
pub fn with_stop<R: Runner>(
    house: &House<R>,
    book: &mut Book,
    sessions: &mut Sessions,
    lane: u32,
) -> Result<(), EventStop>
    requires account { IsAccountOf
        (kernel.rules_by (R.meaning house.now.runner.value house.now.site.value) house.now.setting)
        (past_in book.old) sessions.old.account }
    requires small { history.entries_in (past_in book.old) ≤ MOST_ENTRIES }
    ensures grows { OnOk result (Grows book.old (journals.stop_entries
        (kernel.rules_by (R.meaning house.now.runner.value house.now.site.value) house.now.setting)
        (past_in book.old) lane) book.new) }
    ensures account { OnOk result (sessions.new.account ≡ account_grown
        (kernel.rules_by (R.meaning house.now.runner.value house.now.site.value) house.now.setting) (past_in book.old)
        (journals.stop_entries (kernel.rules_by (R.meaning house.now.runner.value house.now.site.value)
        house.now.setting) (past_in book.old) lane) sessions.old.account) }
    ensures err { OnErr result (Stays book.old book.new × (sessions.new.account ≡ sessions.old.account)) }
    ensures full { (full : Full) → result ≡ Err (EventStop.JournalFull full) →
        kernel.IsTooMuch (journals.past_after (past_in book.old) (journals.stop_entries
        (kernel.rules_by (R.meaning house.now.runner.value house.now.site.value) house.now.setting)
        (past_in book.old) lane)) full }
{
    let alloc = book.journal().alloc();
    match stop_entries(alloc, book.journal(), sessions, lane) {
        Ok(more) => add_calm(book, sessions, more),
        Err(_) => Err(EventStop::Memory),
    }
}

/// The book and the session keys after a job. A refusal leaves them.
#[tactic(auto)]
pub(crate) fn with_job<R: Runner>(
    lent: &Lent<R, R::Site>,
    book: &mut Book,
    sessions: &mut Sessions,
    lane: u32,
    job: &Job,
) -> Result<Drawn, EventStop>
    requires account { IsAccountOf (kernel.rules_by (R.meaning lent.now.runner.now lent.now.site.now) lent.now.setting)
        (past_in book.old) sessions.old.account }
    requires few { history.entries_in (past_in book.old) ≤ MOST_ENTRIES }
    requires small { IsSmall job.now }
    ensures grows { OnOk result (Grows book.old (journals.admit_entries
        (kernel.rules_by (R.meaning lent.now.runner.now lent.now.site.now) lent.now.setting)
        (past_in book.old) lane job.now) book.new) }
    ensures drawn { IfOk result (drawing.IsDrawn (drawing.entry_then
        (kernel.rules_by (R.meaning lent.now.runner.now lent.now.site.now) lent.now.setting)
        (past_in book.old) lane job.now).what) }
    ensures account { OnOk result (sessions.new.account ≡ account_grown
        (kernel.rules_by (R.meaning lent.now.runner.now lent.now.site.now) lent.now.setting) (past_in book.old)
        (journals.admit_entries (kernel.rules_by (R.meaning lent.now.runner.now lent.now.site.now) lent.now.setting)
        (past_in book.old) lane job.now) sessions.old.account) }
    ensures place { OnOk result ((0 < book.new.room) × (0 < book.new.places)) }
    ensures err { OnErr result (Stays book.old book.new × (sessions.new.account ≡ sessions.old.account)) }
    ensures full { (full : Full) → result ≡ Err (EventStop.JournalFull full) →
        kernel.IsTooMuch (journals.past_after (past_in book.old) (journals.admit_entries
        (kernel.rules_by (R.meaning lent.now.runner.now lent.now.site.now) lent.now.setting)
        (past_in book.old) lane job.now)) full }
{
    let alloc = book.journal().alloc();
    let more = match tick_entries(alloc, book.journal(), sessions, lane, job.moment) {
        Ok(more) => more,
        Err(_) => return Err(EventStop::Memory),
    };
    match prepared(alloc, job) {
        Ok((job, answer)) => {
            let coming = Coming { more, job, answer };
            add_job(lent, book, sessions, lane, coming)
        }
        Err(_) => Err(EventStop::Memory),
    }
}
