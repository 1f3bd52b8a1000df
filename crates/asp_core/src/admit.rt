//! The call of the core that takes a job.
#![tactic(auto)]

ghost use Rattle.std.specs.Prelude.{◌≡◌, ◌↔◌, ◌≤◌, length, true, false, Err, OnOk, OnErr, IfOk};
ghost use Rattle.asp_job.specs.History as history;
ghost use Rattle.asp_job.specs.Journal as journals;
ghost use Rattle.asp_job.specs.Runs as runs;
ghost use Rattle.asp_job.specs.Running.{is_page};
ghost use Rattle.asp_job.specs.Size.{IsSmall};
ghost use Rattle.asp_job.specs.Turns as turns;
ghost use Rattle.asp_job.specs.declared.entry.TheConstants.{MOST_ENTRIES, MOST_WAITING};
ghost use Rattle.asp_journal.specs.declared.full.Full.{Full};
ghost use Rattle.asp_core.specs.Book.{Stays, past_by, past_in};
ghost use Rattle.asp_core.specs.Drawing as drawing;
ghost use Rattle.asp_core.specs.Kernel as kernel;
ghost use Rattle.asp_core.specs.Sessions.{IsAccountOf};
ghost use Rattle.asp_core.specs.Taking as taking;

use crate::admitted::Admitted;
use crate::book::Book;
use crate::events::with_job;
use crate::house::Lent;
use crate::kernel::Core;
use crate::stop::{AdmitStop, EventStop};
use asp_job::{Job, MOST_WAITING, Runner};
use asp_journal::Journal;
use asp_session::Sessions;

fn refused_before(journal: &Journal) -> Option<AdmitStop>
    ensures { result ≡ taking.refused_before (past_by journal.now) }
{
    if journal.is_stopping() {
        Some(AdmitStop::Stopping)
    } else if journal.waiting_pages() >= MOST_WAITING as u64 {
        Some(AdmitStop::WaitingFull)
    } else {
        None
    }
}

/// The book and the session keys after a job. A refusal leaves them.
pub(crate) fn take_job<R: Runner>(
    lent: &Lent<R, R::Site>,
    book: &mut Book,
    sessions: &mut Sessions,
    lane: u32,
    job: &Job,
) -> Result<Admitted, EventStop>
    requires account { IsAccountOf (kernel.rules_by (R.meaning lent.now.runner.now lent.now.site.now) lent.now.setting)
        (past_in book.old) sessions.old.account }
    requires few { history.entries_in (past_in book.old) ≤ MOST_ENTRIES }
    requires small { IsSmall job.now }
    ensures ok { OnOk result (taking.HasTaken
        (kernel.rules_by (R.meaning lent.now.runner.now lent.now.site.now) lent.now.setting)
        lane job.now book.old sessions.old.account book.new sessions.new.account) }
    ensures told { IfOk result (λ told. told ≡ drawing.told_of (drawing.entry_then
        (kernel.rules_by (R.meaning lent.now.runner.now lent.now.site.now) lent.now.setting)
        (past_in book.old) lane job.now).what) }
    ensures err { OnErr result (Stays book.old book.new × (sessions.new.account ≡ sessions.old.account)) }
    ensures full { (full : Full) → result ≡ Err (EventStop.JournalFull full) →
        kernel.IsTooMuch (journals.past_after (past_in book.old) (journals.admit_entries
        (kernel.rules_by (R.meaning lent.now.runner.now lent.now.site.now) lent.now.setting)
        (past_in book.old) lane job.now)) full }
{
    let drawn = with_job(lent, book, sessions, lane, job)?;
    book.put(drawn.told.run, drawn.answer);
    Ok(drawn.told)
}

impl<R: Runner> Core<R> {
    /// A job of a page comes. Where its moment is greater than the last one, time goes on first, and sessions end; an
    /// earlier one is taken as the last. It is refused where it needs a new key and none can be made: then its answer
    /// waits. Any other refusal changes nothing.
    pub fn admit(
        &mut self,
        lane: u32,
        runner: &R,
        site: &R::Site,
        job: &Job,
    ) -> Result<Admitted, AdmitStop>
        requires host { kernel.IsHostOf self.old runner.now site.now }
        requires page { is_page job.now.work ≡ true }
        requires small { IsSmall job.now }
        ensures ok { OnOk result (self.new ≡ kernel.grown self.old (journals.admit_entries
            (kernel.rules_of R.meaning self.old) (kernel.past_of self.old) lane job.now)) }
        ensures told { IfOk result (λ told. told ≡ drawing.told_of (drawing.entry_then
            (kernel.rules_of R.meaning self.old) (kernel.past_of self.old) lane job.now).what) }
        ensures stopping { result ≡ Err AdmitStop.Stopping ↔ (runs.is_stopping (kernel.past_of self.old) ≡ true) }
        ensures waiting { result ≡ Err AdmitStop.WaitingFull ↔ ((runs.is_stopping (kernel.past_of self.old) ≡ false)
            × (MOST_WAITING ≤ length (turns.waiting_pages (kernel.past_of self.old)))) }
        ensures full { (full : Full) → result ≡ Err (AdmitStop.JournalFull full) →
            kernel.IsTooMuch (journals.past_after (kernel.past_of self.old) (journals.admit_entries
            (kernel.rules_of R.meaning self.old) (kernel.past_of self.old) lane job.now)) full }
        ensures err { OnErr result (self.new ≡ self.old) }
    {
        if let Some(stop) = refused_before(self.kept.book.journal()) {
            return Err(stop);
        }
        let lent = Lent {
            runner,
            site,
            setting: self.house.setting,
        };
        let made = take_job(
            &lent,
            &mut self.kept.book,
            &mut self.kept.sessions,
            lane,
            job,
        );
        match made {
            Ok(told) => Ok(told),
            Err(stop) => Err(AdmitStop::from(stop)),
        }
    }
}
