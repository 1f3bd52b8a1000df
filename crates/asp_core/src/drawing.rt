//! The entries that a job adds to a journal.
#![tactic(auto)]

ghost use Rattle.std.specs.Prelude.{◌≡◌, ◌+◌, ◌-◌, ◌<◌, ◌≤◌, ◌^◌, ◌++◌, ◌∷◌, [], min, length, sum_by, true};
ghost use Rattle.std.specs.Prelude.{OnOk, OnErr, IfOk, Err};
ghost use Rattle.asp_job.specs.History as history;
ghost use Rattle.asp_job.specs.Journal as journals;
ghost use Rattle.asp_job.specs.Keys as keys;
ghost use Rattle.asp_job.specs.Size.{IsSmall};
ghost use Rattle.asp_job.specs.declared.entry.TheConstants.{MOST_ENTRIES};
ghost use Rattle.asp_journal.specs.declared.full.Full.{Full};
ghost use Rattle.asp_core.specs.Book.{Adds, Grows, Stays, past_by, past_in};
ghost use Rattle.asp_core.specs.Calm as calm;
ghost use Rattle.asp_core.specs.Drawing as drawing;
ghost use Rattle.asp_core.specs.Kernel as kernel;
ghost use Rattle.asp_core.specs.Sessions.{IsAccountOf, Tells, account_admitted, account_grown, sessions_in};
ghost use Rattle.asp_core.specs.Standing as standing;
ghost use Rattle.asp_session.specs.Steps.{most_live};

use crate::account::{ask, queue_runs};
use crate::admitted::{Drawn, stand_in, told_of};
use crate::book::Book;
use crate::cookie::asked_key;
use crate::house::Lent;
use crate::room::{entries_weight, make_key_room, room_for};
use crate::stop::EventStop;
use asp_job::{Answer, Entry, Job, Runner, What};
use asp_journal::{Journal, work_weight};
use asp_response::Unavailable;
use asp_session::Sessions;
use std::alloc::Global;
use vb_value::{Copied, List, Memory};

/// A job that comes: the entries of its Tick, the job, and the answer that it has where it is refused.
#[derive(Drop)]
pub struct Coming {
    pub more: List<Entry>,
    pub job: Job,
    pub answer: Option<Answer>,
}

/// How a job is admitted, or that it is refused.
#[tactic(auto, using(crate::proofs::Accounts::askable_is, crate::proofs::Accounts::most_are))]
fn admission(journal: &Journal, sessions: &Sessions, keyed: bool, asked: u32, job: Job) -> What
    requires few { history.entries_in (past_by journal.now) ≤ MOST_ENTRIES + MOST_ENTRIES + 1 }
    requires tells { Tells sessions.now.account (past_by journal.now) }
    ensures what { result ≡ journals.admission keyed asked
        (sessions_in sessions.now.account) (past_by journal.now) job }
    ensures free { keys.makes_key result ≡ true → length sessions.now.account.keys < most_live }
{
    let run = journal.drawn() as u32 + 1;
    let needs = keyed && !sessions.askable(asked);
    if needs && sessions.is_full() {
        return What::Refuse { run, job };
    }
    let key = if needs {
        journal.made() as u32 + 1
    } else if keyed {
        asked
    } else {
        0
    };
    What::Admit {
        run,
        key,
        fresh: needs,
        job,
    }
}

/// What is kept of a job that came, with the answer that it has where it is refused.
fn drawn_of(what: &What, answer: Option<Answer>) -> Drawn
    ensures told { result.told ≡ drawing.told_of what.now }
    ensures answer { result.answer ≡ drawing.answer_if what.now answer }
{
    Drawn {
        told: told_of(what),
        answer: match what {
            What::Refuse { .. } => answer,
            _ => None,
        },
    }
}

/// The job as it is admitted: its moment is the journal's.
fn job_now(journal: &Journal, job: Job) -> Job
    ensures { result ≡ journals.job_now (past_by journal.now) job }
{
    let Job {
        work,
        moment: _,
        asked,
    } = job;
    Job {
        work,
        moment: journal.moment(),
        asked,
    }
}

fn admission_of<R: Runner>(
    lent: &Lent<R, R::Site>,
    journal: &Journal,
    sessions: &Sessions,
    job: Job,
) -> What
    requires small { IsSmall job }
    requires few { history.entries_in (past_by journal.now) ≤ MOST_ENTRIES + MOST_ENTRIES + 1 }
    requires tells { Tells sessions.now.account (past_by journal.now) }
    ensures what { result ≡ (drawing.drawn_by
        (kernel.rules_by (R.meaning lent.now.runner.now lent.now.site.now) lent.now.setting)
        (sessions_in sessions.now.account) (past_by journal.now) 0 job).what }
    ensures free { keys.makes_key result ≡ true → length sessions.now.account.keys < most_live }
{
    let now = job_now(journal, job);
    let keyed = lent.runner.keyed(lent.site, &now);
    let asked = asked_key(&lent.setting.seed, &now);
    admission(journal, sessions, keyed, asked, now)
}

/// What the entry of a job takes of memory: a copy of the job, and the answer that it has where it is refused.
pub fn prepared(alloc: Global, job: &Job) -> Result<(Job, Option<Answer>), Memory>
    ensures job { IfOk result (λ made. made.0 ≡ job.now) }
    ensures answer { IfOk result (λ made. made.1 ≡ standing.stand_in Unavailable.TooManySessions job.now.work) }
{
    let answer = stand_in(alloc, Unavailable::TooManySessions, &job.work)?;
    let copy = job.copy()?;
    Ok((copy, answer))
}

/// Adds the entry of a job that came with the answer that it has where it is refused, and its key and its run are asked
/// for. It takes no memory.
fn add_admission<R: Runner>(
    lent: &Lent<R, R::Site>,
    book: &mut Book,
    sessions: &mut Sessions,
    lane: u32,
    came: (Job, Option<Answer>),
) -> Drawn
    requires tells { Tells sessions.old.account (past_in book.old) }
    requires small { IsSmall came.0 }
    requires few { history.entries_in (past_in book.old) ≤ MOST_ENTRIES + MOST_ENTRIES + 1 }
    requires answer { came.1 ≡ standing.stand_in Unavailable.TooManySessions came.0.work }
    requires room { 0 < book.old.room }
    requires key_room { (0 < sessions.old.key_room) × (0 < sessions.old.run_room) }
    ensures adds { Adds book.old (drawing.drawn_by
        (kernel.rules_by (R.meaning lent.now.runner.now lent.now.site.now) lent.now.setting)
        (sessions_in sessions.old.account) (past_in book.old) lane came.0 ∷ []) book.new }
    ensures drawn { drawing.IsDrawn
        (drawing.drawn_by (kernel.rules_by (R.meaning lent.now.runner.now lent.now.site.now) lent.now.setting)
        (sessions_in sessions.old.account) (past_in book.old) lane came.0).what result }
    ensures account { sessions.new.account ≡ account_admitted
        (drawing.drawn_by (kernel.rules_by (R.meaning lent.now.runner.now lent.now.site.now) lent.now.setting)
        (sessions_in sessions.old.account) (past_in book.old) lane came.0).what sessions.old.account }
    ensures room { (book.new.room + 1 ≡ book.old.room) × (book.new.places ≡ book.old.places) }
{
    let (job, answer) = came;
    let what = admission_of(lent, book.journal(), sessions, job);
    let drawn = drawn_of(&what, answer);
    ask(sessions, &what);
    book.push(Entry { lane, what });
    drawn
}

/// What a job's entries weigh: those of its Tick, and its own.
fn job_weight(more: &[Entry], job: &Job) -> u64
    ensures { result ≡ min (sum_by calm.entry_weight more.now + (64 + history.work_weight job.now.work)) (2 ^ 64 - 1) }
{
    entries_weight(more)
        .saturating_add(work_weight(&job.work))
        .saturating_add(64)
}

/// Adds the entries of a job's Tick and the job's own, with what they make of the session keys. It takes no memory.
fn add_ticked<R: Runner>(
    lent: &Lent<R, R::Site>,
    book: &mut Book,
    sessions: &mut Sessions,
    lane: u32,
    coming: Coming,
) -> Drawn
    requires few { history.entries_in (past_in book.old) ≤ MOST_ENTRIES }
    requires small { IsSmall coming.job }
    requires account { IsAccountOf (kernel.rules_by (R.meaning lent.now.runner.now lent.now.site.now) lent.now.setting)
        (past_in book.old) sessions.old.account }
    requires tick { coming.more ≡ drawing.tick_before (sessions_in sessions.old.account) (past_in book.old)
        lane coming.job }
    requires answer { coming.answer ≡ standing.stand_in Unavailable.TooManySessions coming.job.work }
    requires room { length coming.more < book.old.room }
    requires key_room { (0 < sessions.old.key_room) × (length coming.more < sessions.old.run_room) }
    ensures adds { Adds book.old (drawing.entries_by
        (kernel.rules_by (R.meaning lent.now.runner.now lent.now.site.now) lent.now.setting)
        (sessions_in sessions.old.account)
        (past_in book.old) lane coming.job) book.new }
    ensures drawn { drawing.IsDrawn (drawing.drawn_then
        (kernel.rules_by (R.meaning lent.now.runner.now lent.now.site.now) lent.now.setting)
        (sessions_in sessions.old.account)
        (past_in book.old) lane coming.job).what result }
    ensures account { sessions.new.account ≡ account_grown
        (kernel.rules_by (R.meaning lent.now.runner.now lent.now.site.now) lent.now.setting) (past_in book.old)
        (drawing.entries_by (kernel.rules_by (R.meaning lent.now.runner.now lent.now.site.now) lent.now.setting)
        (sessions_in sessions.old.account) (past_in book.old) lane coming.job) sessions.old.account }
    ensures room { (book.new.room + length coming.more + 1 ≡ book.old.room) × (book.new.places ≡ book.old.places) }
{
    let Coming { more, job, answer } = coming;
    queue_runs(sessions, more.as_slice());
    book.add(more);
    add_admission(lent, book, sessions, lane, (job, answer))
}

/// Adds the entries of a job's Tick and the job's own, if they fit, with what they make of the session keys. A refusal
/// leaves the book and the session keys.
pub(crate) fn add_job<R: Runner>(
    lent: &Lent<R, R::Site>,
    book: &mut Book,
    sessions: &mut Sessions,
    lane: u32,
    coming: Coming,
) -> Result<Drawn, EventStop>
    requires few { history.entries_in (past_in book.old) ≤ MOST_ENTRIES }
    requires small { IsSmall coming.job }
    requires account { IsAccountOf (kernel.rules_by (R.meaning lent.now.runner.now lent.now.site.now) lent.now.setting)
        (past_in book.old) sessions.old.account }
    requires tick { coming.more ≡ drawing.tick_before (sessions_in sessions.old.account) (past_in book.old)
        lane coming.job }
    requires answer { coming.answer ≡ standing.stand_in Unavailable.TooManySessions coming.job.work }
    ensures grows { OnOk result (Grows book.old (drawing.entries_by
        (kernel.rules_by (R.meaning lent.now.runner.now lent.now.site.now) lent.now.setting)
        (sessions_in sessions.old.account)
        (past_in book.old) lane coming.job) book.new) }
    ensures drawn { IfOk result (drawing.IsDrawn (drawing.drawn_then
        (kernel.rules_by (R.meaning lent.now.runner.now lent.now.site.now) lent.now.setting)
        (sessions_in sessions.old.account)
        (past_in book.old) lane coming.job).what) }
    ensures account { OnOk result (sessions.new.account ≡ account_grown
        (kernel.rules_by (R.meaning lent.now.runner.now lent.now.site.now) lent.now.setting) (past_in book.old)
        (drawing.entries_by (kernel.rules_by (R.meaning lent.now.runner.now lent.now.site.now) lent.now.setting)
        (sessions_in sessions.old.account) (past_in book.old) lane coming.job) sessions.old.account) }
    ensures place { OnOk result ((0 < book.new.room) × (0 < book.new.places)) }
    ensures err { OnErr result (Stays book.old book.new × (sessions.new.account ≡ sessions.old.account)) }
    ensures full { (full : Full) → result ≡ Err (EventStop.JournalFull full) →
        kernel.IsTooMuch (journals.past_after (past_in book.old) (drawing.entries_by
        (kernel.rules_by (R.meaning lent.now.runner.now lent.now.site.now) lent.now.setting)
        (sessions_in sessions.old.account)
        (past_in book.old) lane coming.job)) full }
{
    let count = coming.more.len() + 1;
    let weight = job_weight(coming.more.as_slice(), &coming.job);
    room_for(book, count, weight)?;
    make_key_room(sessions, 1, count)?;
    Ok(add_ticked(lent, book, sessions, lane, coming))
}
