//! The call of the core that begins a run.
#![tactic(auto)]

ghost use Rattle.std.specs.Prelude.{◌≡◌, ◌≤◌, ◌<◌, ◌+◌, ◌*◌, ◌^◌, ◌++◌, ◌∷◌, ◌↔◌, [], ℕ, length, true, false};
ghost use Rattle.std.specs.Prelude.{OnOk, OnErr, IfOk, IfErr, IfNone, IfSome, OnSome, Err};
ghost use Rattle.asp_job.specs.History as history;
ghost use Rattle.asp_job.specs.Journal as journals;
ghost use Rattle.asp_job.specs.Runs as runs;
ghost use Rattle.asp_job.specs.Turns as turns;
ghost use Rattle.asp_job.specs.declared.entry.TheConstants.{MOST_ENTRIES, MOST_UNFINISHED};
ghost use Rattle.asp_journal.specs.Tables.{IsFit};
ghost use Rattle.asp_journal.specs.declared.full.Full.{Full};
ghost use Rattle.asp_core.specs.Book.{Adds, HasRoomFor, IsRoomy, Stays, past_by, past_in};
ghost use Rattle.asp_core.specs.Calm.{HasLoad};
ghost use Rattle.asp_core.specs.Kernel as kernel;
ghost use Rattle.asp_core.specs.Opening as spec;
ghost use Rattle.asp_core.specs.Ready as waits;
ghost use Rattle.asp_core.specs.Sessions.{account_begun, sessions_in};
ghost use Rattle.asp_core.specs.declared.ready.TheConstants.{MOST_BODY_BYTES};

use crate::account::start_key;
use crate::book::Book;
use crate::house::Lent;
use crate::kernel::Core;
use crate::keys::least_run;
use crate::opening::{Opening, SessionNumber, open_run, session_number};
use crate::ready::has_body_room;
use crate::room::room_for;
use crate::run::{Progress, Run};
use crate::stop::BeginStop;
use asp_job::{Entry, Runner, What};
use asp_journal::Journal;
use asp_session::Sessions;

/// The run that is next, where there is room for the body of one more.
#[tactic(auto, using(crate::proofs::Beginning::not_idle))]
fn next_to_begin(book: &Book) -> Option<u64>
    requires { (run : ℕ) → turns.may_begin (past_in book.now) run ≡ true →
        (0 < run) × (run ≤ runs.drawn (past_in book.now)) }
    ensures none { IfNone result (spec.IsIdleWith book.now.answers (past_in book.now)) }
    ensures next { IfSome result (λ run. spec.IsNext (past_in book.now) run) }
    ensures within { IfSome result (λ run. run ≤ runs.drawn (past_in book.now)) }
    ensures light { OnSome result (waits.bodies_with_one book.now.answers (past_in book.now) ≤ MOST_BODY_BYTES) }
{
    if has_body_room(book) {
        least_run(book.journal())
    } else {
        None
    }
}

/// The run that is next and the number of its session, with room for its Begin. Entries and answers stay.
fn next_with_room(book: &mut Book, sessions: &Sessions) -> Result<(u32, SessionNumber), BeginStop>
    requires numbered { (run : ℕ) → turns.may_begin (past_in book.old) run ≡ true →
        (0 < run) × (run ≤ runs.drawn (past_in book.old)) }
    requires few { history.entries_in (past_in book.old) ≤ MOST_ENTRIES }
    requires count { sessions.now.account.opened + 1 < 2 ^ 31 }
    ensures ok { IfOk result (λ next. spec.IsNextWith (past_in book.old) sessions.now.account
        book.old.answers next.0 next.1) }
    ensures stays { Stays book.old book.new }
    ensures room { OnOk result (IsRoomy book.new 2) }
    ensures idle { IfErr result (λ stop. stop ≡ BeginStop.Idle ↔
        spec.IsIdleWith book.old.answers (past_in book.old)) }
    ensures full { (full : Full) → result ≡ Err (BeginStop.JournalFull full) →
        spec.IsNextOver (past_in book.old) full }
    ensures fits { result ≡ Err BeginStop.Memory → HasLoad (past_in book.old) 2 128 }
{
    let Some(next) = next_to_begin(book) else {
        return Err(BeginStop::Idle);
    };
    let number = session_number(book.journal(), sessions, next);
    room_for(book, 2, 128)?;
    Ok((next as u32, number))
}

/// Adds the Begin of a run, whose key's run does not wait any more.
fn add_begin(book: &mut Book, sessions: &mut Sessions, lane: u32, run: u32, number: SessionNumber)
    requires fit { IsFit (past_in book.old) (What.Begin run number.serial) }
    requires room { HasRoomFor book.old (history.with_lane lane (What.Begin run number.serial)) }
    requires count { sessions.old.account.opened + 1 < 2 ^ 31 }
    ensures adds { Adds book.old (history.with_lane lane (What.Begin run number.serial) ∷ []) book.new }
    ensures account { sessions.new.account ≡ account_begun (past_in book.old) run sessions.old.account }
{
    start_key(sessions, book.journal().key_of(run as u64));
    book.push(Entry {
        lane,
        what: What::Begin {
            run,
            serial: number.serial,
        },
    });
}

/// The run, with the runner's state of it. Without memory the store comes back.
fn start_run<R: Runner>(
    lent: &Lent<R, R::Site>,
    journal: &Journal,
    sessions: &Sessions,
    next: (u32, SessionNumber),
    store: R::Store,
) -> Result<Run<R>, R::Store>
    requires { spec.CanOpen (runs.draw_of (past_by journal.now) next.0)
        (sessions_in sessions.now.account (runs.key_of (past_by journal.now) next.0)) next.1 }
    ensures { IfOk result (spec.HasOpened (R.stands lent.now.runner.now lent.now.site.now) lent.now.setting.seed
        (runs.draw_of (past_by journal.now) next.0)
        (sessions_in sessions.now.account (runs.key_of (past_by journal.now) next.0)) next.1 next.0) }
{
    let (run, number) = next;
    let Ok(opening) = open_run(&lent.setting.seed, journal, sessions, number, run as u64) else {
        return Err(store);
    };
    let Opening {
        job,
        session,
        cookie,
        stand_ins,
    } = opening;
    match lent
        .runner
        .start(lent.site, &job, session, number.is_new, cookie, store)
    {
        Ok(state) => Ok(Run {
            number: run,
            progress: Progress::Going,
            state,
            stand_ins,
            turns: 0,
        }),
        Err((store, _)) => Err(store),
    }
}

/// A run that is next, the book with its Begin and the session keys. A refusal leaves both.
fn begin_run<R: Runner>(
    lent: &Lent<R, R::Site>,
    book: &mut Book,
    sessions: &mut Sessions,
    lane: u32,
    store: R::Store,
) -> Result<Run<R>, (R::Store, BeginStop)>
    requires { spec.CanBegin (kernel.rules_by (R.meaning lent.now.runner.now lent.now.site.now) lent.now.setting)
        (past_in book.old) sessions.old.account book.old.answers }
    ensures ok { IfOk result (spec.HasBegun
        (kernel.rules_by (R.meaning lent.now.runner.now lent.now.site.now) lent.now.setting)
        (R.stands lent.now.runner.now lent.now.site.now) lane book.old sessions.old.account book.new sessions.new.account) }
    ensures err { OnErr result (Stays book.old book.new × (sessions.new.account ≡ sessions.old.account)) }
    ensures idle { IfErr result (λ stop. stop.1 ≡ BeginStop.Idle ↔
        spec.IsIdleWith book.old.answers (past_in book.old)) }
    ensures full { (full : Full) → IfErr result (λ stop. stop.1 ≡ BeginStop.JournalFull full →
        kernel.IsBeginTooMuch (kernel.rules_by (R.meaning lent.now.runner.now lent.now.site.now) lent.now.setting)
        (past_in book.old) lane full) }
    ensures fits { IfErr result (λ stop. stop.1 ≡ BeginStop.Memory →
        kernel.NextFits (kernel.rules_by (R.meaning lent.now.runner.now lent.now.site.now) lent.now.setting)
        (past_in book.old) lane) }
{
    let next = match next_with_room(book, sessions) {
        Ok(next) => next,
        Err(stop) => return Err((store, stop)),
    };
    match start_run(lent, book.journal(), sessions, next, store) {
        Ok(begun) => {
            add_begin(book, sessions, lane, next.0, next.1);
            Ok(begun)
        }
        Err(store) => Err((store, BeginStop::Memory)),
    }
}

impl<R: Runner> Core<R> {
    /// Begins the run of the least number that may begin, and moves it out. It looks for room in the journal before
    /// memory. Any refusal changes nothing and gives the store back.
    pub fn begin(
        &mut self,
        lane: u32,
        runner: &R,
        site: &R::Site,
        store: R::Store,
    ) -> Result<Run<R>, (R::Store, BeginStop)>
        requires host { kernel.IsHostOf self.old runner.now site.now }
        ensures next { IfOk result (λ run. turns.IsBegin (kernel.rules_of R.meaning self.old) (kernel.past_of self.old)
            run.number (turns.serial_of (kernel.rules_of R.meaning self.old) (kernel.past_of self.old) run.number)) }
        ensures light { OnOk result (waits.HasBodyRoom (kernel.rules_of R.meaning self.old) (kernel.past_of self.old)) }
        ensures begun { IfOk result (λ run. self.new ≡ kernel.grown self.old (journals.begin_entry
            (kernel.rules_of R.meaning self.old) (kernel.past_of self.old) lane run.number ∷ [])) }
        ensures run { IfOk result (λ run. kernel.IsRunOf R.meaning R.stands self.new lane run) }
        ensures going { IfOk result (λ run. run.progress ≡ Progress.Going) }
        ensures turns { IfOk result (λ run. run.turns ≡ 0) }

        // Idle exactly where none is next or there is no room for one more body.
        ensures idle { IfErr result (λ stop. stop.1 ≡ BeginStop.Idle ↔
            kernel.IsIdle (kernel.rules_of R.meaning self.old) (kernel.past_of self.old)) }

        // JournalFull where the Begin of the next run does not fit, and Memory only where it does.
        ensures full { (full : Full) → IfErr result (λ stop. stop.1 ≡ BeginStop.JournalFull full →
            kernel.IsBeginTooMuch (kernel.rules_of R.meaning self.old) (kernel.past_of self.old) lane full) }
        ensures fits { IfErr result (λ stop. stop.1 ≡ BeginStop.Memory →
            kernel.NextFits (kernel.rules_of R.meaning self.old) (kernel.past_of self.old) lane) }
        ensures err { OnErr result (self.new ≡ self.old) }
    {
        let lent = Lent {
            runner,
            site,
            setting: self.house.setting,
        };
        begin_run(
            &lent,
            &mut self.kept.book,
            &mut self.kept.sessions,
            lane,
            store,
        )
    }
}
