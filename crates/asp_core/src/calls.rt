//! The call of the core that makes a run's call of the Application object.
#![tactic(auto)]

ghost use Rattle.std.specs.Prelude.{◌≡◌, ◌↔◌, ◌+◌, ◌*◌, ◌-◌, ◌^◌, ◌<◌, ◌≤◌, ◌∷◌, ◌++◌, ℕ, min, reverse, length};
ghost use Rattle.std.specs.Prelude.{false, true};
ghost use Rattle.std.specs.Prelude.{Some, None, Err, IsSome, IfOk, OnOk, OnErr};
ghost use Rattle.asp_job.specs.Application as object;
ghost use Rattle.asp_job.specs.Calls.{IsAppCall, IsReply};
ghost use Rattle.asp_job.specs.History as history;
ghost use Rattle.asp_job.specs.Journal as journals;
ghost use Rattle.asp_core.specs.Book.{Stays, past_in};
ghost use Rattle.asp_core.specs.Calling as spec;
ghost use Rattle.asp_core.specs.Kernel as kernel;
ghost use Rattle.asp_core.specs.Stops as stops;

use crate::book::Book;
use crate::kernel::Core;
use crate::run::{Progress, Run};
use crate::stop::{AppStepStop, EventStop};
use asp_app::Application;
use asp_job::{Entry, MOST_ENTRIES, MOST_WEIGHT, Runner, What, copy_reply};
use asp_journal::{Full, call_weight, reply_weight};
use vb_value::{AppCall, AppReply};

/// Makes room for the entry of a call and for all that is to come for sure, if the entry fits.
fn room_for_call(
    book: &mut Book,
    lane: u32,
    run: u32,
    call: &AppCall,
    reply: &AppReply,
) -> Result<(), EventStop>
    ensures stays { Stays book.old book.new }
    ensures ok { OnOk result (kernel.IsWithin
        (history.with_lane lane (What.App run call.now reply.now) ∷ past_in book.old) × (0 < book.new.room)) }
    ensures full { (full : Full) → result ≡ Err (EventStop.JournalFull full) → kernel.IsTooMuch
        (history.with_lane lane (What.App run call.now reply.now) ∷ past_in book.old) full }
{
    let journal = book.journal();
    let full = Full {
        entries: journal.entries_in() + journal.unfinished() + 1,
        weight: journal
            .weight_load()
            .saturating_add(call_weight(call))
            .saturating_add(reply_weight(reply))
            .saturating_add(64),
    };
    if full.entries > MOST_ENTRIES || full.weight > MOST_WEIGHT {
        return Err(EventStop::JournalFull(full));
    }
    if book.make_room(0).is_err() {
        return Err(EventStop::Memory);
    }
    Ok(())
}

fn is_read(call: &AppCall) -> bool
    ensures { result ≡ spec.is_read call.now }
{
    matches!(
        call,
        AppCall::Get(_) | AppCall::Count | AppCall::KeyAt(_) | AppCall::Names
    )
}

fn short_copy(reply: &AppReply) -> AppReply
    requires { spec.IsShort reply.now }
    ensures { result ≡ reply.now }
{
    match reply {
        AppReply::Done => AppReply::Done,
        AppReply::Full => AppReply::Full,
        _ => unreachable!(),
    }
}

/// The reply to a call that reads, twice.
#[tactic(auto, using(crate::proofs::Calling::read_same))]
fn read_reply(
    book: &mut Book,
    application: &mut Application,
    lane: u32,
    run: u32,
    call: &AppCall,
) -> Result<(AppReply, AppReply), EventStop>
    requires call { IsAppCall call.now }
    requires read { spec.is_read call.now ≡ true }
    requires free { object.blocker_of application.old.strict application.old.state run call.now ≡ None }
    ensures ok { IfOk result (spec.IsReplied book.new lane run call.now application.old application.new) }
    ensures stays { Stays book.old book.new }
    ensures err { OnErr result (application.new ≡ application.old) }
    ensures full { (full : Full) → result ≡ Err (EventStop.JournalFull full) → kernel.IsTooMuch
        (history.with_lane lane (What.App run call.now (object.apply application.old.state run call.now).1)
        ∷ past_in book.old) full }
{
    let reply = match application.call(run, call) {
        Ok(reply) => reply,
        Err(_) => return Err(EventStop::Memory),
    };
    room_for_call(book, lane, run, call, &reply)?;
    match copy_reply(book.journal().alloc(), &reply) {
        Ok(copy) => Ok((reply, copy)),
        Err(_) => Err(EventStop::Memory),
    }
}

/// The reply to a call that writes, twice.
#[tactic(auto, using(crate::proofs::Calling::of_writes))]
fn write_reply(
    book: &mut Book,
    application: &mut Application,
    lane: u32,
    run: u32,
    call: &AppCall,
) -> Result<(AppReply, AppReply), EventStop>
    requires call { IsAppCall call.now }
    requires write { spec.is_read call.now ≡ false }
    requires free { object.blocker_of application.old.strict application.old.state run call.now ≡ None }
    ensures ok { IfOk result (spec.IsReplied book.new lane run call.now application.old application.new) }
    ensures stays { Stays book.old book.new }
    ensures err { OnErr result (application.new ≡ application.old) }
    ensures full { (full : Full) → result ≡ Err (EventStop.JournalFull full) → kernel.IsTooMuch
        (history.with_lane lane (What.App run call.now (object.apply application.old.state run call.now).1)
        ∷ past_in book.old) full }
{
    room_for_call(book, lane, run, call, &AppReply::Done)?;
    match application.call(run, call) {
        Ok(reply) => {
            let copy = short_copy(&reply);
            Ok((reply, copy))
        }
        Err(_) => Err(EventStop::Memory),
    }
}

/// The reply to a call that the lock lets through, twice.
fn replies_to(
    book: &mut Book,
    application: &mut Application,
    lane: u32,
    run: u32,
    call: &AppCall,
) -> Result<(AppReply, AppReply), EventStop>
    requires call { IsAppCall call.now }
    requires free { object.blocker_of application.old.strict application.old.state run call.now ≡ None }
    ensures ok { IfOk result (spec.IsReplied book.new lane run call.now application.old application.new) }
    ensures stays { Stays book.old book.new }
    ensures err { OnErr result (application.new ≡ application.old) }
    ensures full { (full : Full) → result ≡ Err (EventStop.JournalFull full) → kernel.IsTooMuch
        (history.with_lane lane (What.App run call.now (object.apply application.old.state run call.now).1)
        ∷ past_in book.old) full }
{
    if is_read(call) {
        read_reply(book, application, lane, run, call)
    } else {
        write_reply(book, application, lane, run, call)
    }
}

/// The book, the Application object and the run after the call that the run wants. A refusal leaves them.
fn make_call<R: Runner>(
    runner: &R,
    book: &mut Book,
    application: &mut Application,
    lane: u32,
    run: &mut Run<R>,
) -> Result<(), AppStepStop>
    requires { IsSome (kernel.wanted_by run.old.progress) }
    ensures ok { OnOk result (spec.HasCalled (R.stands runner.now) lane book.old application.old run.old
        book.new application.new run.new) }
    ensures err { OnErr result (Stays book.old book.new × (application.new ≡ application.old)
        × (run.new ≡ run.old)) }
    ensures blocked { (holder : ℕ) → result ≡ Err (AppStepStop.Blocked holder) ↔
        (spec.blocker_by application.old run.old ≡ Some holder) }
    ensures full { (full : Full) → result ≡ Err (AppStepStop.JournalFull full) →
        spec.IsCallTooMuch (past_in book.old) lane application.old run.old full }
{
    let number = run.number();
    let Some(call) = run.wanted() else {
        unreachable!()
    };
    if let Some(holder) = application.blocker(number, call) {
        return Err(AppStepStop::Blocked { holder });
    }
    let (reply, copy) = replies_to(book, application, lane, number, call)?;
    let Some(call) = run.take_reply(runner, copy) else {
        unreachable!()
    };
    book.push(Entry {
        lane,
        what: What::App {
            run: number,
            call,
            reply,
        },
    });
    Ok(())
}

impl<R: Runner> Core<R> {
    /// Makes the call that the run wants, and gives the run the reply. A refusal leaves the core and the run as they
    /// were.
    pub fn app_step(&mut self, lane: u32, runner: &R, run: &mut Run<R>) -> Result<(), AppStepStop>
        requires host { runner.now ≡ self.old.runner }
        requires run { kernel.IsRunOf R.meaning R.stands self.old lane run.old }
        requires wants { IsSome (kernel.wanted_by run.old.progress) }
        ensures ok { OnOk result (self.new ≡ kernel.grown self.old (kernel.called self.old lane run.old)) }
        ensures run { OnOk result (kernel.IsRunOf R.meaning R.stands self.new lane run.new) }
        ensures going { OnOk result ((run.new.number ≡ run.old.number) × (run.new.progress ≡ Progress.Going)) }
        ensures free { OnOk result (kernel.blocker self.old run.old ≡ None) }
        ensures blocked { (holder : ℕ) → result ≡ Err (AppStepStop.Blocked holder) ↔
            (kernel.blocker self.old run.old ≡ Some holder) }
        ensures full { (full : Full) → result ≡ Err (AppStepStop.JournalFull full) →
            kernel.IsTooMuch (journals.past_after (kernel.past_of self.old) (kernel.called self.old lane run.old))
            full }
        ensures not_fit { (full : Full) → result ≡ Err (AppStepStop.JournalFull full) →
            kernel.HasNotFitFor self.old.setting.strict (kernel.past_of self.old) lane run.old }
        ensures err { OnErr result ((self.new ≡ self.old) × (run.new ≡ run.old)) }
    {
        make_call(
            runner,
            &mut self.kept.book,
            &mut self.kept.application,
            lane,
            run,
        )
    }
}
