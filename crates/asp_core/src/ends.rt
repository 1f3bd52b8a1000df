//! The call of the core that ends a run.
#![tactic(auto)]

ghost use Rattle.std.specs.Prelude.{◌≡◌, ◌≤◌, ◌<◌, ◌++◌, ◌∷◌, [], IfSome};
ghost use Rattle.std.specs.Option.{option_copied};
ghost use Rattle.asp_job.specs.History as history;
ghost use Rattle.asp_job.specs.Journal as journals;
ghost use Rattle.asp_job.specs.Output as output;
ghost use Rattle.asp_job.specs.Runs as runs;
ghost use Rattle.asp_job.specs.Running.{IsBounded};
ghost use Rattle.asp_core.specs.Book.{past_in};
ghost use Rattle.asp_core.specs.Ends as spec;
ghost use Rattle.asp_core.specs.Kernel as kernel;
ghost use Rattle.asp_core.specs.Ready as waits;
ghost use Rattle.asp_core.specs.Sessions.{account_ended, after_of};
ghost use Rattle.asp_core.specs.Start as starts;

use crate::account::end_key;
use crate::kernel::Core;
use crate::run::{Run, StandIns};
use crate::tables::Tables;
use asp_job::{Answer, EndKind, Entry, Fail, Finished, Runner, SessionState, What};

/// What a run leaves: its answer, its session, why it failed, and how many objects it made and ended.
#[derive(Debug, Drop)]
pub struct Left {
    pub answer: Option<Answer>,
    pub session: Option<SessionState>,
    pub fail: Option<Fail>,
    pub made: u32,
    pub finished: u32,
}

/// What a run leaves where it ends so.
fn left_of(kind: EndKind, told: Option<Finished>, stand_ins: StandIns) -> Left
    ensures { result ≡ spec.left_of kind told stand_ins }
{
    let answer = match kind {
        EndKind::Done => match told {
            Some(told) => return Left {
                answer: told.answer,
                session: told.session,
                fail: told.fail,
                made: told.made,
                finished: told.finished,
            },
            None => None,
        },
        EndKind::Memory => stand_ins.memory,
        EndKind::JournalFull => stand_ins.full,
    };
    Left {
        answer,
        session: None,
        fail: None,
        made: 0,
        finished: 0,
    }
}

fn status_of(answer: Option<&Answer>) -> u16
    ensures { result ≡ output.status_in (option_copied answer.entry) }
{
    match answer {
        Some(answer) => answer.status,
        None => 0,
    }
}

fn length_of(answer: Option<&Answer>) -> u32
    requires { IfSome (option_copied answer) IsBounded }
    ensures { result ≡ output.length_in (option_copied answer.entry) }
{
    match answer {
        Some(answer) => answer.body.len() as u32,
        None => 0,
    }
}

/// The entry of a run's end.
fn end_what(run: u32, kind: EndKind, left: &Left) -> What
    requires { IfSome left.now.answer IsBounded }
    ensures { result ≡ spec.end_what run kind left.now }
{
    What::End {
        run,
        kind,
        status: status_of(left.answer.as_ref()),
        length: length_of(left.answer.as_ref()),
        made: left.made,
        finished: left.finished,
    }
}

/// Why the first run failed, after the end of a run that failed so.
fn fail_after(before: Option<Fail>, run: u32, fail: Option<Fail>) -> Option<Fail>
    ensures { result ≡ starts.fail_after before run fail }
{
    if run == 1 { fail } else { before }
}

/// What a core keeps after the End of a run, whose lock was let go.
#[tactic(auto, using(crate::proofs::Fits::end_fit))]
fn end_run(kept: &mut Tables, lane: u32, run: u32, kind: EndKind, left: Left)
    requires { spec.CanEnd (past_in kept.old.book) lane run kind left }
    ensures items { kept.new.book.items
        ≡ kept.old.book.items ++ history.with_lane lane (spec.end_what run kind left) ∷ [] }
    ensures answers { kept.new.book.answers ≡ waits.with_answer kept.old.book.answers run left.answer }
    ensures account { kept.new.sessions.account ≡ account_ended (runs.key_of (past_in kept.old.book) run)
        (after_of kind left.session) kept.old.sessions.account }
    ensures start { kept.new.start_fail ≡ starts.fail_after kept.old.start_fail run left.fail }
    ensures application { kept.new.application ≡ kept.old.application }
{
    let key = kept.book.journal().key_of(run as u64);
    let what = end_what(run, kind, &left);
    let Left {
        answer,
        session,
        fail,
        made: _,
        finished: _,
    } = left;
    end_key(&mut kept.sessions, key, kind, session);
    kept.start_fail = fail_after(kept.start_fail, run, fail);
    kept.book.push(Entry { lane, what });
    kept.book.put(run, answer);
}

impl<R: Runner> Core<R> {
    /// Ends an unfinished run, and gives its store back. It takes no memory.
    pub fn end(&mut self, lane: u32, runner: &R, run: Run<R>, kind: EndKind) -> R::Store
        requires host { runner.now ≡ self.old.runner }
        requires run { kernel.IsRunOf R.meaning R.stands self.old lane run }
        requires kind { kernel.IsEndOf self.old.setting.strict (kernel.past_of self.old) lane run kind }
        ensures { self.new ≡ kernel.grown self.old (journals.end_entry
            (kernel.rules_of R.meaning self.old) (kernel.past_of self.old) lane run.number kind ∷ []) }
    {
        let number = run.number();
        let (told, store, stand_ins) = run.finish(runner);
        let left = left_of(kind, told, stand_ins);
        self.kept.application.free(number);
        end_run(&mut self.kept, lane, number, kind, left);
        store
    }
}
