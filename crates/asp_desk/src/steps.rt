//! How a run begins, makes its call, and ends, as one turn makes it.
#![tactic(auto)]

ghost use Rattle.std.specs.Prelude.{◌≡◌, ◌≢◌, ◌<◌, ◌^◌, length, IfOk, IfSome, IsSome, None, Some};
ghost use Rattle.turn_desk.specs.Histories.{GrowsBy};
ghost use Rattle.asp_core.specs.Kernel.{IsHostOf, IsRunOf, rules_of, wanted_by};
ghost use Rattle.asp_desk.specs.Hands.{Holds, IsSameHouse, load_run};
ghost use Rattle.asp_desk.specs.Steps as spec;

use crate::hand::Load;
use crate::stands::Placed;
use asp_core::{AppStepStop, BeginStop, Progress, Run};
use asp_job::{EndKind, Runner};
use asp_journal::Full;

/// What a run came to that had paused.
#[derive(Clone, Copy, Debug, PartialEq, Eq)]
pub enum Stepped {
    /// It has made its call.
    Called,
    /// It has ended.
    Ended,
    /// The lock of this run keeps its call out.
    Blocked { holder: u32 },
    /// Its call did not fit, and it has ended.
    JournalFull(Full),
}

impl<R: Runner> Placed<R> {
    /// The next run begins.
    pub(crate) fn begin(
        &mut self,
        lane: u32,
        runner: &R,
        site: &R::Site,
        store: R::Store,
    ) -> Result<Run<R>, (R::Store, BeginStop)>
        requires host { IsHostOf self.old.core runner.now site.now }
        ensures turn { spec.Begins (rules_of R.meaning self.old.core) lane
            self.old.core.journal (spec.begun_of result) self.new.core.journal }
        ensures holds { Holds R.meaning R.stands self.old.core lane None →
            Holds R.meaning R.stands self.new.core lane (spec.run_of result) }
        ensures going { IfOk result (λ run. (run.progress ≡ Progress.Going) × (run.turns ≡ 0)) }
        ensures grows { GrowsBy (λ entry. entry.lane) lane self.old.core.journal self.new.core.journal }
        ensures house { IsSameHouse self.old.core self.new.core }
        ensures short { length self.new.core.journal < 2 ^ 32 }
    {
        let done = self.core.begin(lane, runner, site, store);
        self.check();
        done
    }

    /// The call of a run, or its end.
    fn call(&mut self, lane: u32, runner: &R, mut run: Run<R>) -> (Load<R::Store, Run<R>>, Stepped)
        requires host { runner.now ≡ self.old.core.runner }
        requires run { IsRunOf R.meaning R.stands self.old.core lane run }
        requires wants { IsSome (wanted_by run.progress) }
        ensures turn { spec.Steps (rules_of R.meaning self.old.core) lane run
            self.old.core.journal result.1 self.new.core.journal }
        ensures run { IfSome (load_run result.0) (λ run. IsRunOf R.meaning R.stands self.new.core lane run) }
        ensures leaves { spec.Leaves run result.1 (load_run result.0) }
        ensures house { IsSameHouse self.old.core self.new.core }
    {
        match self.core.app_step(lane, runner, &mut run) {
            Ok(()) => (Load::Runs(run), Stepped::Called),
            Err(AppStepStop::Blocked { holder }) => (Load::Runs(run), Stepped::Blocked { holder }),
            Err(AppStepStop::JournalFull(full)) => {
                let store = self.core.end(lane, runner, run, EndKind::JournalFull);
                (Load::Free(store), Stepped::JournalFull(full))
            }
            Err(AppStepStop::Memory) => {
                let store = self.core.end(lane, runner, run, EndKind::Memory);
                (Load::Free(store), Stepped::Ended)
            }
        }
    }

    /// The call of a run that has paused, or its end.
    fn call_or_end(
        &mut self,
        lane: u32,
        runner: &R,
        run: Run<R>,
    ) -> (Load<R::Store, Run<R>>, Stepped)
        requires host { runner.now ≡ self.old.core.runner }
        requires run { IsRunOf R.meaning R.stands self.old.core lane run }
        requires paused { run.progress ≢ Progress.Going }
        ensures turn { spec.Steps (rules_of R.meaning self.old.core) lane run
            self.old.core.journal result.1 self.new.core.journal }
        ensures run { IfSome (load_run result.0) (λ run. IsRunOf R.meaning R.stands self.new.core lane run) }
        ensures leaves { spec.Leaves run result.1 (load_run result.0) }
        ensures house { IsSameHouse self.old.core self.new.core }
    {
        match run.progress() {
            Progress::Wants(_) => self.call(lane, runner, run),
            Progress::Ended => {
                let store = self.core.end(lane, runner, run, EndKind::Done);
                (Load::Free(store), Stepped::Ended)
            }
            _ => {
                let store = self.core.end(lane, runner, run, EndKind::Memory);
                (Load::Free(store), Stepped::Ended)
            }
        }
    }

    /// The same, and what is known of the core then.
    pub(crate) fn step(
        &mut self,
        lane: u32,
        runner: &R,
        run: Run<R>,
    ) -> (Load<R::Store, Run<R>>, Stepped)
        requires host { runner.now ≡ self.old.core.runner }
        requires holds { Holds R.meaning R.stands self.old.core lane (Some run) }
        requires paused { run.progress ≢ Progress.Going }
        ensures turn { spec.Steps (rules_of R.meaning self.old.core) lane run
            self.old.core.journal result.1 self.new.core.journal }
        ensures holds { Holds R.meaning R.stands self.new.core lane (load_run result.0) }
        ensures leaves { spec.Leaves run result.1 (load_run result.0) }
        ensures grows { GrowsBy (λ entry. entry.lane) lane self.old.core.journal self.new.core.journal }
        ensures house { IsSameHouse self.old.core self.new.core }
        ensures short { length self.new.core.journal < 2 ^ 32 }
    {
        let done = self.call_or_end(lane, runner, run);
        self.check();
        done
    }
}
