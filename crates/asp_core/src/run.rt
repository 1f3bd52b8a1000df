//! A run that was moved out of the core.
#![tactic(auto)]

ghost use Rattle.std.specs.Prelude.{◌≡◌, ◌≤◌, ◌+◌, Result, Ok, Err, IfOk, OnOk, OnErr, IsSome, ℕ, IfSome};
ghost use Rattle.std.specs.Option.{option_copied};
ghost use Rattle.vb_value.specs.Outcome.{Gives};
ghost use Rattle.asp_job.specs.Calls.{IsAppCall, IsReply};
ghost use Rattle.asp_job.specs.Running.{IsFinish, Over};
ghost use Rattle.asp_job.specs.Told.{Told, heard};
ghost use Rattle.asp_core.specs.Kernel as kernel;
ghost use Rattle.asp_core.specs.Slice.{IsSlice};

use asp_job::{Answer, Finished, Runner, Step, copy_call};
use std::marker::Model;
use std::mem::replace;
use vb_value::{AppCall, AppReply, Memory};

/// What the last step of a run was.
#[derive(Debug, Drop)]
pub enum Progress {
    /// It may go on.
    Going,
    /// It waits for the reply to this call.
    Wants(AppCall),
    /// It has ended.
    Ended,
    /// Memory ran out.
    Dead,
}

/// The answers that stand in for that of a page: where memory ran out, and where the journal was full.
#[derive(Debug, Drop)]
pub struct StandIns {
    pub memory: Option<Answer>,
    pub full: Option<Answer>,
}

/// A run that was moved out of the core. One that is let go stays unfinished for ever.
#[derive(Drop)]
pub struct Run<R: Runner> {
    pub(crate) number: u32,
    pub(crate) progress: Progress,
    pub(crate) state: R::State,
    pub(crate) stand_ins: StandIns,
    pub(crate) turns: u64,
}

impl<R: Runner> Model for Run<R> {
    ghost use Rattle.std.specs.Prelude.{IfSome};
    ghost use Rattle.std.specs.Coded.{codes};
    ghost use Rattle.asp_job.specs.Calls.{IsAppCall};
    ghost use Rattle.asp_core.specs.Kernel.{RunView, IsAtPhase, wanted_by};
    ghost use Rattle.vb_value.specs.contracts.value.Value as contract;

    ghost Value = { RunView R.State };

    ghost coded = { Prim.hlevel (codes, contract.the_row.coded, R.State.code) };

    ghost view = { λ r.
        record { number = r.number; progress = r.progress; state = r.state; stand_ins = r.stand_ins; turns = r.turns } };

    ghost invariant = { λ r. IsAtPhase r.progress (R.phase r.state) × IfSome (wanted_by r.progress) IsAppCall };
}

fn progress_after(step: &Step) -> Result<Progress, Memory>
    ensures { Gives result (kernel.progress_of (Ok step.now)) }
{
    match step {
        Step::More => Ok(Progress::Going),
        Step::Wants(call) => Ok(Progress::Wants(copy_call(call)?)),
        Step::Ended => Ok(Progress::Ended),
    }
}

fn turns_after(turns: u64, step: &Step) -> u64
    ensures { result ≡ kernel.turns_after turns (Ok step.now) }
{
    match step {
        Step::More => turns.saturating_add(1),
        _ => turns,
    }
}

impl<R: Runner> Run<R> {
    /// The run's number.
    pub fn number(&self) -> u32
        ensures { result ≡ self.now.number }
    {
        self.number
    }

    /// What the last step of the run was.
    pub fn progress(&self) -> &Progress
        ensures { result.now ≡ self.now.progress }
    {
        &self.progress
    }

    /// How many of its steps ended with more to do. 2^64 - 1 stands for more.
    pub fn turns(&self) -> u64
        ensures { result ≡ self.now.turns }
    {
        self.turns
    }

    /// Goes on until the run wants a call, has ended, or has spent `quantum` ticks and has more to do. Without memory
    /// the run can only be ended.
    pub fn go(&mut self, runner: &R, site: &R::Site, quantum: u32) -> Result<Step, Memory>
        requires going { self.old.progress ≡ Progress.Going }
        requires quantum { 1 ≤ quantum }
        ensures number { self.new.number ≡ self.old.number }
        ensures stand_ins { self.new.stand_ins ≡ self.old.stand_ins }
        ensures progress { self.new.progress ≡ kernel.progress_of result }
        ensures turns { self.new.turns ≡ kernel.turns_after self.old.turns result }
        ensures stands { kernel.StandsAsBefore
            (R.stands runner.now site.now) (R.meaning runner.now site.now) self.old self.new }
        ensures slice { IfOk result (IsSlice (R.pace runner.now) (R.meaning runner.now site.now)
            (R.stands runner.now site.now) quantum self.old.state self.new.state) }
    {
        match runner.go(site, &mut self.state, quantum) {
            Ok(step) => match progress_after(&step) {
                Ok(progress) => {
                    self.turns = turns_after(self.turns, &step);
                    self.progress = progress;
                    Ok(step)
                }
                Err(stop) => {
                    self.progress = Progress::Dead;
                    Err(stop)
                }
            },
            Err(stop) => {
                self.progress = Progress::Dead;
                Err(stop)
            }
        }
    }

    /// The call that the run wants.
    pub(crate) fn wanted(&self) -> Option<&AppCall>
        ensures wanted { option_copied result ≡ kernel.wanted_by self.now.progress }
        ensures call { IfSome (option_copied result) IsAppCall }
    {
        match &self.progress {
            Progress::Wants(call) => Some(call),
            _ => None,
        }
    }

    /// Takes the reply to the call that the run wants, and gives that call.
    pub(crate) fn take_reply(&mut self, runner: &R, reply: AppReply) -> Option<AppCall>
        requires wants { IsSome (kernel.wanted_by self.old.progress) }
        requires reply { IsReply reply }
        ensures call { result ≡ kernel.wanted_by self.old.progress }
        ensures number { self.new.number ≡ self.old.number }
        ensures stand_ins { self.new.stand_ins ≡ self.old.stand_ins }
        ensures going { self.new.progress ≡ Progress.Going }
        ensures turns { self.new.turns ≡ self.old.turns }
        ensures stands { (site : R.Site) (told : Told) (spent : ℕ) →
            R.stands runner.now site self.old.state told spent →
            R.stands runner.now site self.new.state (heard told reply) spent }
    {
        runner.feed(&mut self.state, reply);
        match replace(&mut self.progress, Progress::Going) {
            Progress::Wants(call) => Some(call),
            _ => None,
        }
    }

    /// What the runner leaves at the end, its store, and the answers that stand in for the run's own.
    pub(crate) fn finish(self, runner: &R) -> (Option<Finished>, R::Store, StandIns)
        ensures stand_ins { result.2 ≡ self.stand_ins }
        ensures finish { self.progress ≡ Progress.Ended → (site : R.Site) (told : Told) (spent : ℕ) →
            R.stands runner.now site self.state told spent →
            IsFinish Over result.0 told ((R.meaning runner.now site).does told) }
    {
        let Run {
            number: _,
            progress: _,
            state,
            stand_ins,
            turns: _,
        } = self;
        let (finished, store) = runner.finish(state);
        (finished, store, stand_ins)
    }
}
