//! Slices of a hand's work.
#![tactic(auto)]

ghost use Rattle.std.specs.Prelude.{◌≡◌, IfErr, IfOk, IsSome, None, OnErr, OnOk, Some};
ghost use Rattle.turn_desk.specs.Shown.{IsLaneOf};
ghost use Rattle.asp_core.specs.Kernel.{StandsAsBefore};
ghost use Rattle.asp_desk.specs.Calls.{IsTurn};
ghost use Rattle.asp_desk.specs.Hands.{Holds, IsHandOf, IsUnderWay, core_at, held_number, load_run, rules_at};
ghost use Rattle.asp_desk.specs.Slices as spec;
ghost use Rattle.asp_desk.specs.Steps as steps;
ghost use Rattle.asp_desk.specs.Working.{AddsWork};

use crate::gate::{Gate, Verdict};
use crate::hand::{Hand, Load, put};
use crate::host::HostOf;
use crate::stands::Placed;
use crate::steps::Stepped;
use crate::waking::ends;
use asp_core::{BeginStop, Progress, Run};
use asp_job::{QUANTUM, Runner, Step};
use asp_journal::Full;
use std::sync::Wait;
use vb_value::AppCall;

/// What a slice came to.
#[derive(Clone, Copy, Debug, PartialEq, Eq)]
pub enum Slice {
    /// A run began, spent its ticks, made its call or ended.
    Worked,
    /// No run may begin.
    Idle,
    /// The lock of this run keeps the call of the run in hand out.
    Blocked { holder: u32 },
    /// The gate holds the run in hand back.
    Held,
    /// An entry did not fit. The run in hand, if there was one, has ended.
    JournalFull(Full),
    /// Memory ran out before a run began.
    Memory,
}

fn stopped(stop: BeginStop) -> Slice
    ensures { result ≡ spec.stopped stop }
{
    match stop {
        BeginStop::Idle => Slice::Idle,
        BeginStop::JournalFull(full) => Slice::JournalFull(full),
        BeginStop::Memory => Slice::Memory,
    }
}

fn slice_of(stepped: Stepped) -> Slice
    ensures { result ≡ spec.slice_of stepped }
{
    match stepped {
        Stepped::Called | Stepped::Ended => Slice::Worked,
        Stepped::Blocked { holder } => Slice::Blocked { holder },
        Stepped::JournalFull(full) => Slice::JournalFull(full),
    }
}

/// What a hand carries after a begin.
fn loaded<R: Runner>(
    done: Result<Run<R>, (R::Store, BeginStop)>,
) -> (Load<R::Store, Run<R>>, Result<u32, BeginStop>)
    ensures load { load_run result.0 ≡ steps.run_of done }
    ensures begun { result.1 ≡ steps.begun_of done }
{
    match done {
        Ok(run) => {
            let number = run.number();
            (Load::Runs(run), Ok(number))
        }
        Err((store, stop)) => (Load::Free(store), Err(stop)),
    }
}

impl<R: Runner> HostOf<Placed<R>, R, R::Site> {
    /// Begins a run, in one turn.
    fn begin<Rt: Wait>(&self, rt: &Rt, hand: &mut Hand<R>) -> Result<u32, BeginStop>
        requires hand { IsHandOf R.meaning R.stands self.now hand.old }
        requires free { hand.old.run ≡ None }
        ensures hand { IsHandOf R.meaning R.stands self.now hand.new }
        ensures turn { IsTurn (steps.Begins (rules_at R.meaning self.now) hand.old.lane.number)
            hand.old.lane result hand.new.lane }
        ensures ok { IfOk result (λ number. spec.HasBegun hand.new.run number) }
        ensures err { OnErr result (hand.new.run ≡ None) }
    {
        let (number, mut turn) = self.open(rt, hand);
        let Some(load) = hand.load.take() else {
            unreachable!()
        };
        let Load::Free(store) = load else {
            unreachable!()
        };
        let placed = turn.state();
        let done = placed.begin(number, &self.runner, &self.site, store);
        let left = placed.left(&self.bell, done.is_ok());
        let (load, begun) = loaded(done);
        put(&mut hand.load, load);
        self.shut(hand, turn);
        self.bell.ring_begun(&begun, left);
        begun
    }

    /// Sees to it that a run is in hand: where none is, one begins, in one turn.
    fn make_ready<Rt: Wait>(&self, rt: &Rt, hand: &mut Hand<R>) -> Result<u32, BeginStop>
        requires { IsHandOf R.meaning R.stands self.now hand.old }
        ensures hand { IsHandOf R.meaning R.stands self.now hand.new }
        ensures ready { OnOk result (spec.IsReady R.pace R.meaning R.stands self.now hand.old hand.new) }
        ensures number { IfOk result (λ number. held_number hand.new.run ≡ Some number) }
        ensures refused { IfErr result (λ why.
            spec.IsRefused R.pace R.meaning R.stands self.now hand.old why hand.new) }
    {
        match hand.run() {
            Some(number) => Ok(number),
            None => self.begin(rt, hand),
        }
    }

    /// Lets a run go on for a slice, if it may, and tells whether it has more to do.
    fn gone(&self, mut run: Run<R>) -> (Run<R>, bool)
        requires { IsUnderWay run.progress }
        ensures goes { spec.Goes (R.pace self.now.runner) (R.meaning self.now.runner self.now.site)
            (R.stands self.now.runner self.now.site) run result.1 result.0 }
        ensures stand_ins { result.0.stand_ins ≡ run.stand_ins }
        ensures stands { StandsAsBefore (R.stands self.now.runner self.now.site)
            (R.meaning self.now.runner self.now.site) run result.0 }
    {
        if !matches!(run.progress(), Progress::Going) {
            return (run, false);
        }
        let result = run.go(&self.runner, &self.site, QUANTUM);
        let more = matches!(result, Ok(Step::More));
        (run, more)
    }

    /// Lets the run in hand go on for a slice, if it may, and tells whether it has more to do. It takes no turn.
    fn go(&self, hand: &mut Hand<R>) -> bool
        requires hand { IsHandOf R.meaning R.stands self.now hand.old }
        requires run { IsSome hand.old.run }
        ensures goes { spec.HasGoneOn R.pace R.meaning R.stands self.now hand.old result hand.new }
        ensures holds { Holds R.meaning R.stands
            (core_at self.now hand.old.lane.seen) hand.old.lane.number hand.new.run }
    {
        let Some(load) = hand.load.take() else {
            unreachable!()
        };
        let Load::Runs(run) = load else {
            unreachable!()
        };
        let (run, more) = self.gone(run);
        put(&mut hand.load, Load::Runs(run));
        more
    }

    /// Makes the call of the run in hand, or ends it, in one turn.
    fn step<Rt: Wait>(&self, rt: &Rt, hand: &mut Hand<R>) -> Stepped
        requires lane { IsLaneOf self.now.desk hand.old.lane }
        requires holds { Holds R.meaning R.stands
            (core_at self.now hand.old.lane.seen) hand.old.lane.number hand.old.run }
        requires paused { spec.HasPaused hand.old.run }
        ensures hand { IsHandOf R.meaning R.stands self.now hand.new }
        ensures steps { spec.HasStepped R.pace R.meaning R.stands self.now hand.old result hand.new }
    {
        let (number, mut turn) = self.open(rt, hand);
        let Some(load) = hand.load.take() else {
            unreachable!()
        };
        let Load::Runs(run) = load else {
            unreachable!()
        };
        let unlocks = matches!(run.progress(), Progress::Wants(AppCall::Unlock));
        let placed = turn.state();
        let (load, stepped) = placed.step(number, &self.runner, run);
        let left = placed.left(&self.bell, ends(stepped));
        put(&mut hand.load, load);
        self.shut(hand, turn);
        self.bell.ring_stepped(stepped, unlocks, left);
        stepped
    }

    /// What the run in hand does once the gate lets it pass.
    fn pass<Rt: Wait>(&self, rt: &Rt, hand: &mut Hand<R>) -> Slice
        requires hand { IsHandOf R.meaning R.stands self.now hand.old }
        requires run { IsSome hand.old.run }
        ensures hand { IsHandOf R.meaning R.stands self.now hand.new }
        ensures passes { spec.Passes R.pace R.meaning R.stands self.now hand.old result hand.new }
    {
        if self.go(hand) {
            return Slice::Worked;
        }
        slice_of(self.step(rt, hand))
    }

    /// What the run in hand does.
    fn work<Rt: Wait, G: Gate>(&self, rt: &Rt, hand: &mut Hand<R>, gate: &G, number: u32) -> Slice
        requires hand { IsHandOf R.meaning R.stands self.now hand.old }
        requires number { held_number hand.old.run ≡ Some number }
        ensures hand { IsHandOf R.meaning R.stands self.now hand.new }
        ensures works { spec.Works R.pace R.meaning R.stands self.now (G.may_hold gate.now)
            hand.old result hand.new }
    {
        match gate.pass(number) {
            Verdict::Hold => Slice::Held,
            Verdict::Go => self.pass(rt, hand),
        }
    }

    /// A slice of work: where the hand holds no run one begins, in a turn; the run passes the gate, goes on for 10,000
    /// ticks at most without a turn, and where it has paused then makes its call or ends, in a turn. Where memory runs
    /// out for a run that is under way, or its call does not fit, it ends so.
    pub fn work_slice<Rt: Wait, G: Gate>(&self, rt: &Rt, hand: &mut Hand<R>, gate: &G) -> Slice
        requires { IsHandOf R.meaning R.stands self.now hand.old }
        ensures hand { IsHandOf R.meaning R.stands self.now hand.new }
        ensures slice { spec.IsSlice R.pace R.meaning R.stands self.now (G.may_hold gate.now)
            hand.old result hand.new }
        ensures work { AddsWork hand.old.lane hand.new.lane }
    {
        match self.make_ready(rt, hand) {
            Ok(number) => self.work(rt, hand, gate, number),
            Err(why) => stopped(why),
        }
    }
}
