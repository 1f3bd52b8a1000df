//! The turns of a lane.
#![tactic(auto)]

ghost use Rattle.std.specs.Prelude.{◌≡◌, [], false, Some, None, IsSome};
ghost use Rattle.asp_job.specs.Journal as journals;
ghost use Rattle.asp_job.specs.Runs as runs;
ghost use Rattle.asp_core.specs.Kernel as kernel;
ghost use Rattle.asp_core.specs.Ready as waits;
ghost use Rattle.asp_lane.specs.Slice.{SpendsTicks};
ghost use Rattle.asp_lane.specs.Turns as spec;

use asp_core::{AppStepStop, BeginStop, Core, Run};
use asp_job::{EndKind, QUANTUM, Runner, Step};
use asp_journal::Full;

/// What a lane carries. A run that is let go stays unfinished for ever.
#[derive(Drop)]
pub enum Load<R: Runner> {
    /// Room for a run.
    Free(R::Store),
    /// A run that may go on.
    Runs(Run<R>),
}

/// Lets go of a load. A run stays unfinished.
pub fn let_go<R>(_load: Load<R>)
where
    R: Runner,
    R::State: Drop,
    R::Store: Drop,
{}

/// What a turn came to.
#[derive(Clone, Copy, Debug, PartialEq, Eq)]
pub enum TurnEnd {
    /// The journal has one entry more: a run began, made a call, or ended.
    Done,
    /// The run in hand has spent its ticks, and has more to do.
    More,
    /// No run may begin.
    Idle,
    /// An entry did not fit. The run in hand, if there was one, has ended.
    JournalFull(Full),
    /// Memory ran out before a run began.
    Memory,
}

/// What a turn comes to where no run begins.
fn turn_of(stop: BeginStop) -> TurnEnd
    ensures { result ≡ spec.turn_of stop }
{
    match stop {
        BeginStop::Idle => TurnEnd::Idle,
        BeginStop::JournalFull(full) => TurnEnd::JournalFull(full),
        BeginStop::Memory => TurnEnd::Memory,
    }
}

/// Begins the next run.
fn begin<R: Runner>(
    core: &mut Core<R>,
    runner: &R,
    site: &R::Site,
    lane: u32,
    store: R::Store,
) -> (Load<R>, TurnEnd)
    requires host { kernel.IsHostOf core.old runner.now site.now }
    requires valid { journals.AreRight (kernel.rules_of R.meaning core.old) (kernel.past_of core.old) }
    requires free { runs.unfinished (kernel.past_of core.old) ≡ [] }
    ensures { spec.IsTurn R.meaning R.stands lane core.old None core.new (spec.run_in result.0) result.1 }
{
    match core.begin(lane, runner, site, store) {
        Ok(run) => (Load::Runs(run), TurnEnd::Done),
        Err((store, stop)) => (Load::Free(store), turn_of(stop)),
    }
}

/// Makes the call that a run wants, or ends the run where there is no room or memory for it.
fn call<R: Runner>(core: &mut Core<R>, runner: &R, lane: u32, mut run: Run<R>) -> (Load<R>, TurnEnd)
    requires host { runner.now ≡ core.old.runner }
    requires valid { journals.AreRight (kernel.rules_of R.meaning core.old) (kernel.past_of core.old) }
    requires load { spec.IsAlone R.meaning R.stands core.old lane run }
    requires wants { IsSome (kernel.wanted_by run.progress) }
    ensures turn { spec.IsTurn R.meaning R.stands lane core.old (Some run) core.new (spec.run_in result.0) result.1 }
    ensures made { result.1 ≡ TurnEnd.More → ⊥ }
{
    match core.app_step(lane, runner, &mut run) {
        Ok(()) => (Load::Runs(run), TurnEnd::Done),
        Err(AppStepStop::Blocked { holder: _ }) => unreachable!(),
        Err(AppStepStop::JournalFull(full)) => {
            let store = core.end(lane, runner, run, EndKind::JournalFull);
            (Load::Free(store), TurnEnd::JournalFull(full))
        }
        Err(AppStepStop::Memory) => {
            let store = core.end(lane, runner, run, EndKind::Memory);
            (Load::Free(store), TurnEnd::Done)
        }
    }
}

/// Goes on with a run to its next call or its end.
fn go<R: Runner>(
    core: &mut Core<R>,
    runner: &R,
    site: &R::Site,
    lane: u32,
    mut run: Run<R>,
) -> (Load<R>, TurnEnd)
    requires host { kernel.IsHostOf core.old runner.now site.now }
    requires valid { journals.AreRight (kernel.rules_of R.meaning core.old) (kernel.past_of core.old) }
    requires load { spec.Fits R.meaning R.stands core.old lane (Some run) }
    ensures turn { spec.IsTurn R.meaning R.stands lane core.old (Some run) core.new (spec.run_in result.0) result.1 }
    ensures ticks { SpendsTicks R.pace R.meaning R.stands lane
        core.old (Some run) core.new (spec.run_in result.0) result.1 }
{
    match run.go(runner, site, QUANTUM) {
        Ok(Step::More) => (Load::Runs(run), TurnEnd::More),
        Ok(Step::Wants(_)) => call(core, runner, lane, run),
        Ok(Step::Ended) => {
            let store = core.end(lane, runner, run, EndKind::Done);
            (Load::Free(store), TurnEnd::Done)
        }
        Err(_) => {
            let store = core.end(lane, runner, run, EndKind::Memory);
            (Load::Free(store), TurnEnd::Done)
        }
    }
}

/// One turn of a lane, where no other lane has a run: it begins the next run, or takes the run in hand to its next call
/// or to its end. Where memory runs out for a run that is under way, the run ends so.
pub fn take_turn<R: Runner>(
    core: &mut Core<R>,
    runner: &R,
    site: &R::Site,
    lane: u32,
    load: Load<R>,
) -> (Load<R>, TurnEnd)
    requires host { kernel.IsHostOf core.old runner.now site.now }
    requires load { spec.Fits R.meaning R.stands core.old lane (spec.run_in load) }
    ensures turn { spec.IsTurn R.meaning R.stands lane
        core.old (spec.run_in load) core.new (spec.run_in result.0) result.1 }

    // A run in hand is taken no further than so many ticks, and stops before only where it wants a call or has ended.
    ensures ticks { SpendsTicks R.pace R.meaning R.stands lane
        core.old (spec.run_in load) core.new (spec.run_in result.0) result.1 }

    // Where it comes to idle with no answer left to hand out and no Halt, no run waits.
    ensures idle { result.1 ≡ TurnEnd.Idle →
        waits.ready (kernel.rules_of R.meaning core.new) (kernel.past_of core.new) ≡ [] →
        runs.is_halted (kernel.past_of core.new) ≡ false → runs.waiting (kernel.past_of core.new) ≡ [] }
{
    // The journal is valid.
    let _ = core.journal();
    match load {
        Load::Free(store) => begin(core, runner, site, lane, store),
        Load::Runs(run) => go(core, runner, site, lane, run),
    }
}
