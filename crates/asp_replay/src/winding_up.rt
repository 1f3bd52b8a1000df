//! A feed that stops early is wound up: its host is halted, and the run in hand goes to its end.
#![tactic(auto)]

ghost use Rattle.std.specs.Prelude.{◌≡◌, ◌⊎◌, true, Option};
ghost use Rattle.asp_core.specs.Kernel.{IsHostOf, RunView, past_of};
ghost use Rattle.asp_job.specs.declared.answer.Fail.{Fail};
ghost use Rattle.asp_job.specs.Runs.{is_halted};
ghost use Rattle.asp_lane.specs.Turns.{Fits, run_in};
ghost use Rattle.asp_replay.specs.Feed as spec;
ghost use Rattle.asp_replay.specs.Underway as way;

use crate::stop::FeedStop;
use asp_core::Core;
use asp_job::Runner;
use asp_lane::{Load, let_go, take_turns};

/// No run begins from now on. The run in hand may go on.
fn halt<R: Runner>(core: &mut Core<R>)
    ensures grows { way.GrowsQuietly core.old core.new }
    ensures halted { is_halted (past_of core.new) ≡ true }
    ensures fits { (in_hand : Option (RunView R.State)) → Fits R.meaning R.stands core.old 0 in_hand
        → Fits R.meaning R.stands core.new 0 in_hand }
{
    core.halt(0);
    // The journal is valid.
    let _ = core.journal();
}

/// Halts the host, takes the run in hand to its end, and hands back why the feed stops: `Memory` where 2^32 turns do
/// not take it there. Where the first run failed nothing is in hand, and nothing is done.
pub fn wind_up<R>(
    core: &mut Core<R>,
    runner: &R,
    site: &R::Site,
    hand: Load<R>,
    stop: FeedStop,
) -> FeedStop
where
    R: Runner,
    R::State: Drop,
    R::Store: Drop,
    requires host { IsHostOf core.old runner.now site.now }
    requires hand { Fits R.meaning R.stands core.old 0 (run_in hand) }
    ensures wound_up { spec.IsWoundUp (past_of core.new) result }
    ensures grows { way.GrowsQuietly core.old core.new }
    ensures stop { (result ≡ stop) ⊎ (result ≡ FeedStop.Memory) }
    ensures failed { (fail : Fail) → stop ≡ FeedStop.StartFailed fail → core.new ≡ core.old }
{
    if let FeedStop::StartFailed(_) = stop {
        let_go(hand);
        return stop;
    }
    halt(core);
    let (hand, _) = take_turns(core, runner, site, 0, hand);
    match hand {
        Load::Free(store) => {
            let_go::<R>(Load::Free(store));
            stop
        }
        Load::Runs(run) => {
            let_go(Load::Runs(run));
            FeedStop::Memory
        }
    }
}
