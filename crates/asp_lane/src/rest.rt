//! Turns of a lane, one after another.
#![tactic(auto)]

ghost use Rattle.std.specs.Prelude.{◌≡◌, [], false};
ghost use Rattle.asp_job.specs.Runs as runs;
ghost use Rattle.asp_core.specs.Kernel as kernel;
ghost use Rattle.asp_core.specs.Ready as waits;
ghost use Rattle.asp_lane.specs.Rest as spec;
ghost use Rattle.asp_lane.specs.Turns.{Fits, run_in};

use crate::turn::{Load, TurnEnd, take_turn};
use asp_core::Core;
use asp_job::Runner;

/// Whether the lane may have more to do after a turn that came to this.
fn goes_on(came_to: TurnEnd) -> bool
    ensures { result ≡ spec.goes_on came_to }
{
    matches!(came_to, TurnEnd::Done | TurnEnd::More)
}

/// Takes turns until one comes to idle, an entry does not fit, or memory runs out before a run begins, and tells what
/// the last one came to. After 2^32 turns it stops.
pub fn take_turns<R: Runner>(
    core: &mut Core<R>,
    runner: &R,
    site: &R::Site,
    lane: u32,
    mut load: Load<R>,
) -> (Load<R>, TurnEnd)
    requires host { kernel.IsHostOf core.old runner.now site.now }
    requires load { Fits R.meaning R.stands core.old lane (run_in load) }
    ensures turns { spec.HasTurned R.meaning R.stands lane
        core.old (run_in load) core.new (run_in result.0) result.1 }

    // Where it comes to idle with no answer left to hand out and no Halt, no run waits.
    ensures idle { result.1 ≡ TurnEnd.Idle →
        waits.ready (kernel.rules_of R.meaning core.new) (kernel.past_of core.new) ≡ [] →
        runs.is_halted (kernel.past_of core.new) ≡ false → runs.waiting (kernel.past_of core.new) ≡ [] }
{
    for _ in 0..u32::MAX {
        let (next, came_to) = take_turn(core, runner, site, lane, load);
        if !goes_on(came_to) {
            return (next, came_to);
        }
        load = next;
    }
    take_turn(core, runner, site, lane, load)
}
