//! The work of a turn: a run begins, if none is in hand, and makes its next call or ends.
#![tactic(auto)]

ghost use Rattle.std.specs.Prelude.{◌≡◌, ℕ, [], ◌∷◌, false};
ghost use Rattle.asp_job.specs.Journal.{AreRight};
ghost use Rattle.asp_job.specs.Runs.{is_halted, unfinished};
ghost use Rattle.asp_core.specs.Kernel.{IsHostOf, past_of, rules_of};
ghost use Rattle.asp_core.specs.Ready.{ready};
ghost use Rattle.asp_lane.specs.Turns.{Fits, run_in};
ghost use Rattle.asp_feed.specs.Feeding.{is_calm};
ghost use Rattle.asp_replay.specs.Underway as spec;

use asp_core::Core;
use asp_job::Runner;
use asp_lane::{Load, TurnEnd, take_turn};

fn is_more(turn: TurnEnd) -> bool
    ensures { result ≡ spec.is_more turn }
{
    matches!(turn, TurnEnd::More)
}

fn is_done(turn: TurnEnd) -> bool
    ensures { result ≡ spec.is_done turn }
{
    matches!(turn, TurnEnd::Done)
}

/// Takes the run in hand to its next call or its end.
fn step<R: Runner>(
    core: &mut Core<R>,
    runner: &R,
    site: &R::Site,
    mut hand: Load<R>,
) -> (Load<R>, TurnEnd)
    requires host { IsHostOf core.old runner.now site.now }
    requires hand { Fits R.meaning R.stands core.old 0 (run_in hand) }
    ensures { (run : ℕ) → unfinished (past_of core.old) ≡ run ∷ [] →
        spec.HasStepped R.meaning R.stands core.old run core.new (run_in result.0) result.1 }
{
    for _ in 0..u32::MAX {
        let (next, turn) = take_turn(core, runner, site, 0, hand);
        if !is_more(turn) {
            return (next, turn);
        }
        hand = next;
    }
    (hand, TurnEnd::Memory)
}

/// Begins the next run, and takes it to its first call or its end.
fn begin_and_step<R: Runner>(
    core: &mut Core<R>,
    runner: &R,
    site: &R::Site,
    store: R::Store,
) -> (Load<R>, TurnEnd)
    requires host { IsHostOf core.old runner.now site.now }
    requires valid { AreRight (rules_of R.meaning core.old) (past_of core.old) }
    requires free { unfinished (past_of core.old) ≡ [] }
    requires busy { is_calm (past_of core.old) ≡ false }
    requires none_ready { ready (rules_of R.meaning core.old) (past_of core.old) ≡ [] }
    requires going { is_halted (past_of core.old) ≡ false }
    ensures { spec.HasWorked R.meaning R.stands core.old core.new (run_in result.0) result.1 }
{
    let (hand, turn) = take_turn(core, runner, site, 0, Load::Free(store));
    if !is_done(turn) {
        return (hand, turn);
    }
    step(core, runner, site, hand)
}

/// Begins the next run, if none is in hand, and takes the run in hand to its next call or its end.
pub fn work<R: Runner>(
    core: &mut Core<R>,
    runner: &R,
    site: &R::Site,
    hand: Load<R>,
) -> (Load<R>, TurnEnd)
    requires host { IsHostOf core.old runner.now site.now }
    requires hand { Fits R.meaning R.stands core.old 0 (run_in hand) }
    requires busy { is_calm (past_of core.old) ≡ false }
    requires none_ready { ready (rules_of R.meaning core.old) (past_of core.old) ≡ [] }
    requires going { is_halted (past_of core.old) ≡ false }
    ensures { spec.HasWorked R.meaning R.stands core.old core.new (run_in result.0) result.1 }
{
    // The journal is valid.
    let _ = core.journal();
    match hand {
        Load::Runs(run) => step(core, runner, site, Load::Runs(run)),
        Load::Free(store) => begin_and_step(core, runner, site, store),
    }
}
