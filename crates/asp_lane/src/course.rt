//! The course of a run: it begins, makes its calls, and ends.
#![tactic(auto)]

ghost use Rattle.std.specs.Prelude.{◌≡◌, [], true, IfErr, IfOk, OnOk, Some};
ghost use Rattle.asp_core.specs.Kernel.{IsHostOf, past_of, rules_of};
ghost use Rattle.asp_job.specs.Runs.{unfinished};
ghost use Rattle.asp_lane.specs.Course.{GoesThrough};
ghost use Rattle.asp_lane.specs.Turns.{Fits};
ghost use Rattle.asp_lane.specs.Underway as spec;

use crate::stop::{RunStop, turn_stop};
use crate::turn::{Load, let_go, take_turn};
use asp_core::{Core, Run};
use asp_job::{EndKind, Runner, What};

/// Whether the entry is the end of the run, by itself.
fn is_end_of(run: u32, what: &What) -> bool
    ensures { result ≡ spec.is_end_of run what.now }
{
    match what {
        What::End {
            run: about,
            kind: EndKind::Done,
            ..
        } => *about == run,
        _ => false,
    }
}

/// Whether the newest entry is the end of the run, by itself.
fn has_just_ended<R: Runner>(core: &Core<R>, run: u32) -> bool
    ensures { result ≡ spec.has_just_ended run (past_of core.now) }
{
    match core.journal().split_last() {
        Some((newest, _)) => is_end_of(run, &newest.what),
        None => false,
    }
}

/// The store, where the run has ended by itself.
fn store_back<R>(core: &Core<R>, run: u32, store: R::Store) -> Result<R::Store, RunStop>
where
    R: Runner,
    R::State: Drop,
    R::Store: Drop,
    ensures ok { OnOk result (spec.has_just_ended run (past_of core.now) ≡ true) }
    ensures err { IfErr result (λ stop. stop ≡ RunStop.Memory) }
{
    if has_just_ended(core, run) {
        return Ok(store);
    }
    let_go::<R>(Load::Free(store));
    Err(RunStop::Memory)
}

/// Takes a run to its end.
fn finish<R>(
    core: &mut Core<R>,
    runner: &R,
    site: &R::Site,
    lane: u32,
    run: Run<R>,
) -> Result<R::Store, RunStop>
where
    R: Runner,
    R::State: Drop,
    R::Store: Drop,
    requires host { IsHostOf core.old runner.now site.now }
    requires run { Fits R.meaning R.stands core.old lane (Some run) }
    ensures grows { spec.Grows core.old core.new }
    ensures ok { OnOk result (spec.GoesOn (rules_of R.meaning core.old) lane (past_of core.old) run.number
        (past_of core.new)) }
    ensures free { OnOk result (unfinished (past_of core.new) ≡ []) }
    ensures err { IfErr result (spec.IsGoingStop (rules_of R.meaning core.old) lane (past_of core.old) run.number) }
{
    let number = run.number();
    let mut load = Load::Runs(run);
    for _ in 0..u32::MAX {
        // The journal is valid.
        let _ = core.journal();
        let (next, came_to) = take_turn(core, runner, site, lane, load);
        // And within its bounds.
        let _ = core.journal();
        if let Some(stop) = turn_stop(came_to) {
            let_go(next);
            return Err(stop);
        }
        match next {
            Load::Free(store) => return store_back(core, number, store),
            Load::Runs(run) => load = Load::Runs(run),
        }
    }
    let_go(load);
    Err(RunStop::Memory)
}

/// Begins the next run and takes it to its end: its number, and the store. No other run is unfinished. A run that ends
/// for want of memory, or for want of room in the journal, does not go through.
pub fn go_through<R>(
    core: &mut Core<R>,
    runner: &R,
    site: &R::Site,
    lane: u32,
    store: R::Store,
) -> Result<(u32, R::Store), RunStop>
where
    R: Runner,
    R::State: Drop,
    R::Store: Drop,
    requires host { IsHostOf core.old runner.now site.now }
    requires free { unfinished (past_of core.old) ≡ [] }
    ensures grows { spec.Grows core.old core.new }
    ensures ok { IfOk result (λ gone. GoesThrough (rules_of R.meaning core.old) lane (past_of core.old) gone.0
        (past_of core.new)) }
    ensures free { OnOk result (unfinished (past_of core.new) ≡ []) }
    ensures err { IfErr result (spec.IsRunStop (rules_of R.meaning core.old) lane (past_of core.old)) }
{
    // The journal is valid.
    let _ = core.journal();
    match core.begin(lane, runner, site, store) {
        Ok(run) => {
            // And within its bounds.
            let _ = core.journal();
            let number = run.number();
            Ok((number, finish(core, runner, site, lane, run)?))
        }
        Err((store, stop)) => {
            let_go::<R>(Load::Free(store));
            Err(RunStop::from(stop))
        }
    }
}
