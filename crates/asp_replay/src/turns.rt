//! The turns of a lane that is fed by a recording. Each ends with the answers that wait, which are handed out.
#![tactic(auto)]

ghost use Rattle.std.specs.Prelude.{◌≡◌, ◌∷◌, [], ℕ, true, false, Err, List, Option};
ghost use Rattle.asp_core.specs.Kernel.{IsHostOf, RunView, grown, past_of, rules_of};
ghost use Rattle.asp_io.specs.Faults.{HasCause};
ghost use Rattle.asp_job.specs.declared.entry.Entry.{Entry};
ghost use Rattle.asp_job.specs.Runs.{is_stopping};
ghost use Rattle.asp_lane.specs.Started.{HasStarted};
ghost use Rattle.asp_lane.specs.Turns.{Fits, run_in};
ghost use Rattle.asp_record.specs.declared.recording.Item.{Item as ItemView};
ghost use Rattle.asp_record.specs.Recorded as recorded;
ghost use Rattle.asp_feed.specs.Feeding.{Clients as ClientsView, events_of, is_calm};
ghost use Rattle.asp_replay.specs.Sequential.{IsBusy, may_come};
ghost use Rattle.asp_replay.specs.Underway as spec;

use crate::coming::{come, stop};
use crate::handing::hand_out;
use crate::stop::FeedStop;
use crate::working::work;
use asp_core::Core;
use asp_feed::Clients;
use asp_io::Sink;
use asp_job::Runner;
use asp_lane::{Load, TurnEnd};
use asp_record::Item;
use std::alloc::Global;

/// Why nothing goes on after work that came to this.
fn turn_stop(turn: TurnEnd) -> Option<FeedStop>
    ensures { result ≡ spec.turn_stop turn }
{
    match turn {
        TurnEnd::JournalFull(full) => Some(FeedStop::JournalFull(full)),
        TurnEnd::Memory => Some(FeedStop::Memory),
        _ => None,
    }
}

/// An item comes.
pub fn come_turn<R: Runner, K: Sink>(
    alloc: Global,
    core: &mut Core<R>,
    runner: &R,
    site: &R::Site,
    clients: &mut Clients,
    item: &Item,
    sink: &mut K,
) -> Result<(), FeedStop>
    requires host { IsHostOf core.old runner.now site.now }
    requires held { recorded.IsHeld item.now }
    requires may { may_come (past_of core.old) (recorded.moment_of item.now) ≡ true }
    requires going { is_stopping (past_of core.old) ≡ false }
    requires started { HasStarted (rules_of R.meaning core.old) (past_of core.old) }
    requires lane { spec.IsOfOneLane (rules_of R.meaning core.old) (past_of core.old) }
    ensures grows { (entries : List Entry) × (core.new ≡ grown core.old entries) }
    ensures fits { (in_hand : Option (RunView R.State)) → Fits R.meaning R.stands core.old 0 in_hand
        → Fits R.meaning R.stands core.new 0 in_hand }
    ensures after { (items left : List ItemView) (before : Option (List ℕ))
        → spec.IsUnderWay (rules_of R.meaning core.old) items (past_of core.old) clients.old.entries (item.now ∷ left)
        before (K.held sink.old)
        → spec.After result (rules_of R.meaning core.old) items (past_of core.new) clients.new.entries left before
        (K.held sink.new) }
    ensures cause { HasCause FeedStop.WriteFault (K.faults sink.old) (K.faults sink.new) result }
{
    come(alloc, core, runner, site, clients, item)?;
    // The journal is valid, now and later.
    let _ = core.journal();
    let handed = hand_out(alloc, core, sink);
    let _ = core.journal();
    handed
}

/// The host stops.
pub fn stop_turn<R: Runner, K: Sink>(
    alloc: Global,
    core: &mut Core<R>,
    sink: &mut K,
) -> Result<(), FeedStop>
    requires calm { is_calm (past_of core.old) ≡ true }
    requires once { is_stopping (past_of core.old) ≡ false }
    requires started { HasStarted (rules_of R.meaning core.old) (past_of core.old) }
    requires lane { spec.IsOfOneLane (rules_of R.meaning core.old) (past_of core.old) }
    ensures grows { (entries : List Entry) × (core.new ≡ grown core.old entries) }
    ensures fits { (in_hand : Option (RunView R.State)) → Fits R.meaning R.stands core.old 0 in_hand
        → Fits R.meaning R.stands core.new 0 in_hand }
    ensures after { (items : List ItemView) (clients : ClientsView) (before : Option (List ℕ))
        → spec.IsUnderWay (rules_of R.meaning core.old) items (past_of core.old) clients [] before (K.held sink.old)
        → spec.After result (rules_of R.meaning core.old) items (past_of core.new) clients [] before
        (K.held sink.new) }
    ensures cause { HasCause FeedStop.WriteFault (K.faults sink.old) (K.faults sink.new) result }
{
    stop(core)?;
    // The journal is valid, now and later.
    let _ = core.journal();
    let handed = hand_out(alloc, core, sink);
    let _ = core.journal();
    handed
}

/// The run in hand goes on, or the next one begins.
pub fn work_turn<R, K>(
    alloc: Global,
    core: &mut Core<R>,
    runner: &R,
    site: &R::Site,
    hand: Load<R>,
    sink: &mut K,
) -> (Load<R>, Result<(), FeedStop>)
where
    R: Runner,
    R::State: Drop,
    R::Store: Drop,
    K: Sink,
    requires host { IsHostOf core.old runner.now site.now }
    requires hand { Fits R.meaning R.stands core.old 0 (run_in hand) }
    requires busy { is_calm (past_of core.old) ≡ false }
    requires lane { spec.IsOfOneLane (rules_of R.meaning core.old) (past_of core.old) }
    ensures grows { (entries : List Entry) × (core.new ≡ grown core.old entries) }
    ensures fits { Fits R.meaning R.stands core.new 0 (run_in result.0) }
    ensures after { (items left : List ItemView) (clients : ClientsView) (before : Option (List ℕ))
        → spec.IsUnderWay (rules_of R.meaning core.old) items (past_of core.old) clients left before (K.held sink.old)
        → IsBusy (past_of core.old) left
        → spec.After result.1 (rules_of R.meaning core.old) items (past_of core.new) clients left before
        (K.held sink.new) }
    ensures quiet { events_of (past_of core.new) ≡ events_of (past_of core.old) }
    ensures no_fault { events_of (past_of core.old) ≡ [] → result.1 ≡ Err FeedStop.WriteFault → ⊥ }
    ensures cause { HasCause FeedStop.WriteFault (K.faults sink.old) (K.faults sink.new) result.1 }
{
    let (hand, turn) = work(core, runner, site, hand);
    if let Some(stop) = turn_stop(turn) {
        return (hand, Err(stop));
    }
    // The journal is valid, now and later.
    let _ = core.journal();
    let handed = hand_out(alloc, core, sink);
    let _ = core.journal();
    (hand, handed)
}
