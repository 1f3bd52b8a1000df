//! A recording is fed to a host.
#![tactic(auto)]

ghost use Rattle.std.specs.Prelude.{◌≡◌, ◌⊎◌, ◌∷◌, [], ℕ, false, Err, IfErr, IfOk, List, OnOk, Option};
ghost use Rattle.asp_core.specs.Kernel.{IsHostOf, grown, past_of, rules_by, rules_of, setting_of};
ghost use Rattle.asp_io.specs.Faults.{HasCause};
ghost use Rattle.asp_job.specs.declared.entry.Entry.{Entry};
ghost use Rattle.asp_job.specs.declared.entry.What.TheVariants as What;
ghost use Rattle.asp_job.specs.declared.job.Work.TheVariants as Work;
ghost use Rattle.asp_job.specs.History.{with_lane};
ghost use Rattle.asp_lane.specs.Started.{HasStarted};
ghost use Rattle.asp_lane.specs.Turns.{Fits, run_in};
ghost use Rattle.asp_record.specs.declared.recording.Item.{Item as ItemView};
ghost use Rattle.asp_record.specs.Recorded.{IsSound};
ghost use Rattle.asp_feed.specs.Feeding.{Clients as ClientsView, events_of};
ghost use Rattle.asp_replay.specs.Feed as spec;
ghost use Rattle.asp_replay.specs.Underway as way;

use crate::coming::{is_calm, may_come, moment_of};
use crate::stop::FeedStop;
use crate::turns::{come_turn, stop_turn, work_turn};
use crate::winding_up::wind_up;
use asp_core::Core;
use asp_feed::Clients;
use asp_io::Sink;
use asp_job::{EndKind, Runner};
use asp_lane::{Load, let_go};
use asp_record::{Item, Recording};
use std::alloc::Global;

/// Whether the first run is still to end.
fn is_starting<R: Runner>(core: &Core<R>) -> bool
    ensures { result ≡ way.is_starting (past_of core.now) }
{
    core.start_kind().is_none() && !is_calm(core)
}

/// Why nothing comes, where the first run failed or has not ended by itself.
fn started<R: Runner>(core: &Core<R>) -> Result<(), FeedStop>
    ensures ok { OnOk result (HasStarted (rules_of R.meaning core.now) (past_of core.now)) }
    ensures err { IfErr result (way.IsStartStop (rules_of R.meaning core.now) (past_of core.now)) }
{
    match core.start_fail() {
        Some(fail) => Err(FeedStop::StartFailed(fail)),
        None => match core.start_kind() {
            Some(EndKind::Done) => Ok(()),
            _ => Err(FeedStop::Memory),
        },
    }
}

/// Runs the first run to its end. Where it failed, or memory ran out for it, nothing else is done.
fn start<R, K>(
    alloc: Global,
    core: &mut Core<R>,
    runner: &R,
    site: &R::Site,
    mut hand: Load<R>,
    sink: &mut K,
) -> (Load<R>, Result<(), FeedStop>)
where
    R: Runner,
    R::State: Drop,
    R::Store: Drop,
    K: Sink,
    requires host { IsHostOf core.old runner.now site.now }
    requires hand { Fits R.meaning R.stands core.old 0 (run_in hand) }
    requires between { way.IsBetween (rules_of R.meaning core.old) (past_of core.old) (K.held sink.old) }
    requires none_came { events_of (past_of core.old) ≡ [] }
    ensures grows { (entries : List Entry) × (core.new ≡ grown core.old entries) }
    ensures fits { Fits R.meaning R.stands core.new 0 (run_in result.0) }
    ensures started { OnOk result.1 (HasStarted (rules_of R.meaning core.old) (past_of core.new)) }
    ensures none_came { events_of (past_of core.new) ≡ [] }
    ensures no_fault { result.1 ≡ Err FeedStop.WriteFault → ⊥ }
    ensures after { (items left : List ItemView) (clients : ClientsView) (before : Option (List ℕ))
        → way.IsUnderWay (rules_of R.meaning core.old) items (past_of core.old) clients left before (K.held sink.old)
        → way.After result.1 (rules_of R.meaning core.old) items (past_of core.new) clients left before
        (K.held sink.new) }
    ensures cause { HasCause FeedStop.WriteFault (K.faults sink.old) (K.faults sink.new) result.1 }
{
    for _ in 0..u32::MAX {
        if !is_starting(core) {
            return (hand, started(core));
        }
        let (next, worked) = work_turn(alloc, core, runner, site, hand, sink);
        hand = next;
        match worked {
            Ok(()) => {}
            Err(stop) => return (hand, Err(stop)),
        }
    }
    (hand, Err(FeedStop::Memory))
}

/// The items that are left, where nothing failed.
fn left_where<'a>(items: &'a [Item], came: Result<(), FeedStop>) -> Result<&'a [Item], FeedStop>
    ensures { way.IsHandedBack items.entry came result }
{
    match came {
        Ok(()) => Ok(items),
        Err(stop) => Err(stop),
    }
}

/// One turn: the next item comes, where it may; once all came and nothing is under way the host stops; else the run in
/// hand goes on, or the next one begins.
fn turn<'a, R, K>(
    alloc: Global,
    core: &mut Core<R>,
    runner: &R,
    site: &R::Site,
    clients: &mut Clients,
    hand: Load<R>,
    items: &'a [Item],
    sink: &mut K,
) -> (Load<R>, Result<&'a [Item], FeedStop>)
where
    R: Runner,
    R::State: Drop,
    R::Store: Drop,
    K: Sink,
    requires host { IsHostOf core.old runner.now site.now }
    requires hand { Fits R.meaning R.stands core.old 0 (run_in hand) }
    requires started { HasStarted (rules_of R.meaning core.old) (past_of core.old) }
    requires going { way.is_over (past_of core.old) items.now ≡ false }
    requires under { (all : List ItemView) × (before : Option (List ℕ))
        × way.IsUnderWay (rules_of R.meaning core.old) all (past_of core.old) clients.old.entries items.now before
        (K.held sink.old) }
    ensures grows { (entries : List Entry) × (core.new ≡ grown core.old entries) }
    ensures fits { Fits R.meaning R.stands core.new 0 (run_in result.0) }
    ensures after { (all : List ItemView) (before : Option (List ℕ))
        → way.IsUnderWay (rules_of R.meaning core.old) all (past_of core.old) clients.old.entries items.now before
        (K.held sink.old)
        → way.AfterTurn result.1 (rules_of R.meaning core.old) all (past_of core.new) clients.new.entries before
        (K.held sink.new) }
    ensures cause { HasCause FeedStop.WriteFault (K.faults sink.old) (K.faults sink.new) result.1 }
{
    match items.split_first() {
        Some((next, rest)) if may_come(core, moment_of(next)) => {
            let came = come_turn(alloc, core, runner, site, clients, next, sink);
            (hand, left_where(rest, came))
        }
        None if is_calm(core) => {
            let stopped = stop_turn(alloc, core, sink);
            (hand, left_where(items, stopped))
        }
        _ => {
            let (hand, worked) = work_turn(alloc, core, runner, site, hand, sink);
            (hand, left_where(items, worked))
        }
    }
}

/// Whether all items came, the host has stopped, and nothing is under way.
fn is_over<R: Runner>(core: &Core<R>, items: &[Item]) -> bool
    ensures { result ≡ way.is_over (past_of core.now) items.now }
{
    items.is_empty() && core.stopping() && is_calm(core)
}

/// Feeds all items to a host whose first run has ended.
fn feed_items<R, K>(
    alloc: Global,
    core: &mut Core<R>,
    runner: &R,
    site: &R::Site,
    clients: &mut Clients,
    mut hand: Load<R>,
    recording: &Recording,
    sink: &mut K,
) -> (Load<R>, Result<(), FeedStop>)
where
    R: Runner,
    R::State: Drop,
    R::Store: Drop,
    K: Sink,
    requires host { IsHostOf core.old runner.now site.now }
    requires hand { Fits R.meaning R.stands core.old 0 (run_in hand) }
    requires started { HasStarted (rules_of R.meaning core.old) (past_of core.old) }
    requires under { (before : Option (List ℕ)) × way.IsUnderWay (rules_of R.meaning core.old) recording.now.items
        (past_of core.old) clients.old.entries recording.now.items before (K.held sink.old) }
    ensures grows { (entries : List Entry) × (core.new ≡ grown core.old entries) }
    ensures fits { Fits R.meaning R.stands core.new 0 (run_in result.0) }
    ensures after { (before : Option (List ℕ))
        → way.IsUnderWay (rules_of R.meaning core.old) recording.now.items (past_of core.old) clients.old.entries
        recording.now.items before (K.held sink.old)
        → way.AfterAll result.1 (rules_of R.meaning core.old) recording.now.items (past_of core.new) before
        (K.held sink.new) }
    ensures cause { HasCause FeedStop.WriteFault (K.faults sink.old) (K.faults sink.new) result.1 }
{
    let mut items = recording.items.as_slice();
    for _ in 0..u32::MAX {
        if is_over(core, items) {
            return (hand, Ok(()));
        }
        let (next, came) = turn(alloc, core, runner, site, clients, hand, items, sink);
        // The journal is valid.
        let _ = core.journal();
        hand = next;
        match came {
            Ok(left) => items = left,
            Err(stop) => return (hand, Err(stop)),
        }
    }
    (hand, Err(FeedStop::Memory))
}

/// Runs the first run of a host to its end, and feeds it.
fn feed_host<R, K>(
    alloc: Global,
    core: &mut Core<R>,
    runner: &R,
    site: &R::Site,
    clients: &mut Clients,
    store: R::Store,
    recording: &Recording,
    sink: &mut K,
) -> (Load<R>, Result<(), FeedStop>)
where
    R: Runner,
    R::State: Drop,
    R::Store: Drop,
    K: Sink,
    requires host { IsHostOf core.old runner.now site.now }
    requires first { core.old.journal ≡ with_lane 0 (What.Queue 1 Work.Start 0) ∷ [] }
    requires none { clients.old.entries ≡ [] }
    requires sound { IsSound recording.now }
    ensures grows { (entries : List Entry) × (core.new ≡ grown core.old entries) }
    ensures fits { Fits R.meaning R.stands core.new 0 (run_in result.0) }
    ensures after { way.AfterAll result.1 (rules_of R.meaning core.old) recording.now.items (past_of core.new)
        (K.held sink.old) (K.held sink.new) }
    ensures passed { IfErr result.1 (spec.IsPassed (rules_of R.meaning core.old) (past_of core.new)) }
    ensures cause { HasCause FeedStop.WriteFault (K.faults sink.old) (K.faults sink.new) result.1 }
{
    let (hand, begun) = start(alloc, core, runner, site, Load::Free(store), sink);
    match begun {
        Ok(()) => {
            let fed = feed_items(alloc, core, runner, site, clients, hand, recording, sink);
            // The journal is valid.
            let _ = core.journal();
            fed
        }
        Err(stop) => (hand, Err(stop)),
    }
}

/// Feeds a host that was just made. Where the feed stops early it is wound up.
fn feed_core<R, K>(
    alloc: Global,
    core: &mut Core<R>,
    runner: &R,
    site: &R::Site,
    clients: &mut Clients,
    store: R::Store,
    recording: &Recording,
    sink: &mut K,
) -> Result<(), FeedStop>
where
    R: Runner,
    R::State: Drop,
    R::Store: Drop,
    K: Sink,
    requires host { IsHostOf core.old runner.now site.now }
    requires first { core.old.journal ≡ with_lane 0 (What.Queue 1 Work.Start 0) ∷ [] }
    requires none { clients.old.entries ≡ [] }
    requires sound { IsSound recording.now }
    ensures grows { (entries : List Entry) × (core.new ≡ grown core.old entries) }
    ensures after { way.AfterAll result (rules_of R.meaning core.old) recording.now.items (past_of core.new)
        (K.held sink.old) (K.held sink.new) }
    ensures passed { IfErr result (spec.IsPassed (rules_of R.meaning core.old) (past_of core.new)) }
    ensures wound_up { IfErr result (spec.IsWoundUp (past_of core.new)) }
    ensures cause { HasCause FeedStop.WriteFault (K.faults sink.old) (K.faults sink.new) result }
{
    let (hand, fed) = feed_host(alloc, core, runner, site, clients, store, recording, sink);
    match fed {
        Ok(()) => {
            let_go(hand);
            Ok(())
        }
        Err(stop) => {
            let stop = wind_up(core, runner, site, hand, stop);
            // The journal is valid.
            let _ = core.journal();
            Err(stop)
        }
    }
}

/// Lets a core go.
fn let_core_go<R: Runner>(_core: Core<R>) {}

/// The core, where nothing failed.
fn core_back<R: Runner>(core: Core<R>, fed: Result<(), FeedStop>) -> Result<Core<R>, FeedStop>
    ensures { way.IsHandedBack core fed result }
{
    match fed {
        Ok(()) => Ok(core),
        Err(stop) => {
            let_core_go(core);
            Err(stop)
        }
    }
}

/// Feeds a site with a recording, on lane 0, and writes the record of each answer when its run has ended.
pub fn feed<R, K>(
    alloc: Global,
    runner: &R,
    site: &R::Site,
    recording: &Recording,
    sink: &mut K,
) -> Result<Core<R>, FeedStop>
where
    R: Runner,
    R::State: Drop,
    R::Store: Drop,
    K: Sink,
    requires sound { IsSound recording.now }
    ensures core { IfOk result (way.IsCoreOf runner.now site.now (setting_of recording.now.seed recording.now.strict)) }
    ensures ok { IfOk result (λ core. spec.HasFed (rules_by (R.meaning runner.now site.now)
        (setting_of recording.now.seed recording.now.strict))
        recording.now.items (past_of core) (K.held sink.old) (K.held sink.new)) }
    ensures err { IfErr result (λ stop. way.HasNotBegun stop (K.held sink.old) (K.held sink.new)
        ⊎ ((past : List Entry) × spec.HasFedPart (rules_by (R.meaning runner.now site.now)
        (setting_of recording.now.seed recording.now.strict))
        recording.now.items past stop (K.held sink.old) (K.held sink.new))) }
    ensures cause { HasCause FeedStop.WriteFault (K.faults sink.old) (K.faults sink.new) result }
{
    let store = runner.store()?;
    let mut core = match Core::new(alloc, 0, runner, site, recording.seed, recording.strict) {
        Ok(core) => core,
        Err(memory) => {
            let_go::<R>(Load::Free(store));
            return Err(FeedStop::from(memory));
        }
    };
    let mut clients = Clients::new(alloc);
    let fed = feed_core(
        alloc,
        &mut core,
        runner,
        site,
        &mut clients,
        store,
        recording,
        sink,
    );
    // The journal is valid.
    let _ = core.journal();
    core_back(core, fed)
}
