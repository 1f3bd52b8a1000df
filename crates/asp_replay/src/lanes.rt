//! A recording is fed to a host on which several lanes work, each in a thread of its own.
#![tactic(auto)]

ghost use Rattle.std.specs.Prelude.{◌≡◌, ◌⊎◌, ◌≤◌, ◌↔◌, [], ℕ, All, Err, IfErr, IfOk, IfSome, IsTrue, List, None, OnOk};
ghost use Rattle.std.specs.Prelude.{Option, Some, false};
ghost use Rattle.std.specs.List.{AllZip};
ghost use Rattle.turn_desk.specs.Histories.{AreOfLanes};
ghost use Rattle.asp_core.specs.Kernel.{past_of, rules_by, rules_of, setting_of};
ghost use Rattle.asp_core.specs.Ready.{IsAnswered};
ghost use Rattle.asp_desk.specs.Hands.{IsHandOf, rules_at};
ghost use Rattle.asp_desk.specs.Opening.{first_journal, new_hands};
ghost use Rattle.asp_io.specs.Faults.{HasCause};
ghost use Rattle.asp_job.specs.declared.entry.Entry.{Entry};
ghost use Rattle.asp_job.specs.Journal.{IsValidJournal};
ghost use Rattle.asp_job.specs.Runs.{unfinished};
ghost use Rattle.asp_record.specs.declared.recording.Item.{Item as ItemView};
ghost use Rattle.asp_record.specs.Recorded.{IsSound};
ghost use Rattle.asp_replay.specs.Feed.{is_full_end};
ghost use Rattle.asp_replay.specs.Near as near;
ghost use Rattle.asp_replay.specs.Underway as way;
ghost use Rattle.asp_replay.specs.Workers as spec;

use crate::beginning::begin_near;
use crate::dealing::{dealt, gathered};
use crate::leading::{Helping, Leading};
use crate::leaving::{halt_near, wind_near};
use crate::met::Met;
use crate::stop::FeedStop;
use asp_core::Core;
use asp_desk::{Crew, Gate, Hand, Host, Slice};
use asp_io::Sink;
use asp_job::{EndKind, Entry, Runner, What};
use asp_record::Recording;
use std::alloc::Global;
use std::sync::Wait;
use std::thread::Threads;
use vb_value::List as Items;

/// Lane 0 feeds and works, and the crew works beside it.
fn lead_crew<Rt, R, G, K>(
    rt: &Rt,
    alloc: Global,
    host: &Host<R>,
    hand: &mut Hand<R>,
    crew: &mut Crew<R, Slice>,
    recording: &Recording,
    gate: &G,
    sink: &mut K,
) -> Result<(), FeedStop>
where
    Rt: Threads + Wait + Sync,
    R: Runner + Sync,
    R::Site: Sync,
    R::Store: Send,
    R::State: Send,
    G: Gate + Sync,
    K: Sink,
    requires lead { near.IsLead R.meaning R.stands host.now hand.old }
    requires begun { spec.HasBegun R.meaning R.stands host.now recording.now.items hand.old }
    requires crew { All (λ worker. IsHandOf R.meaning R.stands host.now worker.hand) crew.old }
    requires sound { IsSound recording.now }
    ensures led { spec.HasLed R.meaning R.stands host.now recording.now.items hand.new result
        (K.held sink.old) (K.held sink.new) }
    ensures crew { AllZip (spec.HasHelped R.meaning R.stands host.now) crew.old crew.new }
    ensures cause { HasCause FeedStop.WriteFault (K.faults sink.old) (K.faults sink.new) result }
{
    let met = Met::new();
    let task = Helping { gate, met: &met };
    let mut lead = Leading {
        rt,
        alloc,
        host,
        gate,
        met: &met,
        recording,
        sink,
    };
    host.work_beside(rt, &task, crew, hand, &mut lead)
}

/// Leaves a host whose first run did not end well.
fn leave_begun<Rt: Wait, R: Runner, G: Gate>(
    rt: &Rt,
    host: &Host<R>,
    hand: &mut Hand<R>,
    gate: &G,
    stop: FeedStop,
)
    requires lead { near.IsLead R.meaning R.stands host.now hand.old }
    requires free { near.IsFreeThen (Err stop) hand.old.run }
    ensures lead { near.IsLead R.meaning R.stands host.now hand.new }
    ensures free { hand.new.run ≡ None }
    ensures silent { near.IsBorneOut (rules_at R.meaning host.now) (near.past_in hand.new)
        → near.GrowsSilently (near.past_in hand.old) (near.past_in hand.new) }
    ensures halted { near.IsHaltedFor stop (near.past_in hand.new) }
{
    match stop {
        FeedStop::StartFailed(_) => {}
        _ => wind_near(rt, host, hand, gate),
    }
}

/// The first run, and where it ended well the items.
fn feed_crew<Rt, R, G, K>(
    rt: &Rt,
    alloc: Global,
    host: &Host<R>,
    hand: &mut Hand<R>,
    crew: &mut Crew<R, Slice>,
    recording: &Recording,
    gate: &G,
    sink: &mut K,
) -> Result<(), FeedStop>
where
    Rt: Threads + Wait + Sync,
    R: Runner + Sync,
    R::Site: Sync,
    R::Store: Send,
    R::State: Send,
    G: Gate + Sync,
    K: Sink,
    requires lead { near.IsLead R.meaning R.stands host.now hand.old }
    requires new { hand.old.lane.seen ≡ first_journal }
    requires crew { All (spec.IsIdle R.meaning R.stands host.now) crew.old }
    requires sound { IsSound recording.now }
    ensures led { spec.HasLed R.meaning R.stands host.now recording.now.items hand.new result
        (K.held sink.old) (K.held sink.new) }
    ensures crew { AllZip (spec.HasHelped R.meaning R.stands host.now) crew.old crew.new }
    ensures cause { HasCause FeedStop.WriteFault (K.faults sink.old) (K.faults sink.new) result }
{
    match begin_near(rt, host, hand, gate) {
        Ok(()) => lead_crew(rt, alloc, host, hand, crew, recording, gate, sink),
        Err(stop) => {
            leave_begun(rt, host, hand, gate, stop);
            Err(stop)
        }
    }
}

/// The stop of a loop that ended early.
fn stop_of(slice: Slice) -> Option<FeedStop>
    ensures { result ≡ spec.stop_of slice }
{
    match slice {
        Slice::JournalFull(full) => Some(FeedStop::JournalFull(full)),
        Slice::Memory => Some(FeedStop::Memory),
        _ => None,
    }
}

/// That of the first of the loops that did.
fn first_stop(mut made: &[Slice]) -> Option<FeedStop>
    ensures { result ≡ spec.first_stop made.entry.now }
{
    while let [one, rest @ ..] = made {
        if let Some(stop) = stop_of(*one) {
            return Some(stop);
        }
        made = rest;
    }
    None
}

/// What lane 0 left so, once the others have. Where one of them ended early the host is halted.
fn settle<Rt: Wait, R: Runner>(
    rt: &Rt,
    host: &Host<R>,
    hand: &mut Hand<R>,
    told: Result<(), FeedStop>,
    early: bool,
) -> Result<(), FeedStop>
    requires { near.IsLead R.meaning R.stands host.now hand.old }
    ensures lead { near.IsLead R.meaning R.stands host.now hand.new }
    ensures run { hand.new.run ≡ hand.old.run }
    ensures leaves { (items : List ItemView) (before after : Option (List ℕ))
        → near.IsBorneOut (rules_at R.meaning host.now) (near.past_in hand.new)
        → (near.IsBorneOut (rules_at R.meaning host.now) (near.past_in hand.old)
        → near.LeavesBy told (rules_at R.meaning host.now) items (near.past_in hand.old) before after)
        → near.LeavesBy result (rules_at R.meaning host.now) items (near.past_in hand.new) before after }
    ensures fault { result ≡ Err FeedStop.WriteFault → told ≡ Err FeedStop.WriteFault }
{
    if !early {
        return told;
    }
    halt_near(rt, host, hand);
    match told {
        Ok(()) => Err(FeedStop::Memory),
        Err(stop) => Err(stop),
    }
}

/// Whether the entry ends a run for which the journal was full.
fn ends_full(entry: &Entry) -> bool
    ensures { result ≡ is_full_end entry.now.what }
{
    matches!(
        entry.what,
        What::End {
            kind: EndKind::JournalFull,
            ..
        }
    )
}

/// Whether none does.
fn none_is_full(entries: &[Entry]) -> bool
    ensures { IsTrue result ↔ All (λ entry. is_full_end entry.what ≡ false) entries.now }
{
    entries.iter().all(|entry| !ends_full(entry))
}

/// Lets a core go.
fn let_core_go<R: Runner>(_core: Core<R>) {}

/// Why a feed stops that lane 0 left so, where this is what another lane ended early for.
fn stop_with<R: Runner>(core: &Core<R>, stop: FeedStop, early: Option<FeedStop>) -> FeedStop
    ensures { spec.StopsWith (rules_of R.meaning core.now) (past_of core.now) stop early result }
{
    match stop {
        FeedStop::StartFailed(_) => match core.start_fail() {
            Some(fail) => FeedStop::StartFailed(fail),
            None => FeedStop::Memory,
        },
        FeedStop::Memory => match early {
            Some(early) => early,
            None => FeedStop::Memory,
        },
        _ => stop,
    }
}

/// What becomes of the core of a host that is closed, which lane 0 left so. That no run ended because the journal was
/// full is looked up in it; if one had, the answer would be `Memory`.
fn ended<R: Runner>(
    core: Core<R>,
    told: Result<(), FeedStop>,
    early: Option<FeedStop>,
) -> Result<Core<R>, FeedStop>
    requires account { IsValidJournal (rules_of R.meaning core) (past_of core) }
    requires answered { IsAnswered (rules_of R.meaning core) (past_of core) }
    requires none_left { unfinished (past_of core) ≡ [] }
    ensures core { IfOk result (λ back. back ≡ core) }
    ensures ok { OnOk result ((items : List ItemView) (before after : Option (List ℕ))
        → near.LeavesBy told (rules_of R.meaning core) items (past_of core) before after
        → spec.HasFedBeside (rules_of R.meaning core) items (past_of core) before after) }
    ensures err { IfErr result (λ stop. (workers : ℕ) (items : List ItemView) (before after : Option (List ℕ))
        → near.LeavesBy told (rules_of R.meaning core) items (past_of core) before after
        → IfSome early (spec.IsEarly workers (rules_of R.meaning core) (past_of core))
        → spec.HasFedPartBeside workers (rules_of R.meaning core) items (past_of core) stop before after) }
    ensures fault { result ≡ Err FeedStop.WriteFault → (told ≡ Err FeedStop.WriteFault)
        ⊎ (early ≡ Some FeedStop.WriteFault) }
{
    match told {
        Ok(()) => {
            if none_is_full(core.journal()) {
                return Ok(core);
            }
            let_core_go(core);
            Err(FeedStop::Memory)
        }
        Err(stop) => {
            let stop = stop_with(&core, stop, early);
            let_core_go(core);
            Err(stop)
        }
    }
}

/// Feeds a host that was just made, and closes it.
fn feed_hands<Rt, R, G, K>(
    rt: &Rt,
    alloc: Global,
    host: Host<R>,
    hands: Items<Hand<R>>,
    recording: &Recording,
    gate: &G,
    sink: &mut K,
) -> Result<Core<R>, FeedStop>
where
    Rt: Threads + Wait + Sync,
    R: Runner + Sync + Drop,
    R::Site: Sync + Drop,
    R::Store: Send + Drop,
    R::State: Send + Drop,
    G: Gate + Sync,
    K: Sink,
    requires new { hands ≡ new_hands host }
    requires hands { All (λ hand. IsHandOf R.meaning R.stands host hand) hands }
    requires some { 1 ≤ host.desk.lanes }
    requires sound { IsSound recording.now }
    ensures core { IfOk result (way.IsCoreOf host.runner host.site host.setting) }
    ensures lanes { IfOk result (λ core. AreOfLanes (λ entry. entry.lane) host.desk.lanes core.journal) }
    ensures ok { IfOk result (λ core. spec.HasFedBeside (rules_at R.meaning host) recording.now.items (past_of core)
        (K.held sink.old) (K.held sink.new)) }
    ensures err { IfErr result (λ stop. way.HasNotBegun stop (K.held sink.old) (K.held sink.new)
        ⊎ ((past : List Entry) × spec.HasFedPartBeside host.desk.lanes (rules_at R.meaning host)
        recording.now.items past stop (K.held sink.old) (K.held sink.new))) }
    ensures cause { HasCause FeedStop.WriteFault (K.faults sink.old) (K.faults sink.new) result }
{
    let (mut hand, mut crew, room) = dealt(alloc, hands.into_vec())?;
    let told = feed_crew(
        rt, alloc, &host, &mut hand, &mut crew, recording, gate, sink,
    );
    let (rest, made) = crew.part();
    let early = first_stop(made.as_slice());
    let told = settle(rt, &host, &mut hand, told, early.is_some());
    match host.close(Items::from_vec(gathered(hand, rest.into_vec(), room))) {
        Ok((core, _runner, _site)) => {
            // The journal is valid, and the answers are those of pages.
            let _ = core.journal();
            ended(core, told, early)
        }
        Err(_back) => unreachable!(),
    }
}

/// Feeds a site with a recording, by so many lanes, and writes the record of each answer when its run has ended. Lane 0,
/// that of the calling thread, feeds, works and writes; the others work, each in a thread of its own, once the first run
/// has ended well. Each run passes the gate.
pub fn feed_with<Rt, R, G, K>(
    rt: &Rt,
    alloc: Global,
    runner: R,
    site: R::Site,
    recording: &Recording,
    gate: &G,
    workers: u32,
    sink: &mut K,
) -> Result<Core<R>, FeedStop>
where
    Rt: Threads + Wait + Sync,
    R: Runner + Sync + Drop,
    R::Site: Sync + Drop,
    R::Store: Send + Drop,
    R::State: Send + Drop,
    G: Gate + Sync,
    K: Sink,
    requires sound { IsSound recording.now }
    requires workers { (1 ≤ workers) × (workers ≤ 32) }
    ensures core { IfOk result (way.IsCoreOf runner site (setting_of recording.now.seed recording.now.strict)) }
    ensures lanes { IfOk result (λ core. AreOfLanes (λ entry. entry.lane) workers core.journal) }
    ensures ok { IfOk result (λ core. spec.HasFedBeside (rules_by (R.meaning runner site)
        (setting_of recording.now.seed recording.now.strict))
        recording.now.items (past_of core) (K.held sink.old) (K.held sink.new)) }
    ensures err { IfErr result (λ stop. way.HasNotBegun stop (K.held sink.old) (K.held sink.new)
        ⊎ ((past : List Entry) × spec.HasFedPartBeside workers (rules_by (R.meaning runner site)
        (setting_of recording.now.seed recording.now.strict))
        recording.now.items past stop (K.held sink.old) (K.held sink.new))) }
    ensures cause { HasCause FeedStop.WriteFault (K.faults sink.old) (K.faults sink.new) result }
{
    match Host::new(
        alloc,
        runner,
        site,
        recording.seed,
        recording.strict,
        workers,
    ) {
        Ok((host, hands)) => feed_hands(rt, alloc, host, hands, recording, gate, sink),
        Err(_back) => Err(FeedStop::Memory),
    }
}
