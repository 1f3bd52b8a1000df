//! The rounds of lane 0, which feeds a host while other lanes work there.
#![tactic(auto)]

ghost use Rattle.std.specs.Prelude.{◌≡◌, List, Option, ℕ, Err, IfOk, IfNone, IfSome, None, OnOk, true};
ghost use Rattle.asp_desk.specs.Hands.{rules_at};
ghost use Rattle.asp_io.specs.Faults.{HasCause};
ghost use Rattle.asp_record.specs.declared.recording.Item.{Item as ItemView};
ghost use Rattle.asp_record.specs.Recorded as recorded;
ghost use Rattle.asp_replay.specs.Near as spec;

use crate::bringing::{bring, bring_stop};
use crate::coming::moment_of;
use crate::met::Met;
use crate::near::hand_out_near;
use crate::slicing::work_near;
use crate::stop::FeedStop;
use asp_desk::{Gate, Hand, Host, Looked, Rung};
use asp_feed::Clients;
use asp_io::Sink;
use asp_job::{MOST_WAITING, Runner};
use asp_record::{Item, Recording};
use std::alloc::Global;
use std::sync::Wait;

/// Whether no run waits and none is unfinished, by this look.
fn is_calm(looked: &Looked) -> bool
    ensures { result ≡ spec.calm_by looked.now }
{
    looked.waiting == 0 && looked.unfinished == 0
}

/// Whether a host is done by this look, where nothing is under way: a Stop stands, and the hand is free.
fn is_done(looked: &Looked, free: bool) -> bool
    ensures stopping { result ≡ true → looked.now.stopping ≡ true }
    ensures free { result ≡ true → free ≡ true }
    ensures done { looked.now.stopping ≡ true → free ≡ true → result ≡ true }
{
    looked.stopping && free
}

/// Whether an item of this moment may come, by this look.
fn may_come(looked: &Looked, moment: u64) -> bool
    ensures { result ≡ spec.may_by looked.now moment }
{
    looked.start_kind.is_some()
        && (moment <= looked.moment || is_calm(looked))
        && looked.waiting_pages < MOST_WAITING as u32
}

/// What lane 0 does after a look and the hand-outs behind it: the next item comes, where it may; once all came and
/// nothing is under way the host stops; else the hand works, and sleeps where it can't until the bell has rung more
/// often than so many times. What is left of the items, none where all were fed.
fn act<'a, Rt: Wait, R: Runner, G: Gate>(
    rt: &Rt,
    alloc: Global,
    host: &Host<R>,
    hand: &mut Hand<R>,
    gate: &G,
    clients: &mut Clients,
    items: &'a [Item],
    looked: &Looked,
    rung: Rung,
) -> Result<Option<&'a [Item]>, FeedStop>
    requires lead { spec.IsLead R.meaning R.stands host.now hand.old }
    requires items { (now : ℕ) × recorded.AreItems now items.now }
    requires looked { spec.IsBorneOut (rules_at R.meaning host.now) (spec.past_in hand.old)
        → spec.IsSeen (rules_at R.meaning host.now) looked.now (spec.past_in hand.old) }
    ensures lead { spec.IsLead R.meaning R.stands host.now hand.new }
    ensures items { IfOk result (λ left. IfSome left (λ left. (now : ℕ) × recorded.AreItems now left.now)) }
    ensures free { IfOk result (λ left. IfNone left (hand.new.run ≡ None)) }
    ensures borne { spec.IsBorneOut (rules_at R.meaning host.now) (spec.past_in hand.new)
        → spec.IsBorneOut (rules_at R.meaning host.now) (spec.past_in hand.old) }
    ensures near { (all : List ItemView) (before held : Option (List ℕ))
        → spec.IsBorneOut (rules_at R.meaning host.now) (spec.past_in hand.new)
        → spec.IsNear (rules_at R.meaning host.now) all (spec.past_in hand.old) clients.old.entries items.now before held
        → spec.RoundNear result (rules_at R.meaning host.now) all (spec.past_in hand.new) clients.new.entries before
        held }
    ensures no_fault { result ≡ Err FeedStop.WriteFault → ⊥ }
{
    match items.split_first() {
        Some((next, rest)) if may_come(looked, moment_of(next)) => {
            bring(rt, alloc, host, hand, clients, next)?;
            Ok(Some(rest))
        }
        None if is_calm(looked) => {
            if is_done(looked, hand.run().is_none()) {
                return Ok(None);
            }
            bring_stop(rt, host, hand)?;
            Ok(Some(items))
        }
        _ => {
            if !work_near(rt, host, hand, gate)? {
                host.sleep(rt, hand, rung);
            }
            Ok(Some(items))
        }
    }
}

/// A look, the hand-outs behind it, and what lane 0 does then. What is left of the items, none where all were fed. Where
/// another lane has met an end of its own it ends too.
fn round<'a, Rt: Wait, R: Runner, G: Gate, K: Sink>(
    rt: &Rt,
    alloc: Global,
    host: &Host<R>,
    hand: &mut Hand<R>,
    gate: &G,
    met: &Met,
    clients: &mut Clients,
    items: &'a [Item],
    sink: &mut K,
) -> Result<Option<&'a [Item]>, FeedStop>
    requires lead { spec.IsLead R.meaning R.stands host.now hand.old }
    requires items { (now : ℕ) × recorded.AreItems now items.now }
    ensures lead { spec.IsLead R.meaning R.stands host.now hand.new }
    ensures items { IfOk result (λ left. IfSome left (λ left. (now : ℕ) × recorded.AreItems now left.now)) }
    ensures free { IfOk result (λ left. IfNone left (hand.new.run ≡ None)) }
    ensures borne { spec.IsBorneOut (rules_at R.meaning host.now) (spec.past_in hand.new)
        → spec.IsBorneOut (rules_at R.meaning host.now) (spec.past_in hand.old) }
    ensures near { (all : List ItemView) (before : Option (List ℕ))
        → spec.IsBorneOut (rules_at R.meaning host.now) (spec.past_in hand.new)
        → spec.IsNear (rules_at R.meaning host.now) all (spec.past_in hand.old) clients.old.entries items.now before
        (K.held sink.old)
        → spec.RoundNear result (rules_at R.meaning host.now) all (spec.past_in hand.new) clients.new.entries before
        (K.held sink.new) }
    ensures cause { HasCause FeedStop.WriteFault (K.faults sink.old) (K.faults sink.new) result }
{
    let rung = host.rung();
    let looked = host.look(rt, hand);
    hand_out_near(rt, alloc, host, hand, looked.moment, sink)?;
    if met.is_met() {
        return Err(FeedStop::Memory);
    }
    act(rt, alloc, host, hand, gate, clients, items, &looked, rung)
}

/// Feeds the items of a recording to a host whose first run has ended well, until all were fed and nothing is under way.
pub fn feed_near<Rt: Wait, R: Runner, G: Gate, K: Sink>(
    rt: &Rt,
    alloc: Global,
    host: &Host<R>,
    hand: &mut Hand<R>,
    gate: &G,
    met: &Met,
    clients: &mut Clients,
    recording: &Recording,
    sink: &mut K,
) -> Result<(), FeedStop>
    requires lead { spec.IsLead R.meaning R.stands host.now hand.old }
    requires sound { recorded.IsSound recording.now }
    ensures lead { spec.IsLead R.meaning R.stands host.now hand.new }
    ensures free { OnOk result (hand.new.run ≡ None) }
    ensures borne { spec.IsBorneOut (rules_at R.meaning host.now) (spec.past_in hand.new)
        → spec.IsBorneOut (rules_at R.meaning host.now) (spec.past_in hand.old) }
    ensures near { (before : Option (List ℕ))
        → spec.IsBorneOut (rules_at R.meaning host.now) (spec.past_in hand.new)
        → spec.IsNear (rules_at R.meaning host.now) recording.now.items (spec.past_in hand.old) clients.old.entries
        recording.now.items before (K.held sink.old)
        → spec.FedNear result (rules_at R.meaning host.now) recording.now.items (spec.past_in hand.new) before
        (K.held sink.new) }
    ensures cause { HasCause FeedStop.WriteFault (K.faults sink.old) (K.faults sink.new) result }
{
    let mut items = recording.items.as_slice();
    for _ in rt.forever() {
        match round(rt, alloc, host, hand, gate, met, clients, items, sink) {
            Ok(Some(left)) => items = left,
            Ok(None) => return Ok(()),
            Err(stop) => return Err(stop),
        }
    }
    unreachable!()
}
