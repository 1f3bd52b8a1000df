//! The first run of a host that serves.
#![tactic(auto)]

ghost use Rattle.std.specs.Prelude.{◌≡◌, IfErr, IfOk, IfSome, IsTrue, reverse};
ghost use Rattle.asp_desk.specs.Hands.{IsHandOf, rules_at};
ghost use Rattle.asp_serve.specs.Hosts as spec;
ghost use Rattle.asp_serve.specs.Visits.{IsFreeHand, WasTooMuch};

use crate::hosting::ServeStop;
use asp_desk::{Gate, Hand, Host, Looked, Slice};
use asp_job::{EndKind, Runner};
use asp_journal::Full;
use std::sync::Wait;
use std::thread::yield_now;

/// How the first run has ended by this look, once it has and the hand is free.
fn started(looked: &Looked, free: bool) -> Option<Result<(), ServeStop>>
    ensures { IfSome result (spec.HasStarted free looked.now.start_fail) }
{
    if let Some(fail) = looked.start_fail {
        return Some(Err(ServeStop::StartFailed(fail)));
    }
    match looked.start_kind {
        Some(EndKind::Done) if free => Some(Ok(())),
        Some(EndKind::Memory | EndKind::JournalFull) => Some(Err(ServeStop::Memory)),
        _ => None,
    }
}

/// What the host ends for where something did not fit, unless the first run failed.
fn filled<Rt: Wait, R: Runner>(rt: &Rt, host: &Host<R>, hand: &mut Hand<R>, full: Full) -> ServeStop
    requires hand { IsHandOf R.meaning R.stands host.now hand.old }
    requires was { WasTooMuch (rules_at R.meaning host.now) (reverse hand.old.lane.seen) full }
    ensures hand { IsHandOf R.meaning R.stands host.now hand.new }
    ensures stop { spec.IsStop ⊥ (rules_at R.meaning host.now) result }
{
    match host.look(rt, hand).start_fail {
        Some(fail) => ServeStop::StartFailed(fail),
        None => ServeStop::JournalFull(full),
    }
}

/// A slice of the first run. Why the host ends, if it ends here.
fn slice<Rt: Wait, R: Runner, G: Gate>(
    rt: &Rt,
    host: &Host<R>,
    hand: &mut Hand<R>,
    gate: &G,
) -> Option<ServeStop>
    requires { IsHandOf R.meaning R.stands host.now hand.old }
    ensures hand { IsHandOf R.meaning R.stands host.now hand.new }
    ensures stop { IfSome result (spec.IsStop ⊥ (rules_at R.meaning host.now)) }
{
    match host.work_slice(rt, hand, gate) {
        Slice::JournalFull(full) => Some(filled(rt, host, hand, full)),
        Slice::Memory => Some(ServeStop::Memory),
        Slice::Held => {
            yield_now();
            None
        }
        Slice::Worked | Slice::Idle | Slice::Blocked { .. } => None,
    }
}

/// Takes slices until the first run has ended.
pub fn start<Rt: Wait, R: Runner, G: Gate>(
    rt: &Rt,
    host: &Host<R>,
    hand: &mut Hand<R>,
    gate: &G,
) -> Result<(), ServeStop>
    requires { IsHandOf R.meaning R.stands host.now hand.old }
    ensures hand { IfOk result (λ _. IsFreeHand R.meaning R.stands host.now hand.new) }
    ensures stop { IfErr result (spec.IsStop ⊥ (rules_at R.meaning host.now)) }
{
    for _ in rt.forever() {
        let looked = host.look(rt, hand);
        if let Some(done) = started(&looked, hand.run().is_none()) {
            return done;
        }
        if let Some(stop) = slice(rt, host, hand, gate) {
            return Err(stop);
        }
    }
    unreachable!()
}
