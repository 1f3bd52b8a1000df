//! The first run of a host that a recording is fed to. No other lane works before it has ended.
#![tactic(auto)]

ghost use Rattle.std.specs.Prelude.{◌≡◌, Err, IfSome, true};
ghost use Rattle.asp_desk.specs.Hands.{rules_at};
ghost use Rattle.asp_replay.specs.Near as spec;

use crate::slicing::work_near;
use crate::stop::FeedStop;
use asp_desk::{Gate, Hand, Host, Looked};
use asp_job::{EndKind, Runner};
use std::sync::Wait;

/// How the first run has ended by this look, once it has and the hand is free.
fn started(looked: &Looked, free: bool) -> Option<Result<(), FeedStop>>
    ensures done { IfSome result (λ done. spec.StartedBy done looked.now) }
    ensures free { IfSome result (λ done. free ≡ true) }
{
    if !free {
        return None;
    }
    match looked.start_kind {
        None => None,
        Some(EndKind::Done) => match looked.start_fail {
            None => Some(Ok(())),
            Some(fail) => Some(Err(FeedStop::StartFailed(fail))),
        },
        Some(_) => Some(Err(FeedStop::Memory)),
    }
}

/// A slice of the first run, if it has not ended. What the run came to, if it ends here.
fn begin_round<Rt: Wait, R: Runner, G: Gate>(
    rt: &Rt,
    host: &Host<R>,
    hand: &mut Hand<R>,
    gate: &G,
) -> Option<Result<(), FeedStop>>
    requires { spec.IsLead R.meaning R.stands host.now hand.old }
    ensures lead { spec.IsLead R.meaning R.stands host.now hand.new }
    ensures goes { spec.IsBorneOut (rules_at R.meaning host.now) (spec.past_in hand.new)
        → spec.GoesOn result (rules_at R.meaning host.now) (spec.past_in hand.old) (spec.past_in hand.new) }
    ensures free { IfSome result (λ done. spec.IsFreeThen done hand.new.run) }
    ensures no_fault { IfSome result (λ done. done ≡ Err FeedStop.WriteFault → ⊥) }
{
    let looked = host.look(rt, hand);
    if let Some(done) = started(&looked, hand.run().is_none()) {
        return Some(done);
    }
    match work_near(rt, host, hand, gate) {
        Ok(_) => None,
        Err(stop) => Some(Err(stop)),
    }
}

/// Takes the first run to its end.
pub fn begin_near<Rt: Wait, R: Runner, G: Gate>(
    rt: &Rt,
    host: &Host<R>,
    hand: &mut Hand<R>,
    gate: &G,
) -> Result<(), FeedStop>
    requires { spec.IsLead R.meaning R.stands host.now hand.old }
    ensures lead { spec.IsLead R.meaning R.stands host.now hand.new }
    ensures starts { spec.IsBorneOut (rules_at R.meaning host.now) (spec.past_in hand.new)
        → spec.Starts result (rules_at R.meaning host.now) (spec.past_in hand.old) (spec.past_in hand.new) }
    ensures free { spec.IsFreeThen result hand.new.run }
    ensures no_fault { result ≡ Err FeedStop.WriteFault → ⊥ }
{
    for _ in rt.forever() {
        if let Some(done) = begin_round(rt, host, hand, gate) {
            return done;
        }
    }
    unreachable!()
}
