//! The steps of lane 0 at a host that it feeds, while other lanes work there.
#![tactic(auto)]

ghost use Rattle.std.specs.Prelude.{◌≡◌, ◌∷◌, [], List, Option, IfNone, IfSome, OnOk, ℕ};
ghost use Rattle.asp_core.specs.Ready.{ready};
ghost use Rattle.asp_desk.specs.Hands.{rules_at};
ghost use Rattle.asp_io.specs.Faults.{HasCause};
ghost use Rattle.asp_job.specs.Runs.{moment_of};
ghost use Rattle.asp_replay.specs.Near as spec;

use crate::stop::FeedStop;
use crate::writing::write_record;
use asp_desk::{Hand, Host};
use asp_io::Sink;
use asp_job::{Answer, Runner};
use std::alloc::Global;
use std::sync::Wait;

/// Hands out the first answer that waits, if one does.
fn first_out<Rt: Wait, R: Runner>(
    rt: &Rt,
    host: &Host<R>,
    hand: &mut Hand<R>,
) -> Option<(u32, Answer)>
    requires { spec.IsLead R.meaning R.stands host.now hand.old }
    ensures lead { spec.IsLead R.meaning R.stands host.now hand.new }
    ensures run { hand.new.run ≡ hand.old.run }
    ensures some { IfSome result (λ first. spec.IsBorneOut (rules_at R.meaning host.now) (spec.past_in hand.new)
        → spec.HasTaken (rules_at R.meaning host.now) (spec.past_in hand.old) (spec.past_in hand.new) first) }
    ensures none { IfNone result (spec.IsBorneOut (rules_at R.meaning host.now) (spec.past_in hand.new)
        → spec.HasWorked (spec.past_in hand.old) (spec.past_in hand.new)
        × (ready (rules_at R.meaning host.now) (spec.past_in hand.new) ≡ [])) }
{
    host.collect_first(rt, hand)
}

/// Hands out the first answer that waits, if one does, and writes its record. What that comes to, where none is left or
/// it was not written.
fn out_round<Rt: Wait, R: Runner, K: Sink>(
    rt: &Rt,
    alloc: Global,
    host: &Host<R>,
    hand: &mut Hand<R>,
    moment: u64,
    sink: &mut K,
) -> Option<Result<(), FeedStop>>
    requires lead { spec.IsLead R.meaning R.stands host.now hand.old }
    requires moment { spec.IsBorneOut (rules_at R.meaning host.now) (spec.past_in hand.old)
        → moment ≡ moment_of (spec.past_in hand.old) }
    ensures lead { spec.IsLead R.meaning R.stands host.now hand.new }
    ensures run { hand.new.run ≡ hand.old.run }
    ensures near { spec.IsBorneOut (rules_at R.meaning host.now) (spec.past_in hand.new)
        → spec.StaysNear (rules_at R.meaning host.now) (spec.so_far result) (spec.past_in hand.old)
        (spec.past_in hand.new) (K.held sink.old) (K.held sink.new) }
    ensures none { IfSome result (λ ended. OnOk ended
        (spec.IsBorneOut (rules_at R.meaning host.now) (spec.past_in hand.new)
        → ready (rules_at R.meaning host.now) (spec.past_in hand.new) ≡ [])) }
    ensures cause { HasCause FeedStop.WriteFault (K.faults sink.old) (K.faults sink.new) (spec.so_far result) }
{
    match first_out(rt, host, hand) {
        None => Some(Ok(())),
        Some((run, answer)) => match write_record(alloc, sink, run, moment, &answer) {
            Ok(()) => None,
            Err(stop) => Some(Err(stop)),
        },
    }
}

/// Hands out the answers that wait, in their order, and writes the record of each, until none waits.
pub fn hand_out_near<Rt: Wait, R: Runner, K: Sink>(
    rt: &Rt,
    alloc: Global,
    host: &Host<R>,
    hand: &mut Hand<R>,
    moment: u64,
    sink: &mut K,
) -> Result<(), FeedStop>
    requires lead { spec.IsLead R.meaning R.stands host.now hand.old }
    requires moment { spec.IsBorneOut (rules_at R.meaning host.now) (spec.past_in hand.old)
        → moment ≡ moment_of (spec.past_in hand.old) }
    ensures lead { spec.IsLead R.meaning R.stands host.now hand.new }
    ensures run { hand.new.run ≡ hand.old.run }
    ensures near { spec.IsBorneOut (rules_at R.meaning host.now) (spec.past_in hand.new)
        → spec.StaysNear (rules_at R.meaning host.now) result (spec.past_in hand.old) (spec.past_in hand.new)
        (K.held sink.old) (K.held sink.new) }
    ensures none { OnOk result (spec.IsBorneOut (rules_at R.meaning host.now) (spec.past_in hand.new)
        → ready (rules_at R.meaning host.now) (spec.past_in hand.new) ≡ []) }
    ensures cause { HasCause FeedStop.WriteFault (K.faults sink.old) (K.faults sink.new) result }
{
    for _ in rt.forever() {
        if let Some(ended) = out_round(rt, alloc, host, hand, moment, sink) {
            return ended;
        }
    }
    unreachable!()
}
