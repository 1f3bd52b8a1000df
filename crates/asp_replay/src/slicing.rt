//! A slice of lane 0's work, beside other lanes.
#![tactic(auto)]

ghost use Rattle.std.specs.Prelude.{◌≡◌, List, Option, ℕ, Err};
ghost use Rattle.asp_desk.specs.Hands.{rules_at};
ghost use Rattle.asp_job.specs.declared.answer.Fail.{Fail};
ghost use Rattle.asp_replay.specs.Near as spec;

use crate::stop::FeedStop;
use asp_desk::{Gate, Hand, Host, Slice};
use asp_job::Runner;
use std::sync::Wait;
use std::thread::yield_now;

/// A slice of work. Whether another may follow at once.
pub fn work_near<Rt: Wait, R: Runner, G: Gate>(
    rt: &Rt,
    host: &Host<R>,
    hand: &mut Hand<R>,
    gate: &G,
) -> Result<bool, FeedStop>
    requires { spec.IsLead R.meaning R.stands host.now hand.old }
    ensures lead { spec.IsLead R.meaning R.stands host.now hand.new }
    ensures near { (held : Option (List ℕ)) → spec.IsBorneOut (rules_at R.meaning host.now) (spec.past_in hand.new)
        → spec.StaysNear (rules_at R.meaning host.now) result (spec.past_in hand.old) (spec.past_in hand.new)
        held held }
    ensures slice { spec.IsBorneOut (rules_at R.meaning host.now) (spec.past_in hand.new)
        → spec.SlicesNear result (rules_at R.meaning host.now) (spec.past_in hand.old) (spec.past_in hand.new) }
    ensures no_fault { result ≡ Err FeedStop.WriteFault → ⊥ }
    ensures no_start { (fail : Fail) → result ≡ Err (FeedStop.StartFailed fail) → ⊥ }
{
    match host.work_slice(rt, hand, gate) {
        Slice::Worked => Ok(true),
        Slice::Held => {
            yield_now();
            Ok(true)
        }
        Slice::Blocked { holder: _ } | Slice::Idle => Ok(false),
        Slice::JournalFull(full) => Err(FeedStop::JournalFull(full)),
        Slice::Memory => Err(FeedStop::Memory),
    }
}
