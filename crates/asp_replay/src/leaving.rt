//! How lane 0 leaves a host that it fed: where not all was fed the host is halted, and the run in hand goes to its end.
#![tactic(auto)]

ghost use Rattle.std.specs.Prelude.{◌≡◌, ℕ, List, None, OnOk, Option, true};
ghost use Rattle.asp_desk.specs.Hands.{rules_at};
ghost use Rattle.asp_job.specs.Runs.{is_halted};
ghost use Rattle.asp_record.specs.declared.recording.Item.{Item as ItemView};
ghost use Rattle.asp_replay.specs.Near as spec;

use crate::stop::FeedStop;
use asp_desk::{Gate, Hand, Host};
use asp_job::Runner;
use std::sync::Wait;

/// Halts the host.
pub fn halt_near<Rt: Wait, R: Runner>(rt: &Rt, host: &Host<R>, hand: &mut Hand<R>)
    requires { spec.IsLead R.meaning R.stands host.now hand.old }
    ensures lead { spec.IsLead R.meaning R.stands host.now hand.new }
    ensures run { hand.new.run ≡ hand.old.run }
    ensures silent { spec.IsBorneOut (rules_at R.meaning host.now) (spec.past_in hand.new)
        → spec.GrowsSilently (spec.past_in hand.old) (spec.past_in hand.new) }
    ensures halted { is_halted (spec.past_in hand.new) ≡ true }
{
    host.halt(rt, hand);
}

/// Halts the host, and takes the run in hand to its end.
pub fn wind_near<Rt: Wait, R: Runner, G: Gate>(
    rt: &Rt,
    host: &Host<R>,
    hand: &mut Hand<R>,
    gate: &G,
)
    requires { spec.IsLead R.meaning R.stands host.now hand.old }
    ensures lead { spec.IsLead R.meaning R.stands host.now hand.new }
    ensures free { hand.new.run ≡ None }
    ensures silent { spec.IsBorneOut (rules_at R.meaning host.now) (spec.past_in hand.new)
        → spec.GrowsSilently (spec.past_in hand.old) (spec.past_in hand.new) }
    ensures halted { is_halted (spec.past_in hand.new) ≡ true }
{
    halt_near(rt, host, hand);
    let _ = host.work_loop(rt, hand, gate);
}

/// Leaves a host that was fed so.
pub fn leave<Rt: Wait, R: Runner, G: Gate>(
    rt: &Rt,
    host: &Host<R>,
    hand: &mut Hand<R>,
    gate: &G,
    fed: Result<(), FeedStop>,
) -> Result<(), FeedStop>
    requires lead { spec.IsLead R.meaning R.stands host.now hand.old }
    requires free { OnOk fed (hand.old.run ≡ None) }
    ensures lead { spec.IsLead R.meaning R.stands host.now hand.new }
    ensures free { hand.new.run ≡ None }
    ensures borne { spec.IsBorneOut (rules_at R.meaning host.now) (spec.past_in hand.new)
        → spec.IsBorneOut (rules_at R.meaning host.now) (spec.past_in hand.old) }
    ensures told { result ≡ fed }
    ensures leaves { (items : List ItemView) (before after : Option (List ℕ))
        → spec.IsBorneOut (rules_at R.meaning host.now) (spec.past_in hand.new)
        → spec.FedNear fed (rules_at R.meaning host.now) items (spec.past_in hand.old) before after
        → spec.LeavesBy result (rules_at R.meaning host.now) items (spec.past_in hand.new) before after }
{
    match fed {
        Ok(()) => Ok(()),
        Err(stop) => {
            wind_near(rt, host, hand, gate);
            Err(stop)
        }
    }
}
