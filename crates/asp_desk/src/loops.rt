//! Slices one after another.
#![tactic(auto)]

ghost use Rattle.std.specs.Prelude.{◌≡◌, ℕ, IfNone, IfSome};
ghost use Rattle.asp_desk.specs.Hands.{IsHandOf};
ghost use Rattle.asp_desk.specs.Loops as spec;
ghost use Rattle.asp_desk.specs.Working.{AddsWork};

use crate::bell::Rung;
use crate::gate::Gate;
use crate::hand::Hand;
use crate::host::HostOf;
use crate::looking::Looked;
use crate::slices::Slice;
use crate::stands::Placed;
use asp_job::Runner;
use std::sync::Wait;
use std::thread::yield_now;

/// Whether nothing is left to do.
fn is_over(looked: &Looked) -> bool
    ensures { result ≡ spec.is_over looked.now }
{
    (looked.stopping && looked.waiting == 0 || looked.halted) && looked.unfinished == 0
}

impl<R: Runner> HostOf<Placed<R>, R, R::Site> {
    /// Looks whether nothing is left to do, and sleeps where something is.
    fn rest<Rt: Wait>(&self, rt: &Rt, hand: &mut Hand<R>, rung: Rung) -> bool
        requires { IsHandOf R.meaning R.stands self.now hand.old }
        ensures hand { IsHandOf R.meaning R.stands self.now hand.new }
        ensures look { (looked : Looked) × spec.IsLook R.pace R.meaning R.stands self.now hand.old looked hand.new
            × (result ≡ spec.is_over looked) }
    {
        let looked = self.look(rt, hand);
        let over = is_over(&looked);
        if !over {
            self.bell.sleep_in_loop(rt, rung);
        }
        over
    }

    /// A slice, and where no run may begin a look. What the loop comes to, if it ends here.
    fn round<Rt: Wait, G: Gate>(&self, rt: &Rt, hand: &mut Hand<R>, gate: &G) -> Option<Slice>
        requires { IsHandOf R.meaning R.stands self.now hand.old }
        ensures hand { IsHandOf R.meaning R.stands self.now hand.new }
        ensures goes { IfNone result ((count : ℕ) × spec.AreRounds R.pace R.meaning R.stands self.now
            (G.may_hold gate.now) count hand.old hand.new) }
        ensures ends { IfSome result (λ came_to. spec.HasLooped R.pace R.meaning R.stands self.now
            (G.may_hold gate.now) hand.old came_to hand.new) }
    {
        let rung = self.bell.rung();
        match self.work_slice(rt, hand, gate) {
            Slice::Worked => None,
            Slice::Held => {
                yield_now();
                None
            }
            Slice::Blocked { holder: _ } => {
                self.bell.sleep_blocked(rt, rung);
                None
            }
            Slice::Idle => {
                if self.rest(rt, hand, rung) {
                    Some(Slice::Idle)
                } else {
                    None
                }
            }
            Slice::JournalFull(full) => Some(Slice::JournalFull(full)),
            Slice::Memory => Some(Slice::Memory),
        }
    }

    /// Takes slices until nothing is left to do, an entry does not fit, or memory runs out before a run begins. Nothing
    /// is left, and the answer is `Idle`, where a Stop stands and no run waits or is unfinished, or a Halt and none is
    /// unfinished. Where no run may begin, or a lock keeps the run in hand out, it sleeps until another hand's call may
    /// have changed that; as it leaves it wakes all, who find out the same.
    pub fn work_loop<Rt: Wait, G: Gate>(&self, rt: &Rt, hand: &mut Hand<R>, gate: &G) -> Slice
        requires { IsHandOf R.meaning R.stands self.now hand.old }
        ensures hand { IsHandOf R.meaning R.stands self.now hand.new }
        ensures slices { spec.HasLooped R.pace R.meaning R.stands self.now (G.may_hold gate.now)
            hand.old result hand.new }
        ensures work { AddsWork hand.old.lane hand.new.lane }
    {
        for _ in rt.forever() {
            if let Some(came_to) = self.round(rt, hand, gate) {
                self.bell.ring();
                return came_to;
            }
        }
        unreachable!()
    }
}
