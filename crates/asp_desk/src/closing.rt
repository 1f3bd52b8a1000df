//! How a host ends.
#![tactic(auto)]

ghost use Rattle.std.specs.Prelude.{◌≡◌, ◌↔◌, ◌≤◌, All, IfErr, IfOk, IsSome, IsTrue, None, OnErr, []};
ghost use Rattle.std.specs.Prelude.{length, map, reverse, vec_capacity};
ghost use Rattle.turn_desk.specs.Histories.{AreOfLanes};
ghost use Rattle.turn_desk.specs.Shown.{LaneFits};
ghost use Rattle.asp_job.specs.Journal.{IsValidJournal};
ghost use Rattle.asp_job.specs.Runs.{unfinished};
ghost use Rattle.asp_desk.specs.Hands.{IsHandOf, core_at, rules_at};

use crate::hand::{Hand, HandOf};
use crate::host::{Host, HostOf};
use crate::stands::Placed;
use asp_core::Core;
use asp_job::Runner;
use turn_desk::Lane;
use vb_value::List;

/// Whether no hand holds a run.
fn are_free<R: Runner>(hands: &[Hand<R>]) -> bool
    ensures { IsTrue result ↔ All (λ hand. hand.run ≡ None) hands.now }
{
    hands.iter().all(|hand| hand.run().is_none())
}

/// The lanes of hands, in their order.
fn lanes_of<R: Runner>(hands: Vec<Hand<R>>, mut lanes: Vec<Lane<Placed<R>>>) -> Vec<Lane<Placed<R>>>
where
    R::Store: Drop,
    R::State: Drop,
    requires in_hand { All (λ hand. IsSome hand.lane.fixed) hands.items }
    requires room { (lanes.items ≡ []) × (length hands.items ≤ vec_capacity lanes) }
    ensures { result.items ≡ map (λ hand. hand.lane) hands.items }
{
    for hand in hands {
        let HandOf { lane, load: _ } = hand;
        match lane {
            Some(lane) => lanes.push_reserved(lane),
            None => unreachable!(),
        }
    }
    lanes
}

impl<R: Runner> HostOf<Placed<R>, R, R::Site> {
    /// The core, and the runner and the site, once all hands are back, in any order, and hold no run. Where one is
    /// missing or holds a run, the host and the hands come back as they are. It takes no memory.
    pub fn close(
        self,
        hands: List<Hand<R>>,
    ) -> Result<(Core<R>, R, R::Site), (Host<R>, List<Hand<R>>)>
    where
        R::Store: Drop,
        R::State: Drop,
        requires { All (λ hand. IsHandOf R.meaning R.stands self hand) hands }
        ensures all { IfOk result (λ _. length hands ≡ self.desk.lanes) }
        ensures free { IfOk result (λ _. All (λ hand. hand.run ≡ None) hands) }
        ensures core { IfOk result (λ back. back.0 ≡ core_at self back.0.journal) }
        ensures given { IfOk result (λ back. (back.1 ≡ self.runner) × (back.2 ≡ self.site)) }
        ensures fits { IfOk result (λ back.
            All (λ hand. LaneFits (λ entry. entry.lane) back.0.journal hand.lane) hands) }
        ensures of_lanes { IfOk result (λ back. AreOfLanes (λ entry. entry.lane) self.desk.lanes back.0.journal) }
        ensures valid { IfOk result (λ back. IsValidJournal (rules_at R.meaning self) (reverse back.0.journal)) }
        ensures ended { IfOk result (λ back. unfinished (reverse back.0.journal) ≡ []) }

        ensures missing { OnErr result (length hands ≡ self.desk.lanes → All (λ hand. hand.run ≡ None) hands → ⊥) }
        ensures refused { IfErr result (λ back. (back.0 ≡ self) × (back.1 ≡ hands)) }
    {
        if hands.len() != self.lanes as usize || !are_free(hands.as_slice()) {
            return Err((self, hands));
        }
        let HostOf {
            desk,
            runner,
            site,
            setting: _,
            lanes: _,
            room,
            bell: _,
        } = self;
        let lanes = lanes_of(hands.into_vec(), room);
        match desk.close(List::from_vec(lanes)) {
            Ok(placed) => {
                placed.check();
                let Placed { core } = placed;
                Ok((core, runner, site))
            }
            Err(_) => unreachable!(),
        }
    }
}
