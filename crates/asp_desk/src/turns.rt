//! How a hand comes to its turn, and gives it back.
#![tactic(auto)]

ghost use Rattle.std.specs.Prelude.{◌≡◌, ◌<◌, ◌^◌, length, Some};
ghost use Rattle.turn_desk.specs.Histories.{GrowsBy, own_part};
ghost use Rattle.turn_desk.specs.Shown.{IsLaneOf, LaneFits};
ghost use Rattle.asp_desk.specs.Hands.{Holds, IsHandOf, IsSameHouse, core_at};
ghost use Rattle.asp_desk.specs.Turns.{LeavesRuns};

use crate::hand::Hand;
use crate::host::HostOf;
use crate::stands::Placed;
use asp_job::Runner;
use std::sync::Wait;
use turn_desk::Turn;

impl<R: Runner> HostOf<Placed<R>, R, R::Site> {
    /// A turn of the hand's lane, and the lane's number. What the hand holds is still what it was.
    pub(crate) fn open<Rt: Wait>(&self, rt: &Rt, hand: &mut Hand<R>) -> (u32, Turn<'_, Placed<R>>)
        requires lane { IsLaneOf self.now.desk hand.old.lane }
        requires holds { Holds R.meaning R.stands
            (core_at self.now hand.old.lane.seen) hand.old.lane.number hand.old.run }
        ensures number { (result.0 ≡ hand.old.lane.number) × (result.1.number ≡ hand.old.lane.number) }
        ensures lane { (result.1.desk ≡ hand.old.lane.desk) × (result.1.fixed ≡ hand.old.lane.fixed) }
        ensures fits { LaneFits (λ entry. entry.lane) result.1.seen hand.old.lane }
        ensures core { result.1.state.core ≡ core_at self.now result.1.seen }
        ensures holds { Holds R.meaning R.stands (core_at self.now result.1.seen) hand.old.lane.number hand.old.run }
        ensures run { hand.new.run ≡ hand.old.run }
    {
        let Some(lane) = hand.lane.take() else {
            unreachable!()
        };
        let number = lane.number();
        let mut turn = self.desk.take(rt, lane);
        turn.state().check();
        (number, turn)
    }

    /// Gives a turn back. What the lane then holds is what is in the hand.
    pub(crate) fn shut(&self, hand: &mut Hand<R>, turn: Turn<'_, Placed<R>>)
        requires fixed { turn.fixed ≡ Some self.now.desk.fixed }
        requires house { IsSameHouse (core_at self.now turn.seen) turn.state.core }
        requires grows { GrowsBy (λ entry. entry.lane) turn.number turn.seen turn.state.core.journal }
        requires short { length turn.state.core.journal < 2 ^ 32 }
        ensures seen { hand.new.lane.seen ≡ turn.entry.state.core.journal }
        ensures own { hand.new.lane.own
            ≡ own_part (λ entry. entry.lane) turn.entry.number turn.entry.state.core.journal }
        ensures lane { (hand.new.lane.desk ≡ turn.entry.desk) × (hand.new.lane.number ≡ turn.entry.number)
            × (hand.new.lane.fixed ≡ turn.entry.fixed) }
        ensures run { hand.new.run ≡ hand.old.run }
    {
        // What the host's desk was made with is known from here on.
        let _lanes = self.lanes;
        let lane = turn.give();
        hand.lane = Some(lane);
    }

    /// Gives a turn back that has left runs as they were.
    pub(crate) fn shut_event(&self, hand: &mut Hand<R>, turn: Turn<'_, Placed<R>>)
        requires desk { (turn.desk ≡ self.now.desk.id) × (turn.fixed ≡ Some self.now.desk.fixed) }
        requires leaves { LeavesRuns R.meaning R.stands self.now turn.number turn.seen turn.state.core hand.old.run }
        ensures hand { IsHandOf R.meaning R.stands self.now hand.new }
        ensures run { hand.new.run ≡ hand.old.run }
        ensures seen { hand.new.lane.seen ≡ turn.entry.state.core.journal }
        ensures own { hand.new.lane.own
            ≡ own_part (λ entry. entry.lane) turn.entry.number turn.entry.state.core.journal }
        ensures lane { (hand.new.lane.desk ≡ turn.entry.desk) × (hand.new.lane.number ≡ turn.entry.number)
            × (hand.new.lane.fixed ≡ turn.entry.fixed) }
    {
        self.shut(hand, turn);
    }
}
