//! How a desk ends.
ghost use Rattle.std.specs.Prelude.{◌≡◌, ◌≢◌, ℕ, ◌<◌, ◌∷◌, length, map, IfOk, IfErr, All, []};
ghost use Rattle.turn_desk.specs.declared.view.Stage.TheVariants.{Idle};
ghost use Rattle.turn_desk.specs.Histories.{AreOfLanes, Every, own_part};
ghost use Rattle.turn_desk.specs.Rule.{known, times_seated, view, KnownFits};
ghost use Rattle.turn_desk.specs.Steps.{IsAtRest};
ghost use Rattle.turn_desk.specs.Shown.{AreAll, HasOwn, IsLaneOf, LaneFits, lane_view};

use crate::desk::Desk;
use crate::lane::Lane;
use crate::rule::{Gather, LaneSeat};
use crate::stands::Stands;
use vb_value::List;

impl<S: Stands> Desk<S> {
    /// The state, once all lanes are back, in any order. Where one is missing, the desk and the lanes come back as they
    /// are: no other desk's lane stands for it, and none is there twice.
    pub fn close(self, lanes: List<Lane<S>>) -> Result<S, (Desk<S>, List<Lane<S>>)>
        requires { All (λ lane. IsLaneOf self lane) lanes }
        ensures all { IfOk result (λ _. length lanes ≡ self.lanes) }
        ensures fits { IfOk result (λ state. All (LaneFits S.lane_of (S.entries state)) lanes) }
        ensures numbers { IfOk result (λ _. AreAll self.lanes lanes) }
        ensures own { IfOk result (λ _. All (HasOwn S.lane_of) lanes) }
        ensures of_lanes { IfOk result (λ state. AreOfLanes S.lane_of self.lanes (S.entries state)) }
        ensures fixed { IfOk result (λ state. S.fixed state ≡ self.fixed) }

        ensures missing { IfErr result (λ back. length lanes ≢ self.lanes) }
        ensures refused { IfErr result (λ back. (back.0 ≡ self) × (back.1 ≡ lanes)) }
    {
        if lanes.len() != self.lanes as usize {
            return Err((self, lanes));
        }
        let seat = self.gather(lanes.into_vec());
        Ok(self.end(seat))
    }

    // Adds a lane to those of a seat.
    fn absorb(&self, seat: &mut LaneSeat<S>, lane: Lane<S>)
        requires desk { (seat.old.table_id ≡ self.now.id) × IsLaneOf self.now lane }
        requires seat { IsAtRest seat.old.me }
        ensures desk { seat.new.table_id ≡ seat.old.table_id }
        ensures lanes { seat.new.me
            ≡ (view (known lane.number lane.seen lane.own ∷ seat.old.me.0.lanes) Idle seat.old.me.0.fixed, []) }
        ensures own { HasOwn S.lane_of lane }
    {
        let other = lane.into_seat();
        self.table.shared.join_seat::<Gather>(seat, other);
    }

    // One seat with all of the lanes.
    #[tactic(auto, using(crate::proofs::Gathering::own_first))]
    fn gather(&self, mut lanes: Vec<Lane<S>>) -> LaneSeat<S>
        requires { All (λ lane. IsLaneOf self.now lane) lanes.items × (0 < length lanes.items) }
        ensures desk { result.table_id ≡ self.now.id }
        ensures seat { IsAtRest result.me }
        ensures lanes { map (lane_view self.now) result.me.0.lanes ≡ lanes.items }
        ensures own { Every (λ lane. lane.own ≡ own_part S.lane_of lane.number lane.seen) result.me.0.lanes }
    {
        let Some(last) = lanes.pop() else {
            unreachable!()
        };
        let mut seat = last.into_seat();
        while let Some(lane) = lanes.pop() {
            self.absorb(&mut seat, lane);
        }
        lanes.destroy_empty();
        seat
    }

    // The state, with a seat that has all lanes.
    fn end(self, seat: LaneSeat<S>) -> S
        requires desk { seat.table_id ≡ self.id }
        requires seat { IsAtRest seat.me × (length seat.me.0.lanes ≡ self.lanes) }
        ensures lanes { Every (KnownFits S.lane_of S.entries S.fixed (S.entries result)) seat.me.0.lanes }
        ensures numbers { (number : ℕ) → number < self.lanes → times_seated number seat.me.0 ≡ 1 }
        ensures state { AreOfLanes S.lane_of self.lanes (S.entries result) × (S.fixed result ≡ self.fixed) }
    {
        let Desk { table, .. } = self;
        let mut closed = table.close_with(seat);
        let state = closed.take(0);
        closed.free();
        state.unwrap()
    }
}
