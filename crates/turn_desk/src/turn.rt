//! A turn: one lane has the state.
ghost use Rattle.std.specs.Prelude.{◌≡◌, ◌<◌, ◌^◌, length, Some, None};
ghost use Rattle.std.specs.Borrow.{sem};
ghost use Rattle.turn_desk.specs.Histories.{GrowsBy, own_part};
ghost use Rattle.turn_desk.specs.Turns.{LendsState};

use crate::desk::{Desk, SERVING, TICKET};
use crate::lane::Lane;
use crate::rule::{LaneSeat, Raise};
use crate::stands::Stands;
use crate::taking::AHEAD;
use std::marker::Model;

/// The state, until it is given back. It can't be dropped: it ends in `give`, so no `?` may stand before that.
pub struct Turn<'a, S: Stands> {
    pub(crate) desk: &'a Desk<S>,
    pub(crate) number: u32,
    pub(crate) ticket: u32,
    pub(crate) seat: LaneSeat<S>,
    pub(crate) state: S,
}

impl<'a, S: Stands> Model for Turn<'a, S> {
    ghost use Rattle.std.specs.Prelude.{◌≡◌};
    ghost use Rattle.turn_desk.specs.Shown.{TurnView, IsTurnSeat};
    ghost use Rattle.turn_desk.specs.Steps.{seen_of, own_of};

    ghost Value = { TurnView S S.Entry S.Fixed };

    ghost view = { λ t. record {
      desk = t.seat.table_id;
      number = t.number;
      seen = seen_of t.seat.me.0.lanes;
      own = own_of t.seat.me.0.lanes;
      fixed = t.seat.me.0.fixed;
      state = t.state;
    } };

    ghost invariant = { λ t. (t.seat.table_id ≡ t.desk.now.id) × IsTurnSeat S.lane_of t.number t.ticket t.seat.me };
}

impl<'a, S: Stands> Turn<'a, S> {
    /// The state, to be read and changed.
    pub fn state(&mut self) -> &mut S
        ensures* writes_back { sem 𝓛 (LendsState S.row S.Entry.row S.Fixed.row S.Stands self.entry result) }
        ensures state { result.now ≡ self.old.state }
    {
        &mut self.state
    }

    /// Gives the state back, and the turn to the next ticket.
    pub fn give(self) -> Lane<S>
        requires fixed { Some (S.fixed self.state) ≡ self.fixed }
        requires grows { GrowsBy S.lane_of self.number self.seen (S.entries self.state) }
        requires short { length (S.entries self.state) < 2 ^ 32 }
        ensures lane { (result.desk ≡ self.entry.desk) × (result.number ≡ self.entry.number)
            × (result.fixed ≡ self.entry.fixed) }
        ensures seen { result.seen ≡ S.entries self.entry.state }
        ensures own { result.own ≡ own_part S.lane_of self.entry.number (S.entries self.entry.state) }
    {
        let Turn {
            desk,
            number,
            ticket,
            mut seat,
            state,
        } = self;
        let long = state.length();
        let shared = &desk.table.shared;
        match shared.exchange(&mut seat, 0, Some(state)) {
            None => {}
            Some(_) => unreachable!(),
        }
        let next = ticket.wrapping_add(1);
        let serving = (long << 32) + u64::from(next);
        shared.store::<Raise>(&mut seat, SERVING, serving);
        desk.wake(next);
        Lane { number, seat }
    }
}

impl<S: Stands> Desk<S> {
    // Wakes the lane whose ticket is served now and the one whose turn is near, if they are out. Who draws a ticket later
    // finds what is served.
    fn wake(&self, served: u32) {
        let drawn = (self.table.shared.peek(TICKET) % (1 << 32)) as u32;
        let out = drawn.wrapping_sub(served);
        if out > 0 {
            self.sleeper(served).unpark();
        }
        if out > AHEAD {
            self.sleeper(served.wrapping_add(AHEAD)).unpark();
        }
    }
}
