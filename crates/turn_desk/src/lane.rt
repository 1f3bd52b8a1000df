//! A lane, with which a thread takes turns.
ghost use Rattle.std.specs.Prelude.{◌≡◌};
ghost use Rattle.turn_desk.specs.Histories.{own_part};
ghost use Rattle.turn_desk.specs.Rule.{known};
ghost use Rattle.turn_desk.specs.Steps.{idle};

use crate::rule::LaneSeat;
use crate::stands::Stands;
use std::marker::Model;

/// A right to take turns, which may go to another thread. A desk of which a lane was dropped is never closed.
#[derive(Drop)]
pub struct Lane<S: Stands> {
    pub(crate) number: u32,
    pub(crate) seat: LaneSeat<S>,
}

impl<S: Stands> Model for Lane<S> {
    ghost use Rattle.turn_desk.specs.Shown.{LaneView, IsLaneSeat};
    ghost use Rattle.turn_desk.specs.Steps.{seen_of, own_of};

    ghost Value = { LaneView S.Entry S.Fixed };

    ghost view = { λ l. record {
      desk = l.seat.table_id;
      number = l.number;
      seen = seen_of l.seat.me.0.lanes;
      own = own_of l.seat.me.0.lanes;
      fixed = l.seat.me.0.fixed;
    } };

    ghost invariant = { λ l. IsLaneSeat S.lane_of l.number l.seat.me };
}

impl<S: Stands> Lane<S> {
    /// The number that the entries of this lane's turns have.
    pub fn number(&self) -> u32
        ensures number { result ≡ self.now.number }
        ensures own { self.now.own ≡ own_part S.lane_of self.now.number self.now.seen }
    {
        self.number
    }

    pub(crate) fn into_seat(self) -> LaneSeat<S>
        ensures desk { result.table_id ≡ self.desk }
        ensures seat { result.me ≡ idle (known self.number self.seen self.own) self.fixed }
        ensures own { self.own ≡ own_part S.lane_of self.number self.seen }
    {
        let Lane { number: _, seat } = self;
        seat
    }
}
