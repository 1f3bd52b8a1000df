//! How a lane comes to its turn: it draws a ticket, and waits until that is served.
ghost use Rattle.std.specs.Prelude.{◌≡◌, ℕ, ◌<◌, ◌%◌, ◌^◌, length, IfSome, IfNone};
ghost use Rattle.turn_desk.specs.Steps.{with_ticket, IsIdle, IsWaiting, TakesTurn};
ghost use Rattle.turn_desk.specs.Shown.{IsLaneOf, LaneFits};

use crate::desk::{Desk, SERVING, TICKET};
use crate::lane::Lane;
use crate::rule::{Draw, LaneSeat, Look};
use crate::stands::Stands;
use crate::turn::Turn;
use std::hint::spin_loop;
use std::sync::Wait;

/// How often a lane whose turn is near looks before it sleeps. With 100 looks four lanes on four processors slept through
/// each other's turns; with 5,000 sixteen lanes kept one another from the processors.
const LOOKS: u32 = 1000;

/// How many turns before its own a sleeping lane is woken, to look for it.
pub(crate) const AHEAD: u32 = 2;

impl<S: Stands> Desk<S> {
    // Draws a ticket, of which the lane holds the low half.
    fn draw(&self, seat: &mut LaneSeat<S>) -> u32
        requires desk { seat.old.table_id ≡ self.now.id }
        requires seat { IsIdle seat.old.me }
        ensures desk { seat.new.table_id ≡ seat.old.table_id }
        ensures ticket { (t : ℕ) × (result ≡ t % 2 ^ 32)
            × (seat.new.me ≡ (with_ticket seat.old.me.0 t, seat.old.me.1)) }
    {
        let ticket = self.table.shared.fetch_add::<Draw>(seat, TICKET, 1);
        (ticket % (1 << 32)) as u32
    }

    // The state, if the turn has come.
    fn look(&self, seat: &mut LaneSeat<S>, ticket: u32) -> Option<S>
        requires desk { seat.old.table_id ≡ self.now.id }
        requires seat { IsWaiting ticket seat.old.me }
        ensures desk { seat.new.table_id ≡ seat.old.table_id }
        ensures some { IfSome result (λ state. TakesTurn S.lane_of S.entries S.fixed seat.old.me state seat.new.me) }
        ensures none { IfNone result (seat.new.me ≡ seat.old.me) }
    {
        let shared = &self.table.shared;
        let found = shared.load::<Look>(seat, SERVING);
        if found % (1 << 32) == u64::from(ticket) {
            shared.exchange(seat, 0, None)
        } else {
            None
        }
    }

    // How often a lane looks: a lane whose turn is far away looks once.
    fn looks(&self, ticket: u32) -> u32 {
        let served = (self.table.shared.peek(SERVING) % (1 << 32)) as u32;
        if ticket.wrapping_sub(served) <= AHEAD {
            LOOKS
        } else {
            1
        }
    }

    // The state, if the turn comes while the lane looks.
    fn watch(&self, seat: &mut LaneSeat<S>, ticket: u32) -> Option<S>
        requires desk { seat.old.table_id ≡ self.now.id }
        requires seat { IsWaiting ticket seat.old.me }
        ensures desk { seat.new.table_id ≡ seat.old.table_id }
        ensures some { IfSome result (λ state. TakesTurn S.lane_of S.entries S.fixed seat.old.me state seat.new.me) }
        ensures none { IfNone result (seat.new.me ≡ seat.old.me) }
    {
        for _ in 0..self.looks(ticket) {
            if let Some(state) = self.look(seat, ticket) {
                return Some(state);
            }
            spin_loop();
        }
        None
    }

    // The state, once the turn has come.
    fn wait<R: Wait>(&self, rt: &R, seat: &mut LaneSeat<S>, ticket: u32) -> S
        requires desk { seat.old.table_id ≡ self.now.id }
        requires seat { IsWaiting ticket seat.old.me }
        ensures desk { seat.new.table_id ≡ seat.old.table_id }
        ensures state { TakesTurn S.lane_of S.entries S.fixed seat.old.me result seat.new.me }
    {
        for _ in rt.forever() {
            if let Some(state) = self.watch(seat, ticket) {
                return state;
            }
            self.sleeper(ticket).park(rt);
        }
        unreachable!()
    }

    /// Waits until the lane's turn has come. The others wait until it is given back.
    pub fn take<R: Wait>(&self, rt: &R, lane: Lane<S>) -> Turn<'_, S>
        requires { IsLaneOf self.now lane }
        ensures lane { (result.desk ≡ lane.desk) × (result.number ≡ lane.number) × (result.fixed ≡ lane.fixed) }

        // The history begins with all that the lane has seen, and has of the lane just its own entries.
        ensures fits { LaneFits S.lane_of result.seen lane × (result.own ≡ lane.own) }

        ensures state { (S.entries result.state ≡ result.seen) × (S.fixed result.state ≡ self.now.fixed) }
        ensures short { length result.seen < 2 ^ 32 }
    {
        let Lane { number, mut seat } = lane;
        let ticket = self.draw(&mut seat);
        let state = self.wait(rt, &mut seat, ticket);
        Turn {
            desk: self,
            number,
            ticket,
            seat,
            state,
        }
    }
}
