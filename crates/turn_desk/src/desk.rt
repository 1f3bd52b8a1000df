//! The desk, and how it begins.
ghost use Rattle.std.specs.Prelude.{◌≡◌, ◌<◌, ◌≤◌, ◌^◌, length, map, IfOk, Some, [], vec_capacity};
ghost use Rattle.turn_desk.specs.declared.view.Stage.TheVariants.{Idle};
ghost use Rattle.turn_desk.specs.Histories.{AreOfLanes};
ghost use Rattle.turn_desk.specs.Rule.{view};
ghost use Rattle.turn_desk.specs.Steps.{Numbered};
ghost use Rattle.turn_desk.specs.Shown.{lane_view, new_lanes};

use crate::lane::Lane;
use crate::rule::{Deal, DeskRule, LaneSeat, Opening};
use crate::stands::Stands;
use crate::view::View;
use atomic_table::{Refused, Table};
use std::alloc::Global;
use std::array::from_fn;
use std::marker::Model;
use std::snapshot::Snapshot;
use std::thread::Parker;
use vb_value::{List, Memory};

/// The word of the tickets drawn.
pub(crate) const TICKET: usize = 0;

/// The word with the length of the history in its high half, and in its low half the turn served.
pub(crate) const SERVING: usize = 1;

/// How many places there are to sleep in. As many tickets as lanes are out at a time, one behind another, and there are at
/// most so many lanes, so that no two of them share a place.
pub(crate) const PLACES: u32 = 32;

/// One state, which lanes change in turns, in the order of their tickets. Threads share it.
#[derive(Drop)]
pub struct Desk<S: Stands> {
    pub(crate) table: Table<Option<S>, View<S::Entry, S::Fixed>, Opening<S>, DeskRule<S>, Global>,
    pub(crate) lanes: u32,
    // Where lanes sleep, each in the place of its ticket.
    pub(crate) sleepers: [Parker; PLACES as usize],
}

impl<S: Stands> Model for Desk<S> {
    ghost use Rattle.std.specs.Prelude.{◌≡◌, ◌<◌};
    ghost use Rattle.turn_desk.specs.Shown.{DeskView};

    ghost Value = { DeskView S.Fixed };

    ghost view = { λ d. record {
      id = d.table.shared.table_id;
      lanes = d.lanes;
      fixed = S.fixed d.table.shared.key.state.value;
    } };

    ghost invariant = { λ d. (d.table.shared.table_id.words ≡ 2) × (d.table.shared.table_id.slots ≡ 1)
        × (d.table.shared.key.lanes ≡ d.lanes) × (0 < d.lanes) };
}

impl<S: Stands> Desk<S> {
    // Where the lane of a ticket sleeps.
    pub(crate) fn sleeper(&self, ticket: u32) -> &Parker {
        &self.sleepers[(ticket % PLACES) as usize]
    }

    /// A desk with this state, and its lanes, numbered from 0. Where there is no memory for it, the state is dropped.
    pub fn new(alloc: Global, state: S, lanes: u32) -> Result<(Desk<S>, List<Lane<S>>), Memory>
    where
        S: Drop,
        requires some { (1 ≤ lanes) × (lanes ≤ 32) }
        requires short { length (S.entries state) < 2 ^ 32 }
        requires of_lanes { AreOfLanes S.lane_of lanes (S.entries state) }
        ensures desk { IfOk result (λ made. (made.0.lanes ≡ lanes) × (made.0.fixed ≡ S.fixed state)) }
        ensures lanes { IfOk result (λ made. made.1 ≡ new_lanes S.lane_of made.0 (S.entries state)) }
    {
        let opening = Opening {
            state: Snapshot::of(&state),
            lanes,
        };
        let Ok(mut slots) = Vec::with_capacity(alloc, 1) else {
            return Err(Memory);
        };
        let Ok(made) = Vec::with_capacity(alloc, lanes as usize) else {
            return Err(Memory);
        };
        let long = state.length();
        slots.push_reserved(Some(state));
        match Table::new(alloc, &[0, long << 32], slots, &opening) {
            Ok((table, seat)) => {
                let desk = Desk {
                    table,
                    lanes,
                    sleepers: from_fn(|_| Parker::new()),
                };
                let made = desk.deal(seat, made);
                Ok((desk, List::from_vec(made)))
            }
            Err(Refused { slots: _ }) => {
                made.destroy_empty();
                Err(Memory)
            }
        }
    }

    // Gives each lane a seat of its own.
    fn deal(&self, mut seat: LaneSeat<S>, mut lanes: Vec<Lane<S>>) -> Vec<Lane<S>>
        requires desk { seat.table_id ≡ self.now.id }
        requires seat { seat.me ≡ (view seat.me.0.lanes Idle (Some self.now.fixed), []) }
        requires numbers { Numbered S.lane_of 0 seat.me.0.lanes × (length seat.me.0.lanes ≡ self.now.lanes) }
        requires room { (lanes.items ≡ []) × (self.now.lanes ≤ vec_capacity lanes) }
        ensures { result.items ≡ map (lane_view self.now) seat.me.0.lanes }
    {
        let count = self.lanes;
        for number in 0..count {
            let first = self.table.shared.split_seat::<Deal>(&mut seat);
            lanes.push_reserved(Lane {
                number,
                seat: first,
            });
        }
        lanes
    }
}
