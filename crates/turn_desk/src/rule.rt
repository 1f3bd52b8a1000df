//! The rule of a desk, and what its steps tell.
ghost use Rattle.turn_desk.specs.declared.view.Stage.TheVariants.{Idle};
ghost use Rattle.std.specs.Prelude.{Some};
ghost use Rattle.turn_desk.specs.Rule.{IsOrderly, view};
ghost use Rattle.turn_desk.specs.Steps.{fresh_lanes, Draws, Looks, Raises, split_off, left_behind, joined, blank};

use crate::stands::Stands;
use crate::view::View;
use atomic_table::{Join, Play, Seat, Split, TableRule};
use std::marker::PhantomData;
use std::snapshot::Snapshot;

pub(crate) type LaneSeat<S> = Seat<Option<S>, View<<S as Stands>::Entry, <S as Stands>::Fixed>>;

/// What a desk began with. Its state exists in proofs alone.
#[derive(Drop)]
pub(crate) struct Opening<S> {
    pub(crate) state: Snapshot<S>,
    pub(crate) lanes: u32,
}

/// The rule, for the desk's table.
pub(crate) struct DeskRule<S> {
    marker: PhantomData<S>,
}

impl<S: Stands> TableRule<Option<S>, View<S::Entry, S::Fixed>, Opening<S>> for DeskRule<S> {
    ghost holds = { λ key. IsOrderly S.lane_of S.entries S.fixed key.lanes (S.fixed key.state.value) };

    ghost first = { λ key. view (fresh_lanes S.lane_of (S.entries key.state.value) 0 key.lanes) Idle
        (Some (S.fixed key.state.value)) };
}

/// Split: the first lane goes to a seat of its own.
pub(crate) struct Deal;

impl<E, F> Split<View<E, F>> for Deal {
    ghost left = { left_behind };

    ghost right = { split_off };
}

/// Draw: a ticket.
pub(crate) struct Draw;

impl<S: Stands> Play<Option<S>, View<S::Entry, S::Fixed>> for Draw {
    ghost then = { λ _ m r n. Draws m r n };
}

/// Look: whether the turn has come, which takes the slot.
pub(crate) struct Look;

impl<S: Stands> Play<Option<S>, View<S::Entry, S::Fixed>> for Look {
    ghost then = { λ _ m r n. Looks S.lane_of S.entries S.fixed m r n };
}

/// Raise: the slot goes back, and the turn on.
pub(crate) struct Raise;

impl<S: Stands> Play<Option<S>, View<S::Entry, S::Fixed>> for Raise {
    ghost then = { λ _ m r n. Raises S.lane_of S.entries S.fixed m n };
}

/// Join: the lanes of two seats come together.
pub(crate) struct Gather;

impl<E, F> Join<View<E, F>> for Gather {
    ghost both = { joined };

    ghost spent = { blank };
}
