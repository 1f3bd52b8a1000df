//! A hand: a lane, and what it carries.
#![tactic(auto)]

ghost use Rattle.std.specs.Prelude.{◌≡◌, None, Some};
ghost use Rattle.asp_desk.specs.Hands.{held_number};

use crate::stands::Placed;
use asp_core::Run;
use asp_job::Runner;
use std::marker::Model;
use std::mem::replace;
use turn_desk::{Lane, Stands};

/// What a hand carries.
#[derive(Drop)]
pub enum Load<T, U> {
    /// Room for a run.
    Free(T),
    /// A run that was begun.
    Runs(U),
}

/// A lane of a host, and what it carries. It is generic in all three, so that the check finds that it may go to another
/// thread. One that is let go is never closed, and its run stays unfinished.
#[derive(Drop)]
pub struct HandOf<S: Stands, T, U> {
    // Out while a turn lasts.
    pub(crate) lane: Option<Lane<S>>,
    pub(crate) load: Option<Load<T, U>>,
}

/// A hand of a host: with it one thread works there.
pub type Hand<R> = HandOf<Placed<R>, <R as Runner>::Store, Run<R>>;

impl<S: Stands, T, U> Model for HandOf<S, T, U> {
    ghost use Rattle.std.specs.Prelude.{IsSome};
    ghost use Rattle.asp_desk.specs.Hands.{HandView, lane_in, run_in};

    ghost Value = { HandView S.Entry S.Fixed U };

    ghost view = { λ hand. record { lane = lane_in hand.lane; run = run_in hand.load } };

    ghost invariant = { λ hand. IsSome hand.load };
}

/// Puts a load where there is none: what it carries may be of a type that can't be let go.
pub(crate) fn put<T, U>(place: &mut Option<Load<T, U>>, load: Load<T, U>)
    requires { place.old ≡ None }
    ensures { place.new ≡ Some load }
{
    match replace(place, Some(load)) {
        None => {}
        Some(_) => unreachable!(),
    }
}

impl<R: Runner> HandOf<Placed<R>, R::Store, Run<R>> {
    /// The number of the run that the hand holds.
    pub fn run(&self) -> Option<u32>
        ensures { result ≡ held_number self.now.run }
    {
        match &self.load {
            Some(Load::Runs(run)) => Some(run.number()),
            _ => None,
        }
    }
}
