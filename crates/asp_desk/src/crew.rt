//! Hands that work beside one another.
#![tactic(auto)]

ghost use Rattle.std.specs.Prelude.{◌≡◌, ◌≤◌, IfErr, IfOk, [], length, map, vec_capacity};
ghost use Rattle.asp_desk.specs.Crews as spec;

use crate::worker::WorkerOf;
use std::alloc::Global;
use std::marker::Model;
use vb_value::{List, Memory};

/// Workers, and room for their parts.
#[derive(Drop)]
pub struct CrewOf<H, T> {
    pub(crate) workers: Vec<WorkerOf<H, T>>,
    // Room for the hands and for what they made, for the end.
    pub(crate) hands: Vec<H>,
    pub(crate) made: Vec<T>,
}

impl<H, T> Model for CrewOf<H, T> {
    ghost use Rattle.std.specs.Prelude.{◌≡◌, ◌≤◌, List, [], length, vec_capacity};
    ghost use Rattle.asp_desk.specs.declared.worker.WorkerOf.{WorkerOf as Worker};

    ghost Value = { List (Worker H T) };

    ghost view = { λ crew. crew.workers.items };

    ghost invariant = { λ crew. (crew.hands.items ≡ []) × (length crew.workers.items ≤ vec_capacity crew.hands)
        × (crew.made.items ≡ []) × (length crew.workers.items ≤ vec_capacity crew.made) };
}

/// Gives each hand a place, with the same in it.
fn placed<H: Drop, T: Copy>(
    hands: Vec<H>,
    start: T,
    mut workers: Vec<WorkerOf<H, T>>,
) -> Vec<WorkerOf<H, T>>
    requires { (workers.items ≡ []) × (length hands.items ≤ vec_capacity workers) }
    ensures { result.items ≡ map (spec.with_place start) hands.items }
{
    for hand in hands {
        workers.push_reserved(WorkerOf { hand, made: start });
    }
    workers
}

impl<H: Drop, T: Drop> CrewOf<H, T> {
    /// A crew of these hands, each with the same in its place. Without memory the hands come back.
    pub fn new(alloc: Global, hands: List<H>, start: T) -> Result<CrewOf<H, T>, (List<H>, Memory)>
    where
        T: Copy,
        ensures crew { IfOk result (λ crew. crew ≡ map (spec.with_place start) hands) }
        ensures back { IfErr result (λ back. back.0 ≡ hands) }
    {
        let count = hands.len();
        let Ok(workers) = Vec::with_capacity(alloc, count) else {
            return Err((hands, Memory));
        };
        let Ok(room) = Vec::with_capacity(alloc, count) else {
            workers.destroy_empty();
            return Err((hands, Memory));
        };
        let Ok(made) = Vec::with_capacity(alloc, count) else {
            workers.destroy_empty();
            room.destroy_empty();
            return Err((hands, Memory));
        };
        Ok(CrewOf {
            workers: placed(hands.into_vec(), start, workers),
            hands: room,
            made,
        })
    }

    /// The hands, and what they made, each in their order. It takes no memory.
    pub fn part(self) -> (List<H>, List<T>)
        ensures { (result.0 ≡ map (λ worker. worker.hand) self) × (result.1 ≡ map (λ worker. worker.made) self) }
    {
        let CrewOf {
            workers,
            hands,
            made,
        } = self;
        let (hands, made) = parted(workers, hands, made);
        (List::from_vec(hands), List::from_vec(made))
    }
}

/// The parts of workers.
fn parted<H: Drop, T: Drop>(
    workers: Vec<WorkerOf<H, T>>,
    mut hands: Vec<H>,
    mut made: Vec<T>,
) -> (Vec<H>, Vec<T>)
    requires hands { (hands.items ≡ []) × (length workers.items ≤ vec_capacity hands) }
    requires made { (made.items ≡ []) × (length workers.items ≤ vec_capacity made) }
    ensures { (result.0.items ≡ map (λ worker. worker.hand) workers.items)
        × (result.1.items ≡ map (λ worker. worker.made) workers.items) }
{
    for worker in workers {
        let WorkerOf { hand, made: one } = worker;
        hands.push_reserved(hand);
        made.push_reserved(one);
    }
    (hands, made)
}
