//! How the hands of a host are dealt to its lanes, and gathered again.
#![tactic(auto)]

ghost use Rattle.std.specs.Prelude.{◌≡◌, ◌≤◌, ◌+◌, ◌∷◌, ◌++◌, [], IfOk, length, vec_capacity};
ghost use Rattle.asp_replay.specs.Workers as spec;

use asp_desk::{Crew, Hand, Slice};
use asp_job::Runner;
use std::alloc::Global;
use vb_value::{List as Items, Memory};

/// Hands, where there is room for them.
fn moved<R: Runner>(hands: Vec<Hand<R>>, mut room: Vec<Hand<R>>) -> Vec<Hand<R>>
where
    R::Store: Drop,
    R::State: Drop,
    requires { (room.items ≡ []) × (length hands.items ≤ vec_capacity room) }
    ensures { (result.items ≡ hands.items) × (vec_capacity result ≡ vec_capacity room) }
{
    for hand in hands {
        room.push_reserved(hand);
    }
    room
}

/// All hands in one list, lane 0's last.
pub(crate) fn gathered<R: Runner>(
    hand: Hand<R>,
    rest: Vec<Hand<R>>,
    room: Vec<Hand<R>>,
) -> Vec<Hand<R>>
where
    R::Store: Drop,
    R::State: Drop,
    requires { (room.items ≡ []) × (length rest.items + 1 ≤ vec_capacity room) }
    ensures { result.items ≡ rest.items ++ hand ∷ [] }
{
    let mut hands = moved(rest, room);
    hands.push_reserved(hand);
    hands
}

/// Lane 0's hand, a crew of the others, and room for all.
pub(crate) fn dealt<R: Runner>(
    alloc: Global,
    mut hands: Vec<Hand<R>>,
) -> Result<(Hand<R>, Crew<R, Slice>, Vec<Hand<R>>), Memory>
where
    R::Store: Drop,
    R::State: Drop,
    requires { 1 ≤ length hands.items }
    ensures { IfOk result (λ made. spec.IsDealt hands.items made.0 made.1 made.2.items (vec_capacity made.2)) }
{
    let room = Vec::with_capacity(alloc, hands.len())?;
    let hand = hands.remove(0);
    let Ok(crew) = Crew::new(alloc, Items::from_vec(hands), Slice::Idle) else {
        return Err(Memory);
    };
    Ok((hand, crew, room))
}
