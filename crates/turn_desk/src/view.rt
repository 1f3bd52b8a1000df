//! What a seat at the desk knows. Contracts alone speak of these types: no value of them is made.
use std::collections::LinkedList;

/// A lane's number, the history that it has seen, and its own entries.
pub(crate) struct Known<E> {
    pub(crate) number: u32,
    pub(crate) seen: LinkedList<E>,
    pub(crate) own: LinkedList<E>,
}

/// A seat has no ticket, waits for the turn of one, or has the turn.
pub(crate) enum Stage {
    Idle,
    Waiting(u64),
    Serving(u64),
}

/// The lanes of a seat, and the fixed part of the state.
pub(crate) struct View<E, F> {
    pub(crate) lanes: LinkedList<Known<E>>,
    pub(crate) stage: Stage,
    pub(crate) fixed: Option<F>,
}
