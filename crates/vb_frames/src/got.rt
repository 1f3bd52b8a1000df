//! What reaches a frame.

use vb_meaning::{Exit, Reached, Stop};
use vb_value::{List, Value};

/// What reaches a frame, and what a frame keeps.
#[derive(Drop)]
pub enum Got {
    /// That something was done.
    Nothing,
    /// The value of an expression.
    Value(Value),
    /// What a path has come to.
    Reached(Reached),
    /// The values of some expressions.
    Values(List<Value>),
    /// Whether a condition holds.
    Truth(bool),
    /// How a statement has ended.
    Exit(Exit),
    /// Why nothing came of it.
    Stopped(Stop),
}
