//! What a For counts over.

use vb_value::Number;

/// The three numbers of a `For`.
#[derive(Clone, Copy, Debug, PartialEq, Eq)]
pub struct Range {
    /// What its variable is at first.
    pub from: Number,
    /// What its variable is at most, or at least where the step is negative.
    pub to: Number,
    /// What is added to its variable behind each turn.
    pub step: Number,
}
