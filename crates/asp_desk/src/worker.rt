//! A worker: a hand, and a place beside it.

/// A hand, and a place for what comes of the work with it.
#[derive(Drop)]
pub struct WorkerOf<H, T> {
    /// The hand.
    pub hand: H,
    /// What came of the work.
    pub made: T,
}
