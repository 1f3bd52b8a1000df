//! The summary.

/// What a journal comes to.
#[derive(Clone, Copy, Debug, PartialEq, Eq)]
pub struct Summary {
    /// How many requests there were.
    pub requests: u32,
    /// How many runs of pages ended with an answer of status 200.
    pub answers: u32,
    /// How many different sessions had runs that began.
    pub sessions: u32,
    /// The whole number last put under the name `n` of the Application object.
    pub total: i32,
}
