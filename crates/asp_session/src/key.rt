//! What is kept of a live key.

use asp_job::SessionState;

/// What is kept of a live key.
#[derive(Drop)]
pub struct KeyState {
    /// Its session, if it has one.
    pub session: Option<SessionState>,
    /// When the last job was admitted for it: seconds since 1970.
    pub asked: u64,
    /// Whether one of its runs is unfinished.
    pub running: bool,
    /// Whether a run for the end of its session was queued. It can't be asked for any more.
    pub closing: bool,
}

/// A run that waits for a key.
#[derive(Clone, Copy, Debug, PartialEq, Eq)]
pub struct Waiter {
    pub key: u32,
    /// The number of the run.
    pub run: u32,
    /// Whether it is for the end of the session.
    pub last: bool,
}
