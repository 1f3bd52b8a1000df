//! What a run leaves of its session.

use asp_job::SessionState;

/// What a run leaves of its session.
#[derive(Debug, Drop)]
pub enum After {
    /// The session is as it was before the run began.
    Kept,
    /// This is the session now, or there is none.
    Now(Option<SessionState>),
}
