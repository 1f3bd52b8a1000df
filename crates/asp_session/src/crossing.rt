//! What may go to another thread.
#![tactic(auto)]

use crate::sessions::Sessions;

fn crosses<T: Send>(_value: &T) {}

/// The session keys of a site may go to another thread.
pub fn sessions_cross(sessions: &Sessions) {
    crosses(sessions)
}
