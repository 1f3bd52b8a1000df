//! What may go to another thread.
#![tactic(auto)]

use crate::run::PlainRun;

fn crosses<T: Send>(_value: &T) {}

/// A run on its way may go to another thread.
pub fn run_crosses(run: &PlainRun) {
    crosses(run)
}
