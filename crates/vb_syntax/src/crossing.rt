//! What threads may share.
#![tactic(auto)]

use crate::program::Program;

fn crosses<T: Sync>(_value: &T) {}

/// Threads may share a program.
pub fn program_crosses(program: &Program) {
    crosses(program)
}
