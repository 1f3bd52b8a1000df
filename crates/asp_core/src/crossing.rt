//! What may go to another thread.
#![tactic(auto)]

use crate::kernel::Core;
use asp_job::Runner;

fn crosses<T: Send>(_value: &T) {}

/// A core may go to another thread, whatever its runner and its site are: they are not stored.
pub fn core_crosses<R: Runner>(core: &Core<R>) {
    crosses(core)
}
