//! What threads may share, and what may go to another thread.
#![tactic(auto)]

use crate::hand::Hand;
use crate::host::Host;
use asp_job::Runner;

fn crosses<T: Send>(_value: &T) {}

fn is_shared<T: Sync>(_value: &T) {}

/// A hand may go to another thread, where what it carries may: a run's state, and what a run needs.
pub fn hand_crosses<R: Runner>(hand: &Hand<R>)
where
    R::Store: Send,
    R::State: Send,
{
    crosses(hand)
}

/// Threads may share a host, where they may share its runner and its site.
pub fn host_is_shared<R: Runner + Sync>(host: &Host<R>)
where
    R::Site: Sync,
{
    is_shared(host)
}
