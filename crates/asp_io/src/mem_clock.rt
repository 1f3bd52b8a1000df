//! A clock in memory.
ghost use Rattle.std.specs.Prelude.{◌≡◌};
ghost use Rattle.asp_io.specs.Clock.{MayGive};

use crate::clock::Clock;
use std::marker::Model;
use std::sync::atomic::{AtomicUsize, Ordering};
use vb_value::List;

/// A clock in memory, which contracts see as the seconds in its list. It gives one after the other, then the last again
/// and again, and without any 0 alone. Threads share its place in the list.
#[derive(Drop)]
pub struct MemClock {
    list: List<u64>,
    given: AtomicUsize,
}

impl Model for MemClock {
    ghost use Rattle.std.specs.Prelude.{ℕ, List as Items};

    ghost Value = { Items ℕ };

    ghost view = { λ clock. clock.list };
}

impl MemClock {
    /// The clock that gives these seconds.
    pub fn new(list: List<u64>) -> MemClock
        ensures { result ≡ list }
    {
        MemClock {
            list,
            given: AtomicUsize::new(0),
        }
    }
}

impl Clock for MemClock {
    ghost may_give = { MayGive };

    fn seconds(&self) -> u64 {
        let seconds = self.list.as_slice();
        let place = self.given.fetch_add(1, Ordering::SeqCst);
        match (seconds.get(place), seconds.last()) {
            (Some(second), _) => *second,
            (None, Some(last)) => *last,
            (None, None) => 0,
        }
    }
}
