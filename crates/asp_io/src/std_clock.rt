//! The system's clock.

use crate::clock::Clock;
use std::time::{Clock as SystemClock, SystemTime, UNIX_EPOCH};

/// The system's clock: the whole seconds since 1970, of which contracts know nothing.
#[derive(Drop)]
pub struct StdClock<R> {
    rt: R,
}

impl<R> StdClock<R> {
    /// The clock of `rt`.
    pub fn new(rt: R) -> StdClock<R> {
        StdClock { rt }
    }
}

impl<R: SystemClock> Clock for StdClock<R> {
    ghost may_give = { λ _ _. Unit {0} };

    /// Where the clock can't be read it gives 0.
    fn seconds(&self) -> u64 {
        match SystemTime::now(&self.rt) {
            Ok(now) => match now.duration_since(UNIX_EPOCH) {
                Ok(since) => since.as_secs(),
                Err(_) => 0,
            },
            Err(_) => 0,
        }
    }
}
