//! How a worker sleeps beside its own loop.
#![tactic(auto)]

use crate::bell::Rung;
use crate::hand::Hand;
use crate::host::HostOf;
use crate::stands::Placed;
use asp_job::Runner;
use std::sync::Wait;

impl<R: Runner> HostOf<Placed<R>, R, R::Site> {
    /// How often the host's bell was rung. Read it before looking for work, and sleep on what was read.
    pub fn rung(&self) -> Rung {
        self.bell.rung()
    }

    /// Sleeps until the host's bell has been rung more often than so often for a hand like this: a call of another hand
    /// may then have let it go on, or have ended a run. It may wake for no reason.
    pub fn sleep<Rt: Wait>(&self, rt: &Rt, hand: &Hand<R>, rung: Rung) {
        match hand.run() {
            Some(_) => self.bell.sleep_blocked(rt, rung),
            None => self.bell.sleep_free(rt, rung),
        }
    }
}
