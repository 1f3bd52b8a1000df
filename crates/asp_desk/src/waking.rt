//! Whom a turn may let go on.
#![tactic(auto)]

use crate::bell::Bell;
use crate::stands::Placed;
use crate::steps::Stepped;
use asp_core::BeginStop;
use asp_job::Runner;

/// What a turn leaves to do, where it may let a hand without a run go on and one sleeps.
#[derive(Clone, Copy)]
pub(crate) struct Left {
    // Whether runs wait.
    waits: bool,
    // Whether nothing is left: no run is unfinished, and none begins any more.
    over: bool,
}

/// Whether a run has ended by its step.
pub(crate) fn ends(stepped: Stepped) -> bool {
    matches!(stepped, Stepped::Ended | Stepped::JournalFull(_))
}

impl<R: Runner> Placed<R> {
    /// What is left to do now, in a turn that may let another go on. What waits is counted only if somebody sleeps.
    pub(crate) fn left(&self, bell: &Bell, may: bool) -> Left {
        if !may || !bell.is_heard() {
            return Left {
                waits: false,
                over: false,
            };
        }
        let core = &self.core;
        let waits = core.waiting() > 0;
        let closed = core.halted() || core.stopping() && !waits;
        Left {
            waits,
            over: closed && core.unfinished() == 0,
        }
    }
}

impl Bell {
    /// Rings for all where there is a cause.
    pub(crate) fn ring_if(&self, cause: bool) {
        if cause {
            self.ring();
        }
    }

    /// Rings after a job came, where one did.
    pub(crate) fn ring_came(&self, came: bool) {
        if came {
            self.ring_one();
        }
    }

    /// Rings for one hand where runs wait.
    pub(crate) fn ring_left(&self, left: Left) {
        if left.waits {
            self.ring_one();
        }
    }

    /// Rings after a begin: others may begin too. Where a run could not begin for want of room, each hand is to find
    /// that out.
    pub(crate) fn ring_begun(&self, begun: &Result<u32, BeginStop>, left: Left) {
        match begun {
            Ok(_) => self.ring_left(left),
            Err(BeginStop::Idle) => {}
            Err(_) => self.ring(),
        }
    }

    /// Rings after a step of a run: an Unlock or an end lets a lock go, and an end a place.
    pub(crate) fn ring_stepped(&self, stepped: Stepped, unlocks: bool, left: Left) {
        match stepped {
            Stepped::Called if unlocks => self.ring_blocked(),
            Stepped::Called | Stepped::Blocked { .. } => {}
            Stepped::Ended | Stepped::JournalFull(_) => self.ring_ended(left),
        }
    }

    /// Rings after an end.
    fn ring_ended(&self, left: Left) {
        if left.over {
            self.ring();
            return;
        }
        self.ring_blocked();
        self.ring_callers();
        self.ring_left(left);
    }
}
