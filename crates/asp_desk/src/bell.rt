//! What wakes hands that found nothing to do.
use std::sync::Wait;
use std::sync::atomic::{AtomicU64, Ordering};

/// Stands in a count of sleepers from when one was called until one leaves.
const CALLED: u64 = 1 << 32;

/// Hands that sleep for the same reason.
#[derive(Drop)]
struct Sleepers {
    rung: AtomicU64,
    count: AtomicU64,
}

impl Sleepers {
    const fn new() -> Sleepers {
        Sleepers {
            rung: AtomicU64::new(0),
            count: AtomicU64::new(0),
        }
    }

    /// Keeps awake who is not yet asleep. Whether any sleeps.
    fn stir(&self) -> bool {
        self.rung.fetch_add(1, Ordering::SeqCst);
        self.count.load(Ordering::SeqCst) > 0
    }

    /// Wakes all.
    fn call_all(&self) {
        if self.stir() {
            self.rung.wake_all();
        }
    }

    /// Wakes one, unless one that was called has yet to leave. Whether any slept.
    fn call_one(&self) -> bool {
        self.rung.fetch_add(1, Ordering::SeqCst);
        let count = self.count.load(Ordering::SeqCst);
        if count == 0 {
            return false;
        }
        if count < CALLED {
            // Where this fails another has come, left or been called: then one is woken too many.
            let _ = self
                .count
                .compare_exchange(count, count + CALLED, Ordering::SeqCst, Ordering::SeqCst);
            // Whoever was counted and is not yet asleep does not fall asleep.
            self.rung.fetch_add(1, Ordering::SeqCst);
            self.rung.wake_one();
        }
        true
    }

    /// Takes one from the count, which has no mark then.
    fn leave<R: Wait>(&self, rt: &R) {
        for _ in rt.forever() {
            let count = self.count.load(Ordering::SeqCst);
            let left = (count % CALLED).saturating_sub(1);
            if self
                .count
                .compare_exchange(count, left, Ordering::SeqCst, Ordering::SeqCst)
                .is_ok()
            {
                return;
            }
        }
    }

    fn sleep<R: Wait>(&self, rt: &R, rung: u64) {
        self.count.fetch_add(1, Ordering::SeqCst);
        self.rung.park(rt, (rung % (1 << 32)) as u32);
        self.leave(rt);
    }
}

/// How often a bell was rung for each kind of sleepers.
#[derive(Clone, Copy)]
pub struct Rung {
    workers: u64,
    callers: u64,
    blocked: u64,
}

/// Who finds nothing to do sleeps on a bell, and each call that may let another go on rings it for those whom that
/// concerns. No contract names it. A worker of several hosts sleeps on one bell that they share.
#[derive(Drop)]
pub struct Bell {
    // Hands without a run, in their loop.
    workers: Sleepers,
    // Hands without a run, whose caller has a loop of its own and waits for ends too.
    callers: Sleepers,
    // Hands with a run that a lock keeps out.
    blocked: Sleepers,
}

impl Bell {
    /// A bell that was never rung.
    pub const fn new() -> Bell {
        Bell {
            workers: Sleepers::new(),
            callers: Sleepers::new(),
            blocked: Sleepers::new(),
        }
    }

    /// How often it was rung. Read it before looking for work, and sleep on what was read: who was rung for since then
    /// does not sleep.
    pub fn rung(&self) -> Rung {
        Rung {
            workers: self.workers.rung.load(Ordering::SeqCst),
            callers: self.callers.rung.load(Ordering::SeqCst),
            blocked: self.blocked.rung.load(Ordering::SeqCst),
        }
    }

    /// Rings it for all that sleep on it.
    pub fn ring(&self) {
        self.workers.call_all();
        self.callers.call_all();
        self.blocked.call_all();
    }

    /// Whether a hand without a run sleeps. One that is about to looks once more.
    pub(crate) fn is_heard(&self) -> bool {
        let by_workers = self.workers.stir();
        let by_callers = self.callers.stir();
        by_workers || by_callers
    }

    /// Rings it for one hand without a run.
    pub(crate) fn ring_one(&self) {
        if !self.workers.call_one() {
            self.callers.call_one();
        }
    }

    /// Rings it for all that a lock keeps out.
    pub(crate) fn ring_blocked(&self) {
        self.blocked.call_all();
    }

    /// Rings it for all that wait for ends.
    pub(crate) fn ring_callers(&self) {
        self.callers.call_all();
    }

    /// Sleeps in a loop, without a run. As each sleep it may end for no reason.
    pub(crate) fn sleep_in_loop<R: Wait>(&self, rt: &R, rung: Rung) {
        self.workers.sleep(rt, rung.workers);
    }

    /// Sleeps beside a loop of the caller's own, without a run.
    pub(crate) fn sleep_free<R: Wait>(&self, rt: &R, rung: Rung) {
        self.callers.sleep(rt, rung.callers);
    }

    /// Sleeps with a run that a lock keeps out.
    pub(crate) fn sleep_blocked<R: Wait>(&self, rt: &R, rung: Rung) {
        self.blocked.sleep(rt, rung.blocked);
    }
}
