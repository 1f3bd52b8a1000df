//! Whether a lane beside lane 0 has met an end.
use std::sync::atomic::{AtomicU64, Ordering};

/// Whether a lane beside lane 0 has met an end. No contract names it.
#[derive(Drop)]
pub struct Met {
    count: AtomicU64,
}

impl Met {
    /// None has.
    pub const fn new() -> Met {
        Met {
            count: AtomicU64::new(0),
        }
    }

    /// One has.
    pub fn meet(&self) {
        self.count.fetch_add(1, Ordering::SeqCst);
    }

    /// Whether one has.
    pub fn is_met(&self) -> bool {
        self.count.load(Ordering::SeqCst) > 0
    }
}
