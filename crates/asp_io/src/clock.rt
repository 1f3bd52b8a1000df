//! A clock.
ghost use Rattle.std.specs.Prelude.{ℕ};

/// A clock in whole seconds.
pub trait Clock {
    /// Which seconds it may give.
    ghost may_give: { Self → ℕ → Type 0 };

    /// The seconds now.
    fn seconds(&self) -> u64
        ensures { may_give self.now result };
}
