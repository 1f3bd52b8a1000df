//! What a slot holds.
ghost use Rattle.std.specs.Prelude.{◌≡◌};

/// A value with its number.
#[derive(Drop)]
pub struct Slot<T> {
    /// The number of the value's put.
    pub number: u64,
    /// The value.
    pub value: T,
}

impl<T> Slot<T> {
    ghost use Rattle.std.specs.Borrow.{sem};
    ghost use Rattle.slot_pool.specs.Slots.{lends_inner};

    /// The value for writing.
    pub fn value_mut(&mut self) -> &mut T
        ensures* writes_back { sem 𝓛 (lends_inner T.row self.entry result) }
        ensures value { result.now ≡ self.old.value }
    {
        &mut self.value
    }
}
