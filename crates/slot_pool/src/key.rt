//! Keys of values, and why a value isn't taken in.

/// The key of a value: its number, and the slot in which it was put.
///
/// The number alone tells which value is meant. The slot says where to look first, so that a key of another pool, or one
/// from before the pool was emptied, finds whatever has its number now.
#[derive(Clone, Copy, Debug, PartialEq, Eq)]
pub struct SlotKey {
    /// The number of the value's put since the pool was emptied, from 0.
    pub number: u64,
    /// The slot, as the slab below counts them.
    pub slot: usize,
}

/// Why a pool takes no further value. The value is given back with it.
#[derive(Clone, Copy, Debug, PartialEq, Eq)]
pub enum PoolStop {
    /// As many values are there as may be, or no number is left: 2^64 - 1 were given since the pool was emptied.
    Full,
    /// The system gave no memory for one more slot.
    Memory,
}
