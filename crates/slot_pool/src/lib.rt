//! Values in slots that are used again: each value gets a number, which no other one has until the pool is emptied, and
//! a key that leads to it at once. A contract sees a pool as its values by their numbers, in the order in which they were
//! put, and the slots that are made and free.
#![tactic(auto)]

mod finding;
mod key;
mod laws;
mod pool;
mod slot;
mod sweeping;

pub use key::{PoolStop, SlotKey};
pub use laws::{numbers_rise, slots_within};
pub use pool::Pool;
