//! What holds of every pool. The calls do nothing: a caller makes one for what its contract says.
ghost use Rattle.std.specs.Prelude.{◌≤◌, ◌+◌, length};
ghost use Rattle.slot_pool.specs.Pool.{NumbersRise};

use crate::pool::Pool;

/// The numbers of the values rise, and stay below the next one: no two values have one number.
pub fn numbers_rise<T>(pool: &Pool<T>)
    ensures { NumbersRise 0 pool.now.entries pool.now.next }
{
    pool.law();
}

/// There are no more slots than values that may be there.
pub fn slots_within<T>(pool: &Pool<T>)
    ensures { length pool.now.entries + pool.now.free ≤ pool.now.most }
{
    pool.law();
}
