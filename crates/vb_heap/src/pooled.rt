//! Things by their numbers in a pool.
ghost use Rattle.std.specs.Prelude.{◌≡◌};

use slot_pool::SlotKey;

/// A key of a number whose slot is not known: it finds what has that number.
pub fn by_number(number: u64) -> SlotKey
    ensures { result.number ≡ number }
{
    SlotKey { number, slot: 0 }
}
