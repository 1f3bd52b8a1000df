//! How the keys of values that went are swept away.
ghost use Rattle.std.specs.Prelude.{◌≡◌, ◌<◌, ◌^◌, is_some, filter, vec_capacity};
ghost use Rattle.slab.specs.Slab.{slab_len};
ghost use Rattle.slot_pool.specs.Inside.{held, tidied};

use crate::finding::holds;
use crate::key::SlotKey;
use crate::slot::Slot;
use slab::Slab;

/// Sweeps the keys of values that went away.
fn sweep<T>(slots: &Slab<Slot<T>>, keys: &mut Vec<SlotKey>)
    ensures swept { keys.new.items ≡ filter (λ key. is_some (held slots.now key)) keys.old.items }
    ensures room { vec_capacity keys.new ≡ vec_capacity keys.old }
{
    keys.retain(|key| holds(slots, *key));
}

/// Sweeps the keys of values that went away once they are more than half.
pub fn tidy<T>(slots: &Slab<Slot<T>>, keys: &mut Vec<SlotKey>)
    requires { slab_len slots.now < 2 ^ 32 }
    ensures swept { keys.new.items ≡ tidied slots.now keys.old.items }
    ensures room { vec_capacity keys.new ≡ vec_capacity keys.old }
{
    if keys.len() > 2 * slots.len() {
        sweep(slots, keys);
    }
}
