//! Entries by what their keys say.
ghost use Rattle.std.specs.Prelude.{◌≡◌, ◌+◌, ◌-◌, ◌<◌, ◌≤◌, ◌^◌, min, remove, slice_get};
ghost use Rattle.std.specs.Option.{option_map_or};
ghost use Rattle.indexmap.specs.IndexMap.{index_map_len, set_value_at, values};
ghost use Rattle.vb_value.specs.Weight.{weight_of};
ghost use Rattle.vb_heap.specs.Entries.{with_item};
ghost use Rattle.vb_heap.specs.Limits.{most_weight};
ghost use Rattle.vb_heap.specs.PairWeight.{entries_weight, pair_weight};

use crate::key::Key;
use indexmap::IndexMap;
use vb_value::{Pair, Value, weight};

/// Entries by what their keys say, in the order of their insertion.
pub type Pairs = IndexMap<Key, Pair>;

/// Puts another item into the entry at a place, and says what the old one weighed.
pub fn set_item(pairs: &mut Pairs, at: usize, item: Value) -> u64
    requires within { at < index_map_len pairs.old }
    requires light { entries_weight (values pairs.old) ≤ most_weight }
    ensures entries { pairs.new.entries
        ≡ option_map_or (λ pair. set_value_at pairs.old.entries at (with_item item pair))
        (slice_get (values pairs.old) at) pairs.old.entries }
    ensures weight { result + entries_weight (values pairs.new) ≡ entries_weight (values pairs.old) + weight_of item }
{
    match pairs.get_index_mut(at) {
        Some(pair) => {
            let old = weight(&pair.item);
            pair.item = item;
            old
        }
        None => 0,
    }
}

/// Drops the entry at a place, and says what it weighed: nothing if there is none.
pub fn remove_pair(pairs: &mut Pairs, at: usize) -> u64
    requires { entries_weight (values pairs.old) ≤ most_weight }
    ensures entries { pairs.new.entries ≡ remove pairs.old.entries at }
    ensures weight { result + entries_weight (values pairs.new) ≡ entries_weight (values pairs.old) }
{
    match pairs.shift_remove_index(at) {
        Some((_, pair)) => weight_of_pair(&pair),
        None => 0,
    }
}

/// What an entry weighs: 2^64 - 1 stands for more.
pub fn weight_of_pair(pair: &Pair) -> u64
    ensures { result ≡ min (pair_weight pair.now) (2 ^ 64 - 1) }
{
    weight(&pair.key).saturating_add(weight(&pair.item))
}
