//! Dictionaries.
ghost use Rattle.std.specs.Prelude.{◌≡◌, ◌+◌, ◌*◌, ◌-◌, ◌<◌, ◌≤◌, ◌^◌, None, Some, IfSome, length, min, slice_get};
ghost use Rattle.std.specs.Option.{option_copied};
ghost use Rattle.std.specs.List.{flat_map};
ghost use Rattle.vb_value.specs.Outcome.{Changes};
ghost use Rattle.vb_value.specs.Weight.{weight_of};
ghost use Rattle.vb_heap.specs.Counted.{counts_less, item_references};
ghost use Rattle.vb_heap.specs.Counts.{count_of};
ghost use Rattle.vb_heap.specs.PairWeight.{entries_weight, pair_weight};
ghost use Rattle.vb_heap.specs.Tally.{IsTallied};

use crate::counts::{Counts, lower_in};
use crate::key::Key;
use crate::pairs::{Pairs, remove_pair, set_item};
use crate::references::count_in;
use indexmap::IndexMap;
use std::alloc::Global;
use std::marker::Model;
use vb_value::{Memory, Pair, Value, weight};

/// The entries of a dictionary, in the order of their insertion, and how its keys compare.
#[derive(Drop)]
pub struct Table {
    mode: i32,
    pairs: Pairs,
    weight: u64,
}

impl Model for Table {
    ghost use Rattle.std.specs.Coded.{codes};
    ghost use Rattle.vb_value.specs.contracts.value.Value as value;
    ghost use Rattle.vb_heap.specs.Dictionary.{Dictionary};

    ghost Value = { Dictionary };

    ghost coded = { Prim.hlevel (codes, value.the_row.coded) };

    ghost use Rattle.vb_heap.specs.Indexed.{dictionary_in, IsIndexed};

    ghost view = { dictionary_in };

    ghost invariant = { IsIndexed };
}

impl Table {
    ghost use Rattle.vb_heap.specs.Dictionary.{KeysDiffer, no_entries, entry_of};
    ghost use Rattle.vb_heap.specs.Entries.{mode_set, emptied, entry_dropped, item_set, pair_added};
    ghost use Rattle.vb_heap.specs.Keys.{key_of};
    ghost use Rattle.vb_heap.specs.Limits.{most_weight};
    ghost use Rattle.vb_heap.specs.References.{references};

    /// A dictionary without entries, of mode 0.
    pub fn new(alloc: Global) -> Table
        ensures { result ≡ no_entries }
    {
        Table {
            mode: 0,
            pairs: IndexMap::new(alloc),
            weight: 0,
        }
    }

    /// How its keys compare.
    pub fn mode(&self) -> i32
        ensures { result ≡ self.now.mode }
    {
        self.mode
    }

    /// How many entries there are.
    pub fn len(&self) -> usize
        ensures { result ≡ length self.now.pairs }
    {
        self.pairs.len()
    }

    /// A law: no key says what a later one says.
    pub fn keys_differ(&self)
        ensures { KeysDiffer self.now }
    {
        let _ = self.pairs.len();
    }

    /// What the entries weigh.
    pub fn weight(&self) -> u64
        ensures { result ≡ entries_weight self.now.pairs }
    {
        self.weight
    }

    /// Where the entry of a key stands, if it has one.
    pub fn find(&self, key: &Key) -> Option<usize>
        ensures place { result ≡ entry_of key.now self.now }
        ensures within { IfSome result (λ at. at < length self.now.pairs) }
    {
        self.pairs.get_index_of(key)
    }

    /// The entry that stands at a place, if there is one.
    pub fn pair(&self, at: usize) -> Option<&Pair>
        ensures { option_copied result ≡ slice_get self.now.pairs at }
    {
        match self.pairs.get_index(at) {
            Some((_, pair)) => Some(pair),
            None => None,
        }
    }

    /// Adds an entry whose key is new.
    pub fn add(&mut self, key: Key, pair: Pair, weight: u64) -> Result<(), Memory>
        requires says { key_of self.old.mode pair.key ≡ Some key }
        requires free { entry_of key self.old ≡ None }
        requires weighs { weight ≡ pair_weight pair }
        requires fits { entries_weight self.old.pairs + weight < 2 ^ 64 }
        ensures { Changes result self.old self.new (pair_added pair self.old) }
    {
        self.pairs.insert(key, pair)?;
        self.weight += weight;
        Ok(())
    }

    /// Puts another item into the entry at a place, if there is one.
    pub fn set(&mut self, at: usize, item: Value)
        requires light { entries_weight self.old.pairs ≤ most_weight }
        requires fits { weight_of item ≤ most_weight }
        ensures { self.new ≡ item_set at item self.old }
    {
        if self.pairs.len() <= at {
            return;
        }
        let new = weight(&item);
        let old = set_item(&mut self.pairs, at, item);
        self.weight = self.weight + new - old;
    }

    /// Drops the entry at a place, and says what it weighed: nothing if there is none.
    pub fn drop_at(&mut self, at: usize) -> u64
        requires { entries_weight self.old.pairs ≤ most_weight }
        ensures data { self.new ≡ entry_dropped at self.old }
        ensures weight { result + entries_weight self.new.pairs ≡ entries_weight self.old.pairs }
    {
        let weight = remove_pair(&mut self.pairs, at);
        self.weight -= weight;
        weight
    }

    /// Drops all entries, and says what they weighed.
    pub fn clear(&mut self) -> u64
        ensures data { self.new ≡ emptied self.old }
        ensures weight { result ≡ entries_weight self.old.pairs }
    {
        let weight = self.weight;
        self.pairs.clear();
        self.weight = 0;
        weight
    }

    /// Says how the keys compare, if there are no entries.
    pub fn set_mode(&mut self, mode: i32)
        ensures { self.new ≡ mode_set mode self.old }
    {
        if self.pairs.is_empty() {
            self.mode = mode;
        }
    }

    /// Counts the references in the items as gone.
    pub fn lower(&self, counts: &mut Counts)
        ensures counts { counts.new.entries ≡ counts_less (item_references self.now) counts.old.entries }
        ensures ends { counts.new.ends ≡ counts.old.ends }
        ensures pooled { IsTallied counts.old counts.new }
    {
        for pair in self.pairs.values() {
            lower_in(counts, &pair.item);
        }
    }

    /// How many references to an object are in the items: 2^32 - 1 stands for more.
    pub fn count(&self, object: u32) -> u32
        ensures count { result
            ≡ min (count_of object (flat_map (λ pair. references pair.item) self.now.pairs)) (2 ^ 32 - 1) }
        ensures most { 32 * result ≤ entries_weight self.now.pairs }
    {
        let mut count: u32 = 0;
        for pair in self.pairs.values() {
            count = count.saturating_add(count_in(&pair.item, object));
        }
        count
    }
}
