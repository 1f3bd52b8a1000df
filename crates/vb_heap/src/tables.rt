//! Dictionaries and their entries.
ghost use Rattle.std.specs.Prelude.{◌≡◌, ◌≤◌, None, Some, IfOk, IsOk};
ghost use Rattle.std.specs.Option.{option_copied};
ghost use Rattle.vb_value.specs.Errors.{reported};
ghost use Rattle.vb_value.specs.Outcome.{Answers, Changes, Gives};
ghost use Rattle.vb_heap.specs.Dictionary.{KeysDiffer, entry_of};
ghost use Rattle.vb_heap.specs.Entries as spec;
ghost use Rattle.vb_heap.specs.Keys as keys;
ghost use Rattle.vb_heap.specs.Limits.{if_fits};

use crate::counts::{add_count, raise_all, raise_in, reserve_count};
use crate::depth::is_too_deep;
use crate::fault::HeapStop;
use crate::heap::{Heap, MOST_WEIGHT};
use crate::key::Key;
use crate::object::{Content, Object};
use crate::object_map::add_object;
use crate::objects::LEAST_WEIGHT;
use crate::pairs::weight_of_pair;
use crate::references::references;
use crate::saying::key_of;
use crate::table::Table;
use crate::table_map::{
    add_pair, drop_pair, drop_pairs, lower_item, lower_items, pair_at, set_item_at, set_mode,
    table_of, weight_of_item,
};
use std::alloc::Global;
use vb_value::{LimitKind, Memory, ObjNo, Pair, Value, VbError, VbFault, weight};

/// What a key says that has no entry yet. Error 5 where it can be none, and 457 where it has an entry.
fn new_key(alloc: Global, table: &Table, key: &Value) -> Result<Key, VbFault>
    ensures answer { Answers result VbFault.Memory
        (reported (spec.free_key (keys.key_of table.now.mode key.now) table.now)) }
    ensures says { IfOk result (λ said. keys.key_of table.now.mode key.now ≡ Some said) }
    ensures free { IfOk result (λ said. entry_of said table.now ≡ None) }
{
    match key_of(alloc, table.mode(), key)? {
        Some(said) => {
            if table.find(&said).is_some() {
                Err(VbError::KEY_EXISTS)?
            } else {
                Ok(said)
            }
        }
        None => Err(VbError::INVALID_CALL)?,
    }
}

impl Heap {
    /// Makes a dictionary without entries, of mode 0.
    pub fn new_table(&mut self) -> Result<ObjNo, HeapStop>
        ensures answer { Answers result HeapStop.Memory (spec.new_table_of self.old) }
        ensures data { Changes result self.old self.new (spec.with_new_table self.old) }
    {
        if !self.has_room(0) {
            return Err(HeapStop::Limit(LimitKind::Data));
        }
        let object = Object {
            content: Content::Entries(Table::new(*self.held.allocator())),
            ending: false,
        };
        let number = self.objects_made;
        let count = self.first_count();
        reserve_count(&mut self.counts)?;
        add_object(&mut self.objects, object)?;
        add_count(&mut self.counts, count);
        self.objects_made = number + 1;
        self.weight += LEAST_WEIGHT;
        Ok(ObjNo(number))
    }

    /// How the keys of a dictionary compare: 0 with case, 1 without it. 0 where there is no dictionary.
    pub fn table_mode(&self, dictionary: ObjNo) -> i32
        ensures { result ≡ spec.mode_of (spec.dictionary_of dictionary self.now) }
    {
        match table_of(&self.objects, dictionary.0) {
            Ok(table) => table.mode(),
            Err(_) => 0,
        }
    }

    /// How many entries a dictionary has, 262,144 at most. None where there is no dictionary.
    pub fn entry_count(&self, dictionary: ObjNo) -> u32
        ensures count { result ≡ spec.entry_count_of (spec.dictionary_of dictionary self.now) }
        ensures few { result ≤ 262144 }
    {
        match table_of(&self.objects, dictionary.0) {
            Ok(table) => table.len() as u32,
            Err(_) => 0,
        }
    }

    /// A law: no key of a dictionary says what a later one says.
    pub fn keys_differ(&self, dictionary: ObjNo)
        ensures { IfOk (spec.dictionary_of dictionary self.now) KeysDiffer }
    {
        if let Ok(table) = table_of(&self.objects, dictionary.0) {
            table.keys_differ();
        }
    }

    /// Where the entry of a key stands, counted from 0, if there is one.
    pub fn find_entry(&self, dictionary: ObjNo, key: &Value) -> Result<Option<u32>, Memory>
        ensures { Gives result (spec.find_entry_of key.now (spec.dictionary_of dictionary self.now)) }
    {
        let Ok(table) = table_of(&self.objects, dictionary.0) else {
            return Ok(None);
        };
        match key_of(*self.held.allocator(), table.mode(), key)? {
            Some(said) => match table.find(&said) {
                Some(at) => Ok(Some(at as u32)),
                None => Ok(None),
            },
            None => Ok(None),
        }
    }

    /// The entry that stands at a place, if there is one.
    pub fn entry(&self, dictionary: ObjNo, at: u32) -> Option<&Pair>
        ensures { option_copied result ≡ spec.entry_at at (spec.dictionary_of dictionary self.now) }
    {
        match table_of(&self.objects, dictionary.0) {
            Ok(table) => table.pair(at as usize),
            Err(_) => None,
        }
    }

    /// Adds an entry, which is the last. Error 91 where the object has ended, 438 where it is no dictionary, 5 where
    /// the key can be none, 457 where it has an entry, then the limit Nest, and then the limit Data.
    pub fn add_entry(&mut self, dictionary: ObjNo, key: Value, item: Value) -> Result<(), HeapStop>
        ensures answer { Answers result HeapStop.Memory (spec.add_entry_of dictionary key item self.old) }
        ensures data { Changes result self.old self.new (spec.with_entry dictionary key item self.old) }
    {
        let table = table_of(&self.objects, dictionary.0)?;
        let said = new_key(*self.held.allocator(), table, &key)?;
        if is_too_deep(0, &item) {
            return Err(HeapStop::Limit(LimitKind::Nest));
        }
        self.add_said(dictionary, said, Pair { key, item })
    }

    /// The same of a key that is new and an item that may lie there.
    fn add_said(&mut self, dictionary: ObjNo, key: Key, pair: Pair) -> Result<(), HeapStop>
        requires there { IsOk (spec.dictionary_of dictionary self.old) }
        requires says { IfOk (spec.dictionary_of dictionary self.old)
            (λ there. keys.key_of there.mode pair.key ≡ Some key) }
        requires free { IfOk (spec.dictionary_of dictionary self.old) (λ there. entry_of key there ≡ None) }
        ensures answer { Answers result HeapStop.Memory
            (if_fits (spec.with_dictionary (spec.pair_added pair) dictionary self.old) tt) }
        ensures data { Changes result self.old self.new
            (spec.with_dictionary (spec.pair_added pair) dictionary self.old) }
    {
        let added = weight_of_pair(&pair);
        let weight = added.saturating_add(self.weight);
        if MOST_WEIGHT < weight {
            return Err(HeapStop::Limit(LimitKind::Data));
        }
        let found = references(*self.held.allocator(), &pair.item)?;
        add_pair(&mut self.objects, dictionary.0, key, pair, added)?;
        self.top = raise_all(&mut self.counts, found.as_slice(), self.top);
        self.weight = weight;
        Ok(())
    }

    /// Puts another item into the entry at a place, which stays there. Error 91 where the object has ended, 438 where
    /// it is no dictionary, 9 where there is no such entry, then the limit Nest, and then the limit Data.
    pub fn set_entry(&mut self, dictionary: ObjNo, at: u32, item: Value) -> Result<(), HeapStop>
        ensures answer { Answers result HeapStop.Memory (spec.set_entry_of dictionary at item self.old) }
        ensures data { Changes result self.old self.new (spec.with_entry_set dictionary at item self.old) }
    {
        let _ = pair_at(&self.objects, dictionary.0, at as usize)?;
        if is_too_deep(0, &item) {
            return Err(HeapStop::Limit(LimitKind::Nest));
        }
        self.put_item(dictionary, at as usize, item)
    }

    /// The same of an entry that is there and an item that may lie there.
    fn put_item(&mut self, dictionary: ObjNo, at: usize, item: Value) -> Result<(), HeapStop>
        requires { IsOk (spec.entry_there at (spec.dictionary_of dictionary self.old)) }
        ensures answer { Answers result HeapStop.Memory (if_fits (spec.with_entry_set dictionary at item self.old) tt) }
        ensures data { Changes result self.old self.new (spec.with_entry_set dictionary at item self.old) }
    {
        let old = weight_of_item(&self.objects, dictionary.0, at);
        let weight = weight(&item).saturating_add(self.weight - old);
        if MOST_WEIGHT < weight {
            return Err(HeapStop::Limit(LimitKind::Data));
        }
        lower_item(&mut self.counts, &self.objects, dictionary.0, at);
        self.top = raise_in(&mut self.counts, &item, self.top);
        set_item_at(&mut self.objects, dictionary.0, at, item);
        self.weight = weight;
        Ok(())
    }

    /// Drops the entry at a place, if there is one: the later ones move up by one. It takes time linear in the entries.
    pub fn drop_entry(&mut self, dictionary: ObjNo, at: u32)
        ensures { self.new ≡ spec.without_entry dictionary at self.old }
    {
        lower_item(&mut self.counts, &self.objects, dictionary.0, at as usize);
        self.weight -= drop_pair(&mut self.objects, dictionary.0, at as usize);
    }

    /// Drops all entries.
    pub fn drop_entries(&mut self, dictionary: ObjNo)
        ensures { self.new ≡ spec.without_entries dictionary self.old }
    {
        lower_items(&mut self.counts, &self.objects, dictionary.0);
        self.weight -= drop_pairs(&mut self.objects, dictionary.0);
    }

    /// Says how the keys of a dictionary compare, if it has no entries: 0 with case, anything else without it.
    pub fn set_table_mode(&mut self, dictionary: ObjNo, mode: i32)
        ensures { self.new ≡ spec.with_mode dictionary mode self.old }
    {
        set_mode(&mut self.objects, dictionary.0, mode);
    }
}
