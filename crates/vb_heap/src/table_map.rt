//! The dictionaries among the objects.
ghost use Rattle.std.specs.Prelude.{◌≡◌, ◌+◌, ◌≤◌, None, Some, IfOk, sum_by};
ghost use Rattle.std.specs.Map.{values_of};
ghost use Rattle.std.specs.Option.{option_copied};
ghost use Rattle.vb_value.specs.Outcome.{Changes};
ghost use Rattle.vb_value.specs.Weight.{weight_of};
ghost use Rattle.vb_heap.specs.Counted.{counts_less, item_references, item_there, items_there};
ghost use Rattle.vb_heap.specs.Dictionary.{entry_of};
ghost use Rattle.vb_heap.specs.Entries as spec;
ghost use Rattle.vb_heap.specs.Keys.{key_of};
ghost use Rattle.vb_heap.specs.Limits.{most_weight};
ghost use Rattle.vb_heap.specs.PageWeight.{found_weight, object_weight};
ghost use Rattle.vb_heap.specs.Pooled.{IsPooled};
ghost use Rattle.vb_heap.specs.PairWeight.{entries_weight, item_weight, pair_weight};
ghost use Rattle.vb_heap.specs.References.{references};
ghost use Rattle.vb_heap.specs.Saturated.{result_now};
ghost use Rattle.vb_heap.specs.Store.{numbered};
ghost use Rattle.vb_heap.specs.Tally.{IsTallied};

use crate::counts::{Counts, lower_in};
use crate::key::Key;
use crate::object::Content;
use crate::object_map::{Objects, object_at};
use crate::pooled::by_number;
use crate::table::Table;
use vb_value::{Memory, Pair, Value, VbError, weight};

/// The dictionary that an object is. Error 91 where the object has ended, and 438 where it is one of a class.
pub fn table_of<'a>(objects: &'a Objects, number: u32) -> Result<&'a Table, VbError>
    requires { sum_by object_weight (values_of objects.now.entries) ≤ most_weight }
    ensures table { result_now result ≡ spec.dictionary_there (numbered number objects.now.entries) }
    ensures light { IfOk result (λ table. entries_weight table.now.pairs ≤ most_weight) }
{
    match object_at(objects, number) {
        Some(object) => match &object.content {
            Content::Entries(table) => Ok(table),
            Content::Fields { class: _, cells: _ } => Err(VbError::UNSUPPORTED),
        },
        None => Err(VbError::OBJECT_NOT_SET),
    }
}

/// Adds an entry whose key is new to a dictionary, if it is there.
pub fn add_pair(
    objects: &mut Objects,
    number: u32,
    key: Key,
    pair: Pair,
    weight: u64,
) -> Result<(), Memory>
    requires light { sum_by object_weight (values_of objects.old.entries) ≤ most_weight }
    requires says { IfOk (spec.dictionary_there (numbered number objects.old.entries))
        (λ dictionary. key_of dictionary.mode pair.key ≡ Some key) }
    requires free { IfOk (spec.dictionary_there (numbered number objects.old.entries))
        (λ dictionary. entry_of key dictionary ≡ None) }
    requires weighs { weight ≡ pair_weight pair }
    requires fits { weight ≤ most_weight }
    ensures pooled { IsPooled objects.old objects.new }
    ensures entries { Changes result objects.old.entries objects.new.entries
        (spec.objects_changed (spec.pair_added pair) number objects.old.entries) }
{
    match objects.get_mut(by_number(number as u64)) {
        Some(object) => match &mut object.content {
            Content::Entries(table) => table.add(key, pair, weight),
            Content::Fields { class: _, cells: _ } => Ok(()),
        },
        None => Ok(()),
    }
}

/// Puts another item into the entry at a place of a dictionary, if it is there.
pub fn set_item_at(objects: &mut Objects, number: u32, at: usize, item: Value)
    requires light { sum_by object_weight (values_of objects.old.entries) ≤ most_weight }
    requires fits { weight_of item ≤ most_weight }
    ensures pooled { IsPooled objects.old objects.new }
    ensures entries { objects.new.entries ≡ spec.objects_changed (spec.item_set at item) number objects.old.entries }
{
    if let Some(object) = objects.get_mut(by_number(number as u64)) {
        if let Content::Entries(table) = &mut object.content {
            table.set(at, item);
        }
    }
}

/// Drops the entry at a place of a dictionary, and says what it weighed: nothing if there is none.
pub fn drop_pair(objects: &mut Objects, number: u32, at: usize) -> u64
    requires { sum_by object_weight (values_of objects.old.entries) ≤ most_weight }
    ensures pooled { IsPooled objects.old objects.new }
    ensures entries { objects.new.entries ≡ spec.objects_changed (spec.entry_dropped at) number objects.old.entries }
    ensures weight { result
        + found_weight (spec.found_changed (spec.entry_dropped at) (numbered number objects.old.entries))
        ≡ found_weight (numbered number objects.old.entries) }
{
    match objects.get_mut(by_number(number as u64)) {
        Some(object) => match &mut object.content {
            Content::Entries(table) => table.drop_at(at),
            Content::Fields { class: _, cells: _ } => 0,
        },
        None => 0,
    }
}

/// Drops all entries of a dictionary, and says what they weighed.
pub fn drop_pairs(objects: &mut Objects, number: u32) -> u64
    requires { sum_by object_weight (values_of objects.old.entries) ≤ most_weight }
    ensures pooled { IsPooled objects.old objects.new }
    ensures entries { objects.new.entries ≡ spec.objects_changed spec.emptied number objects.old.entries }
    ensures weight { result + found_weight (spec.found_changed spec.emptied (numbered number objects.old.entries))
        ≡ found_weight (numbered number objects.old.entries) }
{
    match objects.get_mut(by_number(number as u64)) {
        Some(object) => match &mut object.content {
            Content::Entries(table) => table.clear(),
            Content::Fields { class: _, cells: _ } => 0,
        },
        None => 0,
    }
}

/// Says how the keys of a dictionary compare, if it is there and has no entries.
pub fn set_mode(objects: &mut Objects, number: u32, mode: i32)
    ensures pooled { IsPooled objects.old objects.new }
    ensures entries { objects.new.entries ≡ spec.objects_changed (spec.mode_set mode) number objects.old.entries }
{
    if let Some(object) = objects.get_mut(by_number(number as u64)) {
        if let Content::Entries(table) = &mut object.content {
            table.set_mode(mode);
        }
    }
}

/// The entry at a place of a dictionary. Error 9 where there is none, 91 and 438 where there is no dictionary.
pub fn pair_at<'a>(objects: &'a Objects, number: u32, at: usize) -> Result<&'a Pair, VbError>
    requires { sum_by object_weight (values_of objects.now.entries) ≤ most_weight }
    ensures { result_now result ≡ spec.entry_there at (spec.dictionary_there (numbered number objects.now.entries)) }
{
    match table_of(objects, number)?.pair(at) {
        Some(pair) => Ok(pair),
        None => Err(VbError::OUT_OF_RANGE),
    }
}

/// What the item of the entry at a place weighs: nothing where there is none.
#[tactic(auto, using(crate::proofs::TableWeights::item_within))]
pub fn weight_of_item(objects: &Objects, number: u32, at: usize) -> u64
    requires { sum_by object_weight (values_of objects.now.entries) ≤ most_weight }
    ensures weight { result
        ≡ item_weight (spec.entry_there at (spec.dictionary_there (numbered number objects.now.entries))) }
    ensures within { result ≤ sum_by object_weight (values_of objects.now.entries) }
{
    match pair_at(objects, number, at) {
        Ok(pair) => weight(&pair.item),
        Err(_) => 0,
    }
}

/// Counts the references of the item of the entry at a place as gone, if there is one.
pub fn lower_item(counts: &mut Counts, objects: &Objects, number: u32, at: usize)
    requires light { sum_by object_weight (values_of objects.now.entries) ≤ most_weight }
    ensures counts { counts.new.entries ≡ counts_less
        (item_there (spec.entry_there at (spec.dictionary_there (numbered number objects.now.entries))))
        counts.old.entries }
    ensures ends { counts.new.ends ≡ counts.old.ends }
    ensures pooled { IsTallied counts.old counts.new }
{
    if let Ok(pair) = pair_at(objects, number, at) {
        lower_in(counts, &pair.item);
    }
}

/// Counts the references of all items of a dictionary as gone, if it is there.
pub fn lower_items(counts: &mut Counts, objects: &Objects, number: u32)
    requires light { sum_by object_weight (values_of objects.now.entries) ≤ most_weight }
    ensures counts { counts.new.entries ≡ counts_less
        (items_there (spec.dictionary_there (numbered number objects.now.entries))) counts.old.entries }
    ensures ends { counts.new.ends ≡ counts.old.ends }
    ensures pooled { IsTallied counts.old counts.new }
{
    if let Ok(table) = table_of(objects, number) {
        table.lower(counts);
    }
}
