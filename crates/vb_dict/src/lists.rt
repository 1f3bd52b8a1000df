//! The keys and the items of a dictionary as arrays.
ghost use Rattle.std.specs.Prelude.{◌≡◌, ◌≤◌, IfOk, length, map};
ghost use Rattle.vb_value.specs.Errors.{reported};
ghost use Rattle.vb_value.specs.Outcome.{Answers, Gives};
ghost use Rattle.vb_heap.specs.DictionaryCalls as spec;
ghost use Rattle.vb_dict.specs.Entries.{key_in, pairs_of};
ghost use Rattle.vb_heap.specs.Entries.{dictionary_of, entry_at};

use crate::places::check_dictionary;
use std::alloc::Global;
use vb_heap::Heap;
use vb_value::{Array, List, Memory, ObjNo, Value, VbFault, copy};

/// `Keys`: the keys as they were written, in the order of insertion. Error 91 where the object has ended, and 438 where
/// it is no dictionary.
pub fn keys(alloc: Global, heap: &Heap, dictionary: ObjNo) -> Result<Value, VbFault>
    ensures { Answers result VbFault.Memory (reported (spec.keys_of dictionary heap.now)) }
{
    check_dictionary(heap, dictionary)?;
    Ok(array_of(alloc, all_keys(alloc, heap, dictionary)?)?)
}

/// `Items`: the items, in the order of `keys`. Errors as for `keys`.
pub fn items(alloc: Global, heap: &Heap, dictionary: ObjNo) -> Result<Value, VbFault>
    ensures { Answers result VbFault.Memory (reported (spec.items_of dictionary heap.now)) }
{
    check_dictionary(heap, dictionary)?;
    Ok(array_of(alloc, all_items(alloc, heap, dictionary)?)?)
}

/// The key of the entry at a place, Empty where there is none.
fn key_at(alloc: Global, heap: &Heap, dictionary: ObjNo, at: u32) -> Result<Value, Memory>
    ensures { Gives result (key_in (entry_at at (dictionary_of dictionary heap.now))) }
{
    match heap.entry(dictionary, at) {
        Some(pair) => copy(alloc, &pair.key),
        None => Ok(Value::Empty),
    }
}

/// The keys of a dictionary.
fn all_keys(alloc: Global, heap: &Heap, dictionary: ObjNo) -> Result<List<Value>, Memory>
    ensures keys { Gives result (map (λ pair. pair.key) (pairs_of (dictionary_of dictionary heap.now))) }
    ensures few { IfOk result (λ keys. length keys ≤ 262144) }
{
    let count = heap.entry_count(dictionary);
    let mut keys = List::with_capacity(alloc, count as usize)?;
    for at in 0..count {
        keys.push(key_at(alloc, heap, dictionary, at)?)?;
    }
    Ok(keys)
}

/// The item of the entry at a place, Empty where there is none.
fn item_at(alloc: Global, heap: &Heap, dictionary: ObjNo, at: u32) -> Result<Value, Memory>
    ensures { Gives result (spec.item_in (entry_at at (dictionary_of dictionary heap.now))) }
{
    match heap.entry(dictionary, at) {
        Some(pair) => copy(alloc, &pair.item),
        None => Ok(Value::Empty),
    }
}

/// The items of a dictionary.
fn all_items(alloc: Global, heap: &Heap, dictionary: ObjNo) -> Result<List<Value>, Memory>
    ensures items { Gives result (map (λ pair. pair.item) (pairs_of (dictionary_of dictionary heap.now))) }
    ensures few { IfOk result (λ items. length items ≤ 262144) }
{
    let count = heap.entry_count(dictionary);
    let mut items = List::with_capacity(alloc, count as usize)?;
    for at in 0..count {
        items.push(item_at(alloc, heap, dictionary, at)?)?;
    }
    Ok(items)
}

/// Values as an array of one dimension that is not fixed.
fn array_of(alloc: Global, values: List<Value>) -> Result<Value, Memory>
    requires { length values ≤ 262144 }
    ensures { Gives result (spec.array_of values) }
{
    let bounds = List::from_slice(alloc, &[values.len() as i32 - 1])?;
    Ok(Value::Arr(Array {
        bounds,
        fixed: false,
        items: values,
    }))
}
