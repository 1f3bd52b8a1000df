//! The calls of a dictionary on one entry.
ghost use Rattle.std.specs.Prelude.{◌≡◌};
ghost use Rattle.vb_value.specs.Errors.{reported};
ghost use Rattle.vb_value.specs.Outcome.{Answers, Changes};
ghost use Rattle.vb_heap.specs.DictionaryCalls as spec;
ghost use Rattle.vb_heap.specs.Entries.{add_entry_of, with_entry};

use crate::places::place_of;
use std::alloc::Global;
use vb_heap::{Heap, HeapStop};
use vb_value::{ObjNo, Value, VbError, VbFault, copy};

/// `Add`: an entry more, the last. Error 91 where the object has ended, 438 where it is no dictionary, 5 where the key
/// can be none, 457 where it has an entry, then the limit Nest, and then the limit Data.
pub fn add(
    alloc: Global,
    heap: &mut Heap,
    dictionary: ObjNo,
    key: &Value,
    item: Value,
) -> Result<(), HeapStop>
    ensures answer { Answers result HeapStop.Memory (add_entry_of dictionary key.now item heap.old) }
    ensures data { Changes result heap.old heap.new (with_entry dictionary key.now item heap.old) }
{
    heap.add_entry(dictionary, copy(alloc, key)?, item)
}

/// `Item`, written: another item in the key's entry, which stays in its place, or an entry more. Errors 91, 438 and 5
/// as for `add`, then the limit Nest, and then the limit Data.
pub fn put(
    alloc: Global,
    heap: &mut Heap,
    dictionary: ObjNo,
    key: &Value,
    item: Value,
) -> Result<(), HeapStop>
    ensures answer { Answers result HeapStop.Memory (spec.put_of dictionary key.now item heap.old) }
    ensures data { Changes result heap.old heap.new (spec.with_put dictionary key.now item heap.old) }
{
    match place_of(heap, dictionary, key)? {
        Some(at) => heap.set_entry(dictionary, at, item),
        None => heap.add_entry(dictionary, copy(alloc, key)?, item),
    }
}

/// `Item`, read: a copy of the key's item. Where the key has no entry it gets one of the item Empty. Errors 91, 438 and
/// 5 as for `add`, then the limit Data.
pub fn get(
    alloc: Global,
    heap: &mut Heap,
    dictionary: ObjNo,
    key: &Value,
) -> Result<Value, HeapStop>
    ensures answer { Answers result HeapStop.Memory (spec.get_of dictionary key.now heap.old) }
    ensures data { Changes result heap.old heap.new (spec.with_got dictionary key.now heap.old) }
{
    match place_of(heap, dictionary, key)? {
        Some(at) => match heap.entry(dictionary, at) {
            Some(pair) => Ok(copy(alloc, &pair.item)?),
            None => Ok(Value::Empty),
        },
        None => match heap.add_entry(dictionary, copy(alloc, key)?, Value::Empty) {
            Ok(()) => Ok(Value::Empty),
            Err(stop) => Err(stop),
        },
    }
}

/// `Exists`: whether a key has an entry. Errors 91, 438 and 5 as for `add`.
pub fn exists(heap: &Heap, dictionary: ObjNo, key: &Value) -> Result<bool, VbFault>
    ensures { Answers result VbFault.Memory (reported (spec.exists_of dictionary key.now heap.now)) }
{
    Ok(place_of(heap, dictionary, key)?.is_some())
}

/// `Remove`: the key's entry is gone, and the later ones move up. Errors 91, 438 and 5 as for `add`, and 32811 where
/// the key has no entry.
pub fn remove(heap: &mut Heap, dictionary: ObjNo, key: &Value) -> Result<(), HeapStop>
    ensures answer { Answers result HeapStop.Memory (spec.remove_of dictionary key.now heap.old) }
    ensures data { Changes result heap.old heap.new (spec.with_removed dictionary key.now heap.old) }
{
    match place_of(heap, dictionary, key)? {
        Some(at) => {
            heap.drop_entry(dictionary, at);
            Ok(())
        }
        None => Err(VbError::ELEMENT_NOT_FOUND)?,
    }
}
