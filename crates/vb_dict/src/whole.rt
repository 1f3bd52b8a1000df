//! The calls on a whole dictionary.
ghost use Rattle.std.specs.Prelude.{◌≡◌, ◌||◌, pos};
ghost use Rattle.std.specs.Ordering.{int_eq};
ghost use Rattle.vb_value.specs.Outcome.{Answers, Changes};
ghost use Rattle.vb_heap.specs.DictionaryCalls as spec;
ghost use Rattle.vb_heap.specs.Entries.{new_table_of, with_mode, with_new_table, without_entries};

use crate::places::check_dictionary;
use vb_heap::{Heap, HeapStop};
use vb_value::{ObjNo, VbError};

/// A new dictionary, without entries and of mode 0. The limit Data where none more fits.
pub fn new_dict(heap: &mut Heap) -> Result<ObjNo, HeapStop>
    ensures answer { Answers result HeapStop.Memory (new_table_of heap.old) }
    ensures data { Changes result heap.old heap.new (with_new_table heap.old) }
{
    heap.new_table()
}

/// `RemoveAll`: all entries are gone. Error 91 where the object has ended, and 438 where it is no dictionary.
pub fn remove_all(heap: &mut Heap, dictionary: ObjNo) -> Result<(), HeapStop>
    ensures answer { Answers result HeapStop.Memory (spec.remove_all_of dictionary heap.old) }
    ensures data { Changes result heap.old heap.new (without_entries dictionary heap.old) }
{
    check_dictionary(heap, dictionary)?;
    heap.drop_entries(dictionary);
    Ok(())
}

/// `Count`: how many entries there are. Errors 91 and 438 as for `remove_all`.
pub fn count(heap: &Heap, dictionary: ObjNo) -> Result<i32, VbError>
    ensures { result ≡ spec.count_of dictionary heap.now }
{
    check_dictionary(heap, dictionary)?;
    Ok(heap.entry_count(dictionary) as i32)
}

/// `CompareMode`, read: 0 with case, 1 without it. Errors 91 and 438 as for `remove_all`.
pub fn mode(heap: &Heap, dictionary: ObjNo) -> Result<i32, VbError>
    ensures { result ≡ spec.compare_mode_of dictionary heap.now }
{
    check_dictionary(heap, dictionary)?;
    Ok(heap.table_mode(dictionary))
}

/// `CompareMode`, written. Errors 91 and 438 as for `remove_all`, and 5 where there are entries or the mode is neither
/// 0 nor 1.
pub fn set_mode(heap: &mut Heap, dictionary: ObjNo, mode: i32) -> Result<(), HeapStop>
    ensures answer { Answers result HeapStop.Memory (spec.set_mode_of dictionary mode heap.old) }
    ensures data { Changes result heap.old heap.new (with_mode dictionary mode heap.old) }
{
    check_dictionary(heap, dictionary)?;
    if !is_mode(mode) || heap.entry_count(dictionary) != 0 {
        return Err(VbError::INVALID_CALL)?;
    }
    heap.set_table_mode(dictionary, mode);
    Ok(())
}

/// Whether a number is a mode.
fn is_mode(mode: i32) -> bool
    ensures { result ≡ (int_eq mode (pos 0) || int_eq mode (pos 1)) }
{
    mode == 0 || mode == 1
}
