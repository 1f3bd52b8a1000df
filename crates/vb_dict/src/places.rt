//! Dictionaries, and where the entries of keys stand.
ghost use Rattle.std.specs.Prelude.{◌≡◌, ℤ, is_some};
ghost use Rattle.vb_value.specs.Errors.{and_then, reported};
ghost use Rattle.vb_value.specs.Outcome.{Answers};
ghost use Rattle.vb_heap.specs.DictionaryCalls as spec;
ghost use Rattle.vb_heap.specs.Entries.{dictionary_of};
ghost use Rattle.vb_heap.specs.Keys.{key_of};

use vb_heap::Heap;
use vb_value::{ObjNo, Value, VbError, VbFault};

/// Whether an object is a dictionary. Error 91 where it has ended, and 438 where it is one of a class.
pub fn check_dictionary(heap: &Heap, dictionary: ObjNo) -> Result<(), VbError>
    ensures { result ≡ and_then (dictionary_of dictionary heap.now) (λ _. Ok tt) }
{
    match heap.class(dictionary)? {
        Some(_) => Err(VbError::UNSUPPORTED),
        None => Ok(()),
    }
}

/// Whether a value can be a key: no array, Null, Nothing or object can.
fn is_key(value: &Value) -> bool
    ensures { (mode : ℤ) → result ≡ is_some (key_of mode value.now) }
{
    match value {
        Value::Empty | Value::Bool(_) | Value::Int(_) | Value::Long(_) => true,
        Value::Cur(_) | Value::Str(_) => true,
        Value::Null | Value::Arr(_) | Value::Obj(_) | Value::Nothing => false,
    }
}

/// Where the entry of a key stands in a dictionary, if it has one. Error 91 where the object has ended, 438 where it is
/// no dictionary, and 5 where the key can be none.
pub fn place_of(heap: &Heap, dictionary: ObjNo, key: &Value) -> Result<Option<u32>, VbFault>
    ensures { Answers result VbFault.Memory (reported (spec.place_in dictionary key.now heap.now)) }
{
    check_dictionary(heap, dictionary)?;
    if !is_key(key) {
        return Err(VbError::INVALID_CALL)?;
    }
    Ok(heap.find_entry(dictionary, key)?)
}
