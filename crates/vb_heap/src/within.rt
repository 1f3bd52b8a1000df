//! Values within values.
ghost use Rattle.std.specs.Prelude.{◌≡◌, ◌<◌, IfSome, length, slice_get};
ghost use Rattle.vb_value.specs.declared.value.Value.{out-Value};
ghost use Rattle.vb_heap.specs.Places as spec;
ghost use Rattle.vb_heap.specs.Saturated.{saturated, counted, result_now};

use std::mem;
use vb_value::{Array, List, Value, VbError};

/// Where the item at `indices` stands among the items of an array of these bounds, if it is in range: 2^64 - 1 stands
/// for a greater place, where no item is.
#[tactic(auto, using(crate::proofs::Positions::positions))]
fn position(bounds: &[i32], indices: &[i32]) -> Option<usize>
    ensures { result ≡ saturated (spec.position bounds.now indices.now) }
{
    match bounds {
        [] => { if indices.is_empty() { Some(0) } else { None } }
        [bound, bounds @ ..] => match indices {
            [] => None,
            [index, indices @ ..] => beside(*bound, *index, position(bounds, indices)),
        },
    }
}

/// Where an item stands, by its first index and by where it would stand if that dimension were away.
#[tactic(auto, using(std::proofs::lemmas::Bool::Decides::nat_tests))]
fn beside(bound: i32, index: i32, rest: Option<usize>) -> Option<usize>
    ensures { result ≡ saturated (spec.beside bound index rest) }
{
    let rest = rest?;
    if index < 0 || bound < index {
        return None;
    }
    let places = bound as usize + 1;
    Some(places.saturating_mul(rest).saturating_add(index as usize))
}

/// Where the item at `indices` stands among the items of an array, if it is there.
#[tactic(auto, using(crate::proofs::Positions::counted_saturated))]
fn place_of(array: &Array, indices: &[i32]) -> Option<usize>
    ensures place { result ≡ counted (length array.now.items) (spec.position array.now.bounds indices.now) }
    ensures within { IfSome result (λ at. at < length array.now.items) }
{
    let at = position(array.bounds.as_slice(), indices)?;
    if at < array.items.len() {
        Some(at)
    } else {
        None
    }
}

/// The item at `indices` in a value. Error 13 where that is no array, and 9 where there is no such item.
fn item<'a>(value: &'a Value, indices: &[i32]) -> Result<&'a Value, VbError>
    ensures { result_now result ≡ spec.item_of indices.now (out-Value value.now) }
{
    match value {
        Value::Arr(array) => item_of_array(array, indices),
        Value::Empty | Value::Null | Value::Bool(_) => Err(VbError::TYPE_MISMATCH),
        Value::Int(_) | Value::Long(_) | Value::Cur(_) => Err(VbError::TYPE_MISMATCH),
        Value::Str(_) | Value::Obj(_) | Value::Nothing => Err(VbError::TYPE_MISMATCH),
    }
}

/// The item at `indices` in an array. Error 9 where there is none.
#[tactic(auto, using(crate::proofs::Positions::items))]
fn item_of_array<'a>(array: &'a Array, indices: &[i32]) -> Result<&'a Value, VbError>
    ensures { result_now result
        ≡ spec.in_range (spec.item_at array.now.items (spec.position array.now.bounds indices.now)) }
{
    match place_of(array, indices) {
        Some(at) => Ok(&array.items.as_slice()[at]),
        None => Err(VbError::OUT_OF_RANGE),
    }
}

/// The value at a place in a value. Error 13 where an index is asked of no array, and 9 where there is no such item.
pub fn value_in<'a>(value: &'a Value, steps: &[List<i32>]) -> Result<&'a Value, VbError>
    ensures { result_now result ≡ spec.value_in steps.now value.now }
{
    match steps {
        [] => Ok(value),
        [indices, steps @ ..] => value_in(item(value, indices.as_slice())?, steps),
    }
}

/// Puts another value at a place in a value, if there is such a place.
#[cycle(put)]
pub fn put(value: &mut Value, steps: &[List<i32>], new: Value)
    ensures { value.new ≡ spec.with_value steps.now new value.old }
{
    match steps {
        [] => *value = new,
        [indices, steps @ ..] => put_in(value, indices.as_slice(), steps, new),
    }
}

/// The same of an item and of a place in it.
#[cycle(put)]
fn put_in(value: &mut Value, indices: &[i32], steps: &[List<i32>], new: Value)
    ensures { value.new
        ≡ spec.item_changed (spec.with_value steps.now new) indices.now value.old (out-Value value.old) }
{
    if let Value::Arr(array) = value {
        put_in_array(array, indices, steps, new);
    }
}

/// The same of an item of an array.
#[cycle(put)]
fn put_in_array(array: &mut Array, indices: &[i32], steps: &[List<i32>], new: Value)
    ensures { array.new ≡ spec.array_changed (spec.with_value steps.now new) array.old
        (spec.position array.old.bounds indices.now) }
{
    if let Some(at) = place_of(array, indices) {
        put_item(&mut array.items, at, steps, new);
    }
}

/// The same of the item that stands somewhere.
#[cycle(put)]
fn put_item(items: &mut List<Value>, at: usize, steps: &[List<i32>], new: Value)
    requires { at < length items.old }
    ensures { items.new ≡ spec.items_changed (spec.with_value steps.now new) items.old at (slice_get items.old at) }
{
    let empty = List::new(*items.allocator());
    let mut all = mem::replace(items, empty).into_vec();
    put(&mut all[at], steps, new);
    *items = List::from_vec(all);
}
