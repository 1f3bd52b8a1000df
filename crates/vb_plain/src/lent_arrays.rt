//! Arrays that lie in variables, and functions that only their shape matters to.
ghost use Rattle.std.specs.Prelude.{◌≡◌, ◌∷◌, [], IfSome, IsTrue, Ok};
ghost use Rattle.vb_funcs.specs.Functions.{call_func_of};
ghost use Rattle.vb_heap.specs.Cells.{read_of};
ghost use Rattle.vb_heap.specs.References.{references};
ghost use Rattle.vb_meaning.specs.Shown.{shown};
ghost use Rattle.vb_meaning.specs.Step.{raising};
ghost use Rattle.vb_meaning.specs.Values.{copied};
ghost use Rattle.vb_plain.specs.Lent as spec;
ghost use Rattle.vb_value.specs.declared.value.Value.TheViews.{Arr};

use std::alloc::Global;
use std::slice::from_ref;
use vb_funcs::call_func;
use vb_heap::Place;
use vb_meaning::{World, raise};
use vb_value::{Array, Copied, List, PlainFn, Value, copy};

/// Whether no object occurs in a value. It recurses once for each array inside another.
#[tactic(auto, using(crate::proofs::Arrays::looking))]
fn is_free(value: &Value) -> bool
    ensures { IsTrue result → references (copied value.now) ≡ [] }
{
    match value {
        Value::Obj(_) => false,
        Value::Arr(array) => {
            for item in array.items.as_slice() {
                if !is_free(item) {
                    return false;
                }
            }
            true
        }
        _ => true,
    }
}

/// Whether no object occurs in the value at a place. It isn't looked through where the page refers to no object.
#[tactic(auto, using(crate::proofs::Arrays::copy_free))]
fn is_free_at(world: &World, place: &Place, value: &Value) -> bool
    ensures { read_of place.now (shown world.now).store ≡ Ok value.now → IsTrue result
        → references (copied value.now) ≡ [] }
{
    let _ = place;
    if world.heap.refers_nowhere() {
        return true;
    }
    is_free(value)
}

/// The array that a place holds, if no object occurs in it.
pub fn array_at<'a>(world: &'a World, place: &Place) -> Option<&'a Array>
    ensures at { IfSome result (λ array. read_of place.now (shown world.entry.now).store ≡ Ok (Arr array.now)) }
    ensures free { IfSome result (λ array. references (copied (Arr array.now)) ≡ []) }
{
    match world.heap.look(place) {
        Ok(value) if is_free_at(world, place, value) => match value {
            Value::Arr(array) => Some(array),
            _ => None,
        },
        _ => None,
    }
}

/// An array of the same bounds without items, as a value.
fn shape(alloc: Global, array: &Array) -> Option<Value>
    ensures { IfSome result (λ value. value ≡ Arr (spec.shape_of array.now)) }
{
    match array.bounds.copy() {
        Ok(bounds) => Some(Value::Arr(Array {
            bounds,
            fixed: false,
            items: List::new(alloc),
        })),
        Err(_) => None,
    }
}

/// Whether what a function gives of an array follows from its bounds.
fn is_by_shape(found: PlainFn) -> bool
    ensures { result ≡ spec.is_by_shape found }
{
    matches!(
        found,
        PlainFn::UBound | PlainFn::LBound | PlainFn::IsArray | PlainFn::VarType | PlainFn::IsEmpty
    )
}

/// What a function gives of a copy of an array.
#[tactic(auto, using(crate::proofs::Arrays::same_shape))]
pub fn of_array(alloc: Global, found: PlainFn, array: &Array) -> Option<Value>
    ensures { IfSome result (λ given. raising (call_func_of found (copied (Arr array.now) ∷ [])) ≡ Ok given) }
{
    if !is_by_shape(found) {
        return None;
    }
    let shape = shape(alloc, array)?;
    match raise(call_func(alloc, found, from_ref(&shape))) {
        Ok(given) => Some(given),
        Err(_) => None,
    }
}

/// Two values as a list.
fn both(alloc: Global, first: Value, second: &Value) -> Option<List<Value>>
    ensures { IfSome result (λ values. values ≡ first ∷ second.now ∷ []) }
{
    let mut values = List::new(alloc);
    let Ok(second) = copy(alloc, second) else {
        return None;
    };
    match (values.push(first), values.push(second)) {
        (Ok(()), Ok(())) => Some(values),
        _ => None,
    }
}

/// What a function gives of a copy of an array and one argument more.
#[tactic(auto, using(crate::proofs::Arrays::same_bound))]
pub fn of_array_and(alloc: Global, found: PlainFn, array: &Array, more: &Value) -> Option<Value>
    ensures { IfSome result (λ given.
        raising (call_func_of found (copied (Arr array.now) ∷ more.now ∷ [])) ≡ Ok given) }
{
    if !is_by_shape(found) {
        return None;
    }
    let arguments = both(alloc, shape(alloc, array)?, more)?;
    match raise(call_func(alloc, found, arguments.as_slice())) {
        Ok(given) => Some(given),
        Err(_) => None,
    }
}
