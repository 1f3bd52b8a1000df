//! ReDim and Erase: arrays in the place of what a variable held.
ghost use Rattle.std.specs.Prelude.{◌==◌, length, ◌≡◌, true};
ghost use Rattle.vb_value.specs.Outcome.{Answers, Gives};
ghost use Rattle.vb_heap.specs.Cells.{store_of, with_stored};
ghost use Rattle.vb_value.specs.declared.value.Value.{out-Value};
ghost use Rattle.vb_value.specs.declared.value.Value.TheViews.{Arr};
ghost use Rattle.vb_meaning.specs.declared.stop.Stop.TheVariants as stop;
ghost use Rattle.vb_meaning.specs.Places.{held_at};
ghost use Rattle.vb_meaning.specs.State.{on_store};
ghost use Rattle.vb_meaning.specs.Statements as spec;
ghost use Rattle.vb_meaning.specs.Step.{Ran, and_then, given, raising};
ghost use Rattle.vb_meaning.specs.Shown.{shown};
ghost use Rattle.vb_world.specs.Kept.{kept, most_kept};

use crate::arrays::{empty_array, empty_items, has_bad_bound, item_count};
use crate::places::{indices_of, variable};
use std::alloc::Global;
use vb_heap::{MOST_WEIGHT, Place};
use vb_meaning::{Stop, World};
use vb_syntax::program::Named;
use vb_value::{Array, Copied, LimitKind, List, MOST_DEPTH, Memory, Value, VbError, copy};

/// Error 10 where a value is a fixed array.
fn not_fixed(value: &Value) -> Result<(), VbError>
    ensures { result ≡ spec.not_fixed (out-Value value.now) }
{
    match value {
        Value::Arr(array) if array.fixed => Err(VbError::ARRAY_IS_FIXED),
        _ => Ok(()),
    }
}

/// Error 9 where a bound is below -1.
fn good_bounds(bounds: &[i32]) -> Result<(), VbError>
    ensures { result ≡ spec.good_bounds bounds.now }
{
    if has_bad_bound(bounds) {
        return Err(VbError::OUT_OF_RANGE);
    }
    Ok(())
}

/// Whether Preserve may go from these bounds to those: as many, and all but the last the same.
fn may_preserve(old: &[i32], new: &[i32]) -> bool
    ensures { result ≡ spec.may_preserve old.now new.now }
{
    if old.len() != new.len() {
        return false;
    }
    let count = old.len().saturating_sub(1);
    old[..count] == new[..count]
}

/// A copy of each value.
pub fn copies(alloc: Global, items: &[Value]) -> Result<List<Value>, Memory>
    ensures { Gives result items.now }
{
    let mut list = List::with_capacity(alloc, items.len())?;
    for item in items {
        list.push(copy(alloc, item)?)?;
    }
    Ok(list)
}

/// As many items as there are places, the old ones first.
#[tactic(auto, using(crate::proofs::Resized::kept_fewer, crate::proofs::Resized::kept_all))]
fn items_kept(alloc: Global, items: &[Value], count: usize) -> Result<List<Value>, Memory>
    ensures { Gives result (spec.items_kept items.now count) }
{
    if count <= items.len() {
        return copies(alloc, &items[..count]);
    }
    let mut list = copies(alloc, items)?;
    list.append(empty_items(alloc, count - items.len())?)?;
    Ok(list)
}

/// So many items weigh too much for any page.
const TOO_MANY: u64 = MOST_WEIGHT / 32;

/// An array of these bounds, with the items that it still has a place for. Of more items than any page has room for only
/// so many are made.
fn preserved(alloc: Global, array: &Array, bounds: List<i32>) -> Result<Array, Memory>
    ensures { Gives result (kept array.now bounds (most_kept array.now bounds)) }
{
    let most = (array.items.len() as u64).saturating_add(TOO_MANY);
    let count = item_count(bounds.as_slice()).min(most);
    Ok(Array {
        bounds,
        fixed: false,
        items: items_kept(alloc, array.items.as_slice(), count as usize)?,
    })
}

/// Puts an array of Empty items with these bounds into a place. One that weighs too much for any page takes no memory.
#[tactic(auto, using(crate::proofs::Resized::into_deep))]
fn array_into(
    alloc: Global,
    world: &mut World,
    place: &Place,
    bounds: List<i32>,
) -> Result<(), Stop>
    ensures { Ran (spec.array_into place.now bounds (shown world.old)) result (shown world.new) }
{
    if TOO_MANY <= item_count(bounds.as_slice()) {
        world.heap.look(place)?;
        if place.steps.len() < MOST_DEPTH as usize {
            return Err(Stop::Limit(LimitKind::Data, None));
        }
        return Err(Stop::Limit(LimitKind::Nest, None));
    }
    let array = empty_array(alloc, false, bounds)?;
    Ok(world.heap.store(place, Value::Arr(array))?)
}

/// Whether an array is one to be sized later.
fn has_no_dimension(array: &Array) -> bool
    ensures { result ≡ (length array.now.bounds == 0) }
{
    array.bounds.len() == 0
}

/// Puts an array into a place.
fn put_array(world: &mut World, place: &Place, array: Array) -> Result<(), Stop>
    ensures { Ran (on_store (store_of place.now (Arr array)) (with_stored place.now (Arr array))
        (shown world.old)) result (shown world.new) }
{
    Ok(world.heap.store(place, Value::Arr(array))?)
}

/// Puts an array with other bounds into a place, with the items that it still has a place for. Error 13 where there is
/// no array, and 9 where more than the last bound is another.
#[tactic(auto, using(crate::proofs::Resized::kept_shown))]
fn preserve_into(
    alloc: Global,
    world: &mut World,
    place: &Place,
    bounds: List<i32>,
) -> Result<(), Stop>
    ensures { Ran (and_then (held_at place.now (shown world.old)) (λ old w. and_then
        (given (spec.resized_array true (out-Value old) bounds) w) (λ array. on_store (store_of place.now (Arr array))
        (with_stored place.now (Arr array))))) result (shown world.new) }
{
    match world.heap.look(place)? {
        Value::Arr(array) => {
            if has_no_dimension(array) {
                return array_into(alloc, world, place, bounds);
            }
            if !may_preserve(array.bounds.as_slice(), bounds.as_slice()) {
                return Err(Stop::from(VbError::OUT_OF_RANGE));
            }
            let kept = preserved(alloc, array, bounds)?;
            put_array(world, place, kept)
        }
        _ => Err(Stop::from(VbError::TYPE_MISMATCH)),
    }
}

/// Gives what a place holds other bounds. Error 10 for a fixed array, then those of the bounds made Long, 9 for one below
/// -1, then what Preserve asks, and then the limits.
pub fn resize(
    alloc: Global,
    world: &mut World,
    preserve: bool,
    bounds: &[Value],
    place: &Place,
) -> Result<(), Stop>
    ensures { Ran (and_then (held_at place.now (shown world.old)) (spec.resize preserve bounds.now place.now)) result
        (shown world.new) }
{
    not_fixed(world.heap.look(place)?)?;
    let found = indices_of(alloc, bounds)?;
    good_bounds(found.as_slice())?;
    if preserve {
        preserve_into(alloc, world, place, found)
    } else {
        array_into(alloc, world, place, found)
    }
}

/// What Erase makes of a value. Error 13 where it is no array.
fn erased(alloc: Global, value: &Value) -> Result<Value, Stop>
    ensures { Answers result stop.Memory (raising (spec.erased (out-Value value.now))) }
{
    match value {
        Value::Arr(array) if array.fixed => {
            let bounds = array.bounds.copy()?;
            Ok(Value::Arr(empty_array(alloc, true, bounds)?))
        }
        Value::Arr(_) => Ok(Value::Arr(empty_array(alloc, false, List::new(alloc))?)),
        _ => Err(Stop::from(VbError::TYPE_MISMATCH)),
    }
}

/// Erase of what a name stands for. Error 500 for a name that nothing declares, and 13 for any other that is no variable.
fn erase(alloc: Global, world: &mut World, name: &Named) -> Result<(), Stop>
    ensures { Ran (spec.erase name.now (shown world.old)) result (shown world.new) }
{
    match name {
        Named::Place(slot) => {
            let place = variable(alloc, world, *slot)?;
            let value = erased(alloc, world.heap.look(&place)?)?;
            Ok(world.heap.store(&place, value)?)
        }
        Named::Unknown => Err(Stop::from(VbError::UNDEFINED_VARIABLE)),
        _ => Err(Stop::from(VbError::TYPE_MISMATCH)),
    }
}

/// Erase of several, in their order.
pub fn erase_all(alloc: Global, world: &mut World, mut names: &[Named]) -> Result<(), Stop>
    ensures { Ran (spec.erase_all names.entry.now (shown world.old)) result (shown world.new) }
{
    while let [first, others @ ..] = names {
        erase(alloc, world, first)?;
        names = others;
    }
    Ok(())
}
