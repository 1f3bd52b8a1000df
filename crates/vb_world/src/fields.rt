//! Objects of classes as they are made.
ghost use Rattle.std.specs.Prelude.{◌≡◌, ◌+◌, ◌*◌, min, nat_lt, length, slice_get, ◌^◌};
ghost use Rattle.std.specs.Option.{option_copied, option_and_then};
ghost use Rattle.vb_value.specs.declared.value.Value.{Obj};
ghost use Rattle.vb_value.specs.declared.value.Value.TheViews.{Arr};
ghost use Rattle.vb_heap.specs.Cells.{store_of, with_stored};
ghost use Rattle.vb_heap.specs.Limits.{most_weight};
ghost use Rattle.vb_heap.specs.Objects.{new_object_of, with_new_object};
ghost use Rattle.vb_meaning.specs.Making as spec;
ghost use Rattle.vb_meaning.specs.Places as places;
ghost use Rattle.vb_meaning.specs.State.{on_store};
ghost use Rattle.vb_meaning.specs.Step.{Ran, and_then, given, pure};
ghost use Rattle.vb_meaning.specs.Values as values;
ghost use Rattle.vb_meaning.specs.Values.{empty_array};
ghost use Rattle.vb_meaning.specs.Shown.{shown};

use crate::arrays::{empty_array, has_bad_bound, item_count};
use crate::places::{cell_place, hold};
use std::alloc::Global;
use vb_heap::{CellNo, MOST_WEIGHT};
use vb_meaning::{Stop, World, stop_in};
use vb_syntax::program::{Class, Field, Procedure, Variable};
use vb_value::{LimitKind, List, ObjNo, Value, VbError};

/// Whether an array of so many Empty items alone weighs more than the data of a page may.
fn is_more_than_a_page(count: u64) -> bool
    ensures { result ≡ nat_lt most_weight (32 + 32 * count) }
{
    MOST_WEIGHT < count.saturating_mul(32).saturating_add(32)
}

/// Puts an array of Empty items into a cell. One that no page has room for takes no memory.
fn array_into_cell(
    alloc: Global,
    world: &mut World,
    cell: CellNo,
    is_fixed: bool,
    bounds: &[i32],
) -> Result<(), Stop>
    ensures { Ran (on_store (store_of (places.cell_place cell) (Arr (empty_array is_fixed bounds.now)))
        (with_stored (places.cell_place cell) (Arr (empty_array is_fixed bounds.now))) (shown world.old)) result
        (shown world.new) }
{
    let place = cell_place(alloc, cell);
    world.heap.look(&place)?;
    if is_more_than_a_page(item_count(bounds)) {
        return Err(Stop::Limit(LimitKind::Data, None));
    }
    let array = empty_array(alloc, is_fixed, List::from_slice(alloc, bounds)?)?;
    Ok(world.heap.store(&place, Value::Arr(array))?)
}

/// Puts an array as it is declared into a cell. Error 9 for a bound below -1.
fn declared_into_cell(
    alloc: Global,
    world: &mut World,
    cell: CellNo,
    bounds: &[i32],
) -> Result<(), Stop>
    ensures { Ran (and_then (given (values.declared_array bounds.now) (shown world.old))
        (λ array. on_store (store_of (places.cell_place cell) array) (with_stored (places.cell_place cell) array)))
        result (shown world.new) }
{
    match bounds {
        [] => array_into_cell(alloc, world, cell, false, bounds),
        [_, ..] => {
            if has_bad_bound(bounds) {
                return Err(Stop::from(VbError::OUT_OF_RANGE));
            }
            array_into_cell(alloc, world, cell, true, bounds)
        }
    }
}

/// Puts an array into the field that is declared as one.
fn array_into(
    alloc: Global,
    world: &mut World,
    object: ObjNo,
    field: u32,
    bounds: &[i32],
) -> Result<(), Stop>
    ensures { Ran (spec.array_into object field bounds.now (shown world.old)) result (shown world.new) }
{
    let cell = world.heap.field(object, field)?;
    declared_into_cell(alloc, world, cell, bounds)
}

/// A field as it is declared. A fault of its bounds is in the line of the declaration.
fn field_made(
    alloc: Global,
    world: &mut World,
    object: ObjNo,
    field: u32,
    variable: &Variable,
) -> Result<(), Stop>
    ensures { Ran (spec.field_made object field variable.now (shown world.old)) result (shown world.new) }
{
    let Some(bounds) = &variable.bounds else {
        return Ok(());
    };
    match array_into(alloc, world, object, field, bounds.as_slice()) {
        Ok(()) => Ok(()),
        Err(why) => Err(stop_in(variable.line, why)),
    }
}

/// The fields of an object as they are declared.
fn fields_made(
    alloc: Global,
    world: &mut World,
    object: ObjNo,
    mut fields: &[Field],
) -> Result<(), Stop>
    ensures { Ran (spec.fields_made object 0 fields.entry.now (shown world.old)) result (shown world.new) }
{
    let mut number: u32 = 0;
    while let [field, rest @ ..] = fields {
        field_made(alloc, world, object, number, &field.variable)?;
        if number == u32::MAX {
            return Err(Stop::Memory);
        }
        number += 1;
        fields = rest;
    }
    Ok(())
}

/// Makes an object of a class with its fields as they are declared, and holds it.
pub fn object_made(
    alloc: Global,
    world: &mut World,
    number: u32,
    fields: &[Field],
) -> Result<ObjNo, Stop>
    ensures { Ran (and_then
        (on_store (new_object_of number (length fields.now)) (with_new_object number (length fields.now))
        (shown world.old))
        (λ object w. and_then (and_then (places.hold (Obj object) w) (λ held. spec.fields_made object 0 fields.now))
        (λ made. pure object))) result (shown world.new) }
{
    let Ok(count) = u32::try_from(fields.len()) else {
        return Err(Stop::Memory);
    };
    let object = world.heap.new_object(number, count)?;
    hold(world, &Value::Obj(object))?;
    fields_made(alloc, world, object, fields)?;
    Ok(object)
}

/// The Class_Initialize of a class, if it has one.
pub fn initializer<'a>(class: &'a Class) -> Option<&'a Procedure>
    ensures { option_copied result ≡ option_and_then (slice_get class.now.procedures) class.now.initialize }
{
    let number = class.initialize?;
    class.procedures.get(number as usize)
}
