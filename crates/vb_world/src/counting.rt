//! What loops count and go over.
ghost use Rattle.std.specs.Prelude.{◌≡◌, None};
ghost use Rattle.vb_value.specs.Numbers.{amount_of};
ghost use Rattle.vb_value.specs.declared.value.Value.{out-Value};
ghost use Rattle.vb_meaning.specs.Loops as spec;
ghost use Rattle.vb_meaning.specs.Step.{Ran, given};
ghost use Rattle.vb_meaning.specs.Shown.{shown};

use crate::places::{read_place, store_place, target_variable};
use std::alloc::Global;
use vb_meaning::{Range, Stop, World, raise};
use vb_ops::{apply2, truth};
use vb_syntax::program::Named;
use vb_value::{List, ObjNo, Op2, Value, VbError, number_value, to_number};

/// The three numbers of a For, made of values from left to right.
pub fn range_of(from: &Value, to: &Value, step: &Value) -> Result<Range, VbError>
    ensures { result ≡ spec.range_of from.now to.now step.now }
{
    Ok(Range {
        from: to_number(from)?,
        to: to_number(to)?,
        step: to_number(step)?,
    })
}

/// How the variable of a For is compared with the last value.
fn comparison_by(range: Range) -> Op2
    ensures { result ≡ spec.comparison_by (amount_of range.step) }
{
    if range.step.amount() < 0 {
        Op2::AtLeast
    } else {
        Op2::AtMost
    }
}

/// Whether the variable of a For has not passed the last value.
pub fn is_within(alloc: Global, world: &World, variable: &Named, range: Range) -> Result<bool, Stop>
    ensures { Ran (spec.is_within variable.now range (shown world.now)) result (shown world.now) }
{
    let place = target_variable(alloc, world, variable)?;
    let value = read_place(alloc, world, &place)?;
    let last = number_value(range.to);
    let compared = raise(apply2(alloc, comparison_by(range), &value, &last))?;
    Ok(truth(&compared)?)
}

/// Puts a value into the variable of a loop.
pub fn set_variable(
    alloc: Global,
    world: &mut World,
    variable: &Named,
    value: Value,
) -> Result<(), Stop>
    ensures { Ran (spec.set_variable variable.now value (shown world.old)) result (shown world.new) }
{
    let place = target_variable(alloc, world, variable)?;
    store_place(world, &place, value)
}

/// Adds the step to the variable of a For.
pub fn add_step(
    alloc: Global,
    world: &mut World,
    variable: &Named,
    range: Range,
) -> Result<(), Stop>
    ensures { Ran (spec.add_step variable.now range (shown world.old)) result (shown world.new) }
{
    let place = target_variable(alloc, world, variable)?;
    let value = read_place(alloc, world, &place)?;
    let step = number_value(range.step);
    let next = raise(apply2(alloc, Op2::Add, &value, &step))?;
    store_place(world, &place, next)
}

/// The keys of a dictionary.
fn keys_of(alloc: Global, world: &World, object: ObjNo) -> Result<List<Value>, Stop>
    ensures { Ran (given (spec.keys_of object (shown world.now).store None) (shown world.now)) result
        (shown world.now) }
{
    match raise(vb_dict::keys(alloc, &world.heap, object))? {
        Value::Arr(array) => Ok(array.items),
        _ => Err(Stop::Memory),
    }
}

/// What a For Each goes over. Error 451 for a scalar, 91 for Nothing, and 438 for an object that is no dictionary.
pub fn items_of(alloc: Global, world: &World, group: Value) -> Result<List<Value>, Stop>
    ensures { Ran (given (spec.items_of (shown world.now).store (out-Value group)) (shown world.now)) result
        (shown world.now) }
{
    match group {
        Value::Arr(array) => Ok(array.items),
        Value::Obj(object) => match world.heap.class(object)? {
            None => keys_of(alloc, world, object),
            Some(_) => Err(Stop::from(VbError::UNSUPPORTED)),
        },
        Value::Nothing => Err(Stop::from(VbError::OBJECT_NOT_SET)),
        _ => Err(Stop::from(VbError::NOT_A_COLLECTION)),
    }
}
