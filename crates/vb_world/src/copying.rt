//! Copies of values as they leave a variable.
ghost use Rattle.std.specs.Prelude.{◌≡◌};
ghost use Rattle.vb_value.specs.Outcome.{Gives};
ghost use Rattle.vb_meaning.specs.Values as spec;

use std::alloc::Global;
use vb_value::{Array, Copied, List, Memory, Value};

/// A copy of a value, in which no array is fixed. It recurses once for each array inside another.
#[cycle(copying)]
pub fn copied(alloc: Global, value: &Value) -> Result<Value, Memory>
    ensures { Gives result (spec.copied value.now) }
{
    match value {
        Value::Empty => Ok(Value::Empty),
        Value::Null => Ok(Value::Null),
        Value::Bool(truth) => Ok(Value::Bool(*truth)),
        Value::Int(number) => Ok(Value::Int(*number)),
        Value::Long(number) => Ok(Value::Long(*number)),
        Value::Cur(number) => Ok(Value::Cur(*number)),
        Value::Str(text) => Ok(Value::Str(text.copy()?)),
        Value::Arr(array) => Ok(Value::Arr(copied_array(alloc, array)?)),
        Value::Obj(object) => Ok(Value::Obj(*object)),
        Value::Nothing => Ok(Value::Nothing),
    }
}

/// A copy of an array, which is not fixed.
#[cycle(copying)]
fn copied_array(alloc: Global, array: &Array) -> Result<Array, Memory>
    ensures { Gives result (spec.copied_array array.now) }
{
    let bounds = array.bounds.copy()?;
    let mut items = List::with_capacity(alloc, array.items.len())?;
    for item in array.items.as_slice() {
        items.push(copied(alloc, item)?)?;
    }
    Ok(Array {
        bounds,
        fixed: false,
        items,
    })
}
