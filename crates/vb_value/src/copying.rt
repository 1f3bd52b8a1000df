//! Copies of values.
ghost use Rattle.std.specs.Prelude.{◌≡◌};
ghost use Rattle.vb_value.specs.Outcome.{Gives};

use crate::copied::Copied;
use crate::list::List;
use crate::memory::Memory;
use crate::value::{Array, Value};
use std::alloc::Global;

/// A value equal to this one. It recurses once for each array inside another.
#[cycle(copying)]
pub fn copy(alloc: Global, value: &Value) -> Result<Value, Memory>
    ensures { Gives result value.now }
{
    match value {
        Value::Empty => Ok(Value::Empty),
        Value::Null => Ok(Value::Null),
        Value::Bool(truth) => Ok(Value::Bool(*truth)),
        Value::Int(n) => Ok(Value::Int(*n)),
        Value::Long(n) => Ok(Value::Long(*n)),
        Value::Cur(n) => Ok(Value::Cur(*n)),
        Value::Str(text) => Ok(Value::Str(text.copy()?)),
        Value::Arr(array) => Ok(Value::Arr(copy_array(alloc, array)?)),
        Value::Obj(object) => Ok(Value::Obj(*object)),
        Value::Nothing => Ok(Value::Nothing),
    }
}

/// An array equal to this one.
#[cycle(copying)]
pub fn copy_array(alloc: Global, array: &Array) -> Result<Array, Memory>
    ensures { Gives result array.now }
{
    let bounds = array.bounds.copy()?;
    let mut items = List::with_capacity(alloc, array.items.len())?;
    for item in array.items.as_slice() {
        items.push(copy(alloc, item)?)?;
    }
    Ok(Array {
        bounds,
        fixed: array.fixed,
        items,
    })
}
