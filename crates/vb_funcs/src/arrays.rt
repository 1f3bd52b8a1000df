//! Arrays of given values, and bounds.
ghost use Rattle.std.specs.Prelude.{◌≡◌, ◌≤◌, length};
ghost use Rattle.vb_value.specs.Outcome.{Gives};
ghost use Rattle.vb_funcs.specs.Arrays as spec;

use std::alloc::Global;
use vb_value::{Array, List, Memory, Value, VbError, copy, is_null, to_long};

/// `Array`.
pub fn array(alloc: Global, values: &[Value]) -> Result<Value, Memory>
    requires { length values.now ≤ 255 }
    ensures { Gives result (spec.array_of values.now) }
{
    let bounds = List::from_slice(alloc, &[values.len() as i32 - 1])?;
    let items = copies(alloc, values)?;
    Ok(Value::Arr(Array {
        bounds,
        fixed: false,
        items,
    }))
}

/// Copies of the values.
fn copies(alloc: Global, values: &[Value]) -> Result<List<Value>, Memory>
    ensures { Gives result values.now }
{
    let mut items = List::with_capacity(alloc, values.len())?;
    for value in values {
        items.push(copy(alloc, value)?)?;
    }
    Ok(items)
}

/// `UBound`.
pub fn ubound(args: &[Value]) -> Result<Value, VbError>
    ensures { result ≡ spec.ubound_of args.now }
{
    Ok(Value::Long(named_bound(args)?))
}

/// `LBound`.
pub fn lbound(args: &[Value]) -> Result<Value, VbError>
    ensures { result ≡ spec.lbound_of args.now }
{
    named_bound(args)?;
    Ok(Value::Long(0))
}

/// The bound that the arguments name, of the first dimension where they name none.
fn named_bound(args: &[Value]) -> Result<i32, VbError>
    ensures { result ≡ spec.named_bound args.now }
{
    match args {
        [value] => bound_of(value, Ok(1)),
        [value, dimension] => bound_of(value, to_long(dimension)),
        _ => Err(VbError::WRONG_NUMBER),
    }
}

/// The bound of a value's dimension. Error 94 for Null, then that of the dimension, then 13 for no array.
fn bound_of(value: &Value, dimension: Result<i32, VbError>) -> Result<i32, VbError>
    ensures { result ≡ spec.bound_of value.now dimension }
{
    if is_null(value) {
        return Err(VbError::INVALID_USE_OF_NULL);
    }
    let dimension = dimension?;
    match value {
        Value::Arr(array) => bound_at(array.bounds.as_slice(), dimension),
        Value::Empty | Value::Null | Value::Bool(_) => Err(VbError::TYPE_MISMATCH),
        Value::Int(_) | Value::Long(_) | Value::Cur(_) => Err(VbError::TYPE_MISMATCH),
        Value::Str(_) | Value::Obj(_) | Value::Nothing => Err(VbError::TYPE_MISMATCH),
    }
}

/// The bound of a dimension, which counts from 1; error 9 where there is none.
fn bound_at(bounds: &[i32], dimension: i32) -> Result<i32, VbError>
    ensures { result ≡ spec.bound_at bounds.now dimension }
{
    if dimension < 1 {
        return Err(VbError::OUT_OF_RANGE);
    }
    match bounds.get(dimension as usize - 1) {
        Some(bound) => Ok(*bound),
        None => Err(VbError::OUT_OF_RANGE),
    }
}
