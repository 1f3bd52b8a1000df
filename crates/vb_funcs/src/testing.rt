//! Kinds of values.
ghost use Rattle.std.specs.Prelude.{◌≡◌};
ghost use Rattle.vb_funcs.specs.Testing as spec;

use vb_value::{Value, VbError, cur_of_text, the_argument};

/// Whether the value is an array.
pub fn is_array(value: &Value) -> bool
    ensures { result ≡ spec.is_array value.now }
{
    match value {
        Value::Arr(_) => true,
        Value::Empty | Value::Null | Value::Bool(_) | Value::Int(_) | Value::Long(_) => false,
        Value::Cur(_) | Value::Str(_) | Value::Obj(_) | Value::Nothing => false,
    }
}

/// Whether the value is an object or Nothing.
pub fn is_object(value: &Value) -> bool
    ensures { result ≡ spec.is_object value.now }
{
    match value {
        Value::Obj(_) | Value::Nothing => true,
        _ => false,
    }
}

/// Whether the value is Empty, a Boolean, a number, or a text that is a Currency.
pub fn is_numeric(value: &Value) -> bool
    ensures { result ≡ spec.is_numeric value.now }
{
    match value {
        Value::Empty | Value::Bool(_) => true,
        Value::Int(_) | Value::Long(_) | Value::Cur(_) => true,
        Value::Str(text) => cur_of_text(text).is_ok(),
        Value::Null | Value::Arr(_) | Value::Obj(_) | Value::Nothing => false,
    }
}

/// `VarType`.
pub fn var_type(args: &[Value]) -> Result<Value, VbError>
    ensures { result ≡ spec.var_type_of args.now }
{
    Ok(Value::Int(kind(the_argument(args)?)))
}

/// The number of the value's kind.
fn kind(value: &Value) -> i16
    ensures { result ≡ spec.kind_of value.now }
{
    match value {
        Value::Empty => 0,
        Value::Null => 1,
        Value::Int(_) => 2,
        Value::Long(_) => 3,
        Value::Cur(_) => 6,
        Value::Str(_) => 8,
        Value::Obj(_) | Value::Nothing => 9,
        Value::Bool(_) => 11,
        Value::Arr(_) => 8204,
    }
}
