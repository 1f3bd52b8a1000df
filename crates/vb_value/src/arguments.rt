//! What functions ask of their arguments.
ghost use Rattle.std.specs.Prelude.{◌≡◌, IfOk, IfErr, Ok, Err};
ghost use Rattle.vb_value.specs.Arguments as spec;

use crate::fault::VbError;
use crate::value::Value;

/// The argument of a function that takes one; error 450 for another number of arguments.
pub fn the_argument(args: &[Value]) -> Result<&Value, VbError>
    ensures given { IfOk result (λ x. spec.the_argument args.now ≡ Ok x.now) }
    ensures refused { IfErr result (λ e. spec.the_argument args.now ≡ Err e) }
{
    match args {
        [argument] => Ok(argument),
        _ => Err(VbError::WRONG_NUMBER),
    }
}

/// Whether the value is Null.
pub fn is_null(value: &Value) -> bool
    ensures { result ≡ spec.is_null value.now }
{
    match value {
        Value::Null => true,
        _ => false,
    }
}

/// Whether the value is Empty.
pub fn is_empty(value: &Value) -> bool
    ensures { result ≡ spec.is_empty value.now }
{
    match value {
        Value::Empty => true,
        _ => false,
    }
}

/// Error 13 for an array, 438 for an object, 91 for Nothing, none for another value.
pub fn check(value: &Value) -> Result<(), VbError>
    ensures { result ≡ spec.checked value.now }
{
    match value {
        Value::Arr(_) => Err(VbError::TYPE_MISMATCH),
        Value::Obj(_) => Err(VbError::UNSUPPORTED),
        Value::Nothing => Err(VbError::OBJECT_NOT_SET),
        Value::Empty | Value::Null | Value::Bool(_) => Ok(()),
        Value::Int(_) | Value::Long(_) | Value::Cur(_) | Value::Str(_) => Ok(()),
    }
}
