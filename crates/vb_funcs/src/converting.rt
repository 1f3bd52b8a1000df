//! Values made another kind.
ghost use Rattle.std.specs.Prelude.{◌≡◌};
ghost use Rattle.vb_value.specs.Errors.{reported};
ghost use Rattle.vb_value.specs.Outcome.{Answers};
ghost use Rattle.vb_funcs.specs.Converting as spec;

use std::alloc::Global;
use vb_value::{
    Value, VbError, VbFault, limited, the_argument, to_bool, to_cur, to_int, to_long, to_str,
};

/// `CBool`.
pub fn cbool(args: &[Value]) -> Result<Value, VbError>
    ensures { result ≡ spec.cbool_of args.now }
{
    let x = the_argument(args)?;
    Ok(Value::Bool(to_bool(x)?))
}

/// `CCur`.
pub fn ccur(args: &[Value]) -> Result<Value, VbError>
    ensures { result ≡ spec.ccur_of args.now }
{
    let x = the_argument(args)?;
    Ok(Value::Cur(to_cur(x)?))
}

/// `CInt`.
pub fn cint(args: &[Value]) -> Result<Value, VbError>
    ensures { result ≡ spec.cint_of args.now }
{
    let x = the_argument(args)?;
    Ok(Value::Int(to_int(x)?))
}

/// `CLng`.
pub fn clng(args: &[Value]) -> Result<Value, VbError>
    ensures { result ≡ spec.clng_of args.now }
{
    let x = the_argument(args)?;
    Ok(Value::Long(to_long(x)?))
}

/// `CStr`. Error 14 for a text of more than 1,048,576 characters.
pub fn cstr(alloc: Global, args: &[Value]) -> Result<Value, VbFault>
    ensures { Answers result VbFault.Memory (reported (spec.cstr_of args.now)) }
{
    let x = the_argument(args)?;
    Ok(limited(to_str(alloc, x)?)?)
}
