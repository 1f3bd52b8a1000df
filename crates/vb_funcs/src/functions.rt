//! The functions by their names.
ghost use Rattle.std.specs.Prelude.{◌≡◌, ◌≤◌, length};
ghost use Rattle.vb_value.specs.Errors.{reported};
ghost use Rattle.vb_value.specs.Outcome.{Answers};
ghost use Rattle.vb_funcs.specs.Functions as spec;

use crate::arithmetic::{abs, fix, int, sgn};
use crate::arrays::{array, lbound, ubound};
use crate::bases::{hex, oct};
use crate::converting::{cbool, ccur, cint, clng, cstr};
use crate::testing::{is_array, is_numeric, is_object, var_type};
use std::alloc::Global;
use vb_value::{PlainFn, Value, VbFault, is_empty, is_null, the_argument};

/// What a function gives of its arguments (VBScript 5.6, "Functions"). Errors: 450 for another number of arguments
/// than it takes, 94 for Null, 13 for an array, a text that is no number and a bound of no array, 438 for an
/// object, 91 for Nothing, 9 for a dimension that an array does not have, 14 for a text of more than 1,048,576
/// characters, 6 out of range.
pub fn call_func(alloc: Global, f: PlainFn, args: &[Value]) -> Result<Value, VbFault>
    requires few { length args.now ≤ 255 }
    ensures { Answers result VbFault.Memory (reported (spec.call_func_of f args.now)) }
{
    match f {
        PlainFn::Abs => Ok(abs(args)?),
        PlainFn::Int => Ok(int(args)?),
        PlainFn::Fix => Ok(fix(args)?),
        PlainFn::Sgn => Ok(sgn(args)?),
        PlainFn::CBool => Ok(cbool(args)?),
        PlainFn::CCur => Ok(ccur(args)?),
        PlainFn::CInt => Ok(cint(args)?),
        PlainFn::CLng => Ok(clng(args)?),
        PlainFn::CStr => cstr(alloc, args),
        PlainFn::Hex => hex(alloc, args),
        PlainFn::Oct => oct(alloc, args),
        PlainFn::IsArray => Ok(Value::Bool(is_array(the_argument(args)?))),
        PlainFn::IsEmpty => Ok(Value::Bool(is_empty(the_argument(args)?))),
        PlainFn::IsNull => Ok(Value::Bool(is_null(the_argument(args)?))),
        PlainFn::IsObject => Ok(Value::Bool(is_object(the_argument(args)?))),
        PlainFn::IsNumeric => Ok(Value::Bool(is_numeric(the_argument(args)?))),
        PlainFn::VarType => Ok(var_type(args)?),
        PlainFn::Array => Ok(array(alloc, args)?),
        PlainFn::UBound => Ok(ubound(args)?),
        PlainFn::LBound => Ok(lbound(args)?),
    }
}
