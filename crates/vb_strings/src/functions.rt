//! The functions by their names.
ghost use Rattle.std.specs.Prelude.{◌≡◌, ◌≤◌, length};
ghost use Rattle.vb_value.specs.Errors.{reported};
ghost use Rattle.vb_value.specs.Outcome.{Answers};
ghost use Rattle.vb_strings.specs.Functions as spec;

use crate::characters::{asc, chr};
use crate::comparing::str_comp;
use crate::joining::join;
use crate::letters::{lcase, str_reverse, ucase};
use crate::parts::{left, len, ltrim, mid, right, rtrim, trim};
use crate::repeating::{space, string};
use crate::replacing::replace;
use crate::searching::{in_str, in_str_rev};
use crate::splitting::split;
use std::alloc::Global;
use vb_value::{StrFn, Value, VbFault};

/// What a function gives of its arguments (VBScript 5.6, "String Functions"). Errors: 450 for another number of
/// arguments than it takes, 94 for Null, 13 for an array, a text that is no number and a join of no array, 438 for an
/// object, 91 for Nothing, 6 out of range, 5 for a number or a text that the function does not take, 14 for an answer
/// of more than 1,048,576 characters, or one with such a part.
#[tactic(auto, using(crate::proofs::Bounds::same_answers))]
pub fn call_string(alloc: Global, f: StrFn, args: &[Value]) -> Result<Value, VbFault>
    requires few { length args.now ≤ 255 }
    ensures { Answers result VbFault.Memory (reported (spec.call_string_of f args.now)) }
{
    match f {
        StrFn::Len => len(alloc, args),
        StrFn::Left => left(alloc, args),
        StrFn::Right => right(alloc, args),
        StrFn::Mid => mid(alloc, args),
        StrFn::InStr => in_str(alloc, args),
        StrFn::InStrRev => in_str_rev(alloc, args),
        StrFn::LCase => lcase(alloc, args),
        StrFn::UCase => ucase(alloc, args),
        StrFn::Trim => trim(alloc, args),
        StrFn::LTrim => ltrim(alloc, args),
        StrFn::RTrim => rtrim(alloc, args),
        StrFn::Replace => replace(alloc, args),
        StrFn::Split => split(alloc, args),
        StrFn::Join => join(alloc, args),
        StrFn::StrReverse => str_reverse(alloc, args),
        StrFn::Space => space(alloc, args),
        StrFn::String => string(alloc, args),
        StrFn::StrComp => str_comp(alloc, args),
        StrFn::Asc | StrFn::AscW => asc(alloc, args),
        StrFn::Chr | StrFn::ChrW => chr(alloc, args),
    }
}
