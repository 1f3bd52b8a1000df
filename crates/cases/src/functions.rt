//! Functions of the language, by their names.
ghost use Rattle.std.specs.Prelude.{◌≤◌, length};

use crate::notation::write_outcome;
use case_files::{Answer, CaseStop};
use std::alloc::Global;
use vb_funcs::{call_func, type_name};
use vb_strings::call_string;
use vb_value::{PlainFn, StrFn, Value, VbFault};

/// Writes what a function gives. Whether there is one of that name.
pub fn write_of_function(out: &mut Answer, name: &str, values: &[Value]) -> bool {
    if values.len() > 255 {
        out.stop(CaseStop::Unreadable);
        return true;
    }
    match called(out.alloc(), name, values) {
        Some(outcome) => {
            write_outcome(out, &outcome);
            true
        }
        None => false,
    }
}

fn plain_named(name: &str) -> Option<PlainFn> {
    match name {
        "Abs" => Some(PlainFn::Abs),
        "Int" => Some(PlainFn::Int),
        "Fix" => Some(PlainFn::Fix),
        "Sgn" => Some(PlainFn::Sgn),
        "CBool" => Some(PlainFn::CBool),
        "CCur" => Some(PlainFn::CCur),
        "CInt" => Some(PlainFn::CInt),
        "CLng" => Some(PlainFn::CLng),
        "CStr" => Some(PlainFn::CStr),
        "Hex" => Some(PlainFn::Hex),
        "Oct" => Some(PlainFn::Oct),
        "IsArray" => Some(PlainFn::IsArray),
        "IsEmpty" => Some(PlainFn::IsEmpty),
        "IsNull" => Some(PlainFn::IsNull),
        "IsObject" => Some(PlainFn::IsObject),
        "IsNumeric" => Some(PlainFn::IsNumeric),
        "VarType" => Some(PlainFn::VarType),
        "Array" => Some(PlainFn::Array),
        "UBound" => Some(PlainFn::UBound),
        "LBound" => Some(PlainFn::LBound),
        _ => None,
    }
}

fn text_named(name: &str) -> Option<StrFn> {
    match name {
        "Len" => Some(StrFn::Len),
        "Left" => Some(StrFn::Left),
        "Right" => Some(StrFn::Right),
        "Mid" => Some(StrFn::Mid),
        "InStr" => Some(StrFn::InStr),
        "InStrRev" => Some(StrFn::InStrRev),
        "LCase" => Some(StrFn::LCase),
        "UCase" => Some(StrFn::UCase),
        "Trim" => Some(StrFn::Trim),
        "LTrim" => Some(StrFn::LTrim),
        "RTrim" => Some(StrFn::RTrim),
        "Replace" => Some(StrFn::Replace),
        "Split" => Some(StrFn::Split),
        "Join" => Some(StrFn::Join),
        "StrReverse" => Some(StrFn::StrReverse),
        "Space" => Some(StrFn::Space),
        "String" => Some(StrFn::String),
        "StrComp" => Some(StrFn::StrComp),
        "Asc" => Some(StrFn::Asc),
        "AscW" => Some(StrFn::AscW),
        "Chr" => Some(StrFn::Chr),
        "ChrW" => Some(StrFn::ChrW),
        _ => None,
    }
}

fn called(alloc: Global, name: &str, values: &[Value]) -> Option<Result<Value, VbFault>>
    requires { length values.now ≤ 255 }
{
    if let Some(f) = plain_named(name) {
        return Some(call_func(alloc, f, values));
    }
    if let Some(f) = text_named(name) {
        return Some(call_string(alloc, f, values));
    }
    match (name, values) {
        ("TypeName", [value, Value::Str(class)]) => {
            Some(match type_name(alloc, value, class) {
                Ok(name) => Ok(Value::Str(name)),
                Err(memory) => Err(memory.into()),
            })
        }
        _ => None,
    }
}
