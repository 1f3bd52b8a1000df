//! The kinds that an operator gives for each kind on its right.

use crate::arguments::read_call;
use crate::operators::operator;
use case_files::{Answer, CaseStop};
use vb_ops::apply2;
use vb_value::{Value, VbFault};

/// A value of each kind, and of texts one that is a number, one that names a Boolean, and another. No sum, product or
/// quotient of two of them is out of range.
const EACH: &str = "each empty null true 2 40000& 2.5000@ \"3\" \"True\" \"abc\" [] obj1 nothing";

/// Writes the kinds of what an operator gives for a value and each of [`EACH`], with blanks between them.
pub fn write_kinds(out: &mut Answer, sign: &str, left: &Value) {
    match (operator(sign), read_call(out.alloc(), EACH)) {
        (Some(op), Ok(each)) => {
            for right in each.values.as_slice() {
                if !out.is_empty() {
                    out.put(" ");
                }
                let outcome = apply2(out.alloc(), op, left, right);
                write_kind(out, &outcome);
            }
        }
        _ => out.stop(CaseStop::Unreadable),
    }
}

/// Adds the kind of a value, or the number of an error.
fn write_kind(out: &mut Answer, outcome: &Result<Value, VbFault>) {
    match outcome {
        Ok(value) => out.put(kind(value)),
        Err(VbFault::Error(number)) => out.show(number),
        Err(VbFault::Memory) => out.stop(CaseStop::Memory),
    }
}

fn kind(value: &Value) -> &'static str {
    match value {
        Value::Empty => "Empty",
        Value::Null => "Null",
        Value::Bool(_) => "Boolean",
        Value::Int(_) => "Integer",
        Value::Long(_) => "Long",
        Value::Cur(_) => "Currency",
        Value::Str(_) => "String",
        Value::Arr(_) => "Array",
        Value::Obj(_) => "Object",
        Value::Nothing => "Nothing",
    }
}
