//! What calls give.

use crate::arguments::{Call, read_call};
use crate::characters::write_of_texts;
use crate::functions::write_of_function;
use crate::kinds::write_kinds;
use crate::operators::write_of_operator;
use crate::values::write_of_values;
use case_files::{Answer, CaseStop, Subject};

/// Calls of operators, functions and conversions, each with what it gives.
pub struct Calls;

impl Subject for Calls {
    fn answer(&self, case: &str, out: &mut Answer) {
        let (written, is_each) = match case.strip_suffix(" each") {
            Some(written) => (written, true),
            None => (case, false),
        };
        match read_call(out.alloc(), written) {
            Ok(call) if is_each => write_each(out, &call),
            Ok(call) => write_answer(out, &call),
            Err(stop) => out.stop(stop),
        }
    }
}

fn write_answer(out: &mut Answer, call: &Call) {
    let (name, values) = (call.name.as_str(), call.values.as_slice());
    let is_written = write_of_function(out, name, values)
        || write_of_texts(out, name, values)
        || write_of_values(out, name, values);
    if !is_written {
        write_of_operator(out, name, values);
    }
}

fn write_each(out: &mut Answer, call: &Call) {
    match call.values.as_slice() {
        [left] => write_kinds(out, call.name.as_str(), left),
        _ => out.stop(CaseStop::Unreadable),
    }
}
