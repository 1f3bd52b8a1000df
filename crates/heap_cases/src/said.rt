//! What calls give, as cases write it. Between two answers stands a comma.

use case_files::{Answer, CaseStop};
use vb_heap::HeapStop;
use vb_value::{ObjNo, Value, VbError, VbFault};

/// Writes a number.
pub fn write_number(out: &mut Answer, number: u64) {
    write_comma(out);
    out.show(&number);
}

/// Writes an object, or Nothing.
pub fn write_object(out: &mut Answer, object: Option<ObjNo>) {
    match object {
        Some(object) => write_value(out, &Value::Obj(object)),
        None => write_value(out, &Value::Nothing),
    }
}

/// Writes a value, of an array its items in brackets.
pub fn write_value(out: &mut Answer, value: &Value) {
    write_comma(out);
    match value {
        Value::Arr(array) => write_items(out, array.items.as_slice()),
        _ => write_item(out, value),
    }
}

/// Writes nothing of a call that did its work, or why it was refused.
pub fn write_done<T: Drop>(out: &mut Answer, done: Result<T, HeapStop>) {
    if let Err(stop) = done {
        write_stop(out, stop);
    }
}

/// Writes the value that a call on a dictionary gave, or why it was refused.
pub fn write_got(out: &mut Answer, got: &Result<Value, HeapStop>) {
    match got {
        Ok(value) => write_value(out, value),
        Err(stop) => write_stop(out, *stop),
    }
}

/// Writes the value that a call gave that left the page as it was, or why it was refused.
pub fn write_read(out: &mut Answer, read: &Result<Value, VbFault>) {
    match read {
        Ok(value) => write_value(out, value),
        Err(fault) => write_stop(out, (*fault).into()),
    }
}

/// Writes the Boolean that a call gave, or why it was refused.
pub fn write_truth(out: &mut Answer, truth: Result<bool, VbFault>) {
    match truth {
        Ok(truth) => write_value(out, &Value::Bool(truth)),
        Err(fault) => write_stop(out, fault.into()),
    }
}

/// Writes the Long that a call gave, or why it was refused.
pub fn write_long(out: &mut Answer, long: Result<i32, VbError>) {
    match long {
        Ok(number) => write_value(out, &Value::Long(number)),
        Err(error) => write_refused(out, error),
    }
}

/// Writes an error of the language.
pub fn write_refused(out: &mut Answer, error: VbError) {
    write_stop(out, error.into());
}

/// Writes why a call was refused.
fn write_stop(out: &mut Answer, stop: HeapStop) {
    match stop {
        HeapStop::Memory => out.stop(CaseStop::Memory),
        _ => {
            write_comma(out);
            out.show(&stop);
        }
    }
}

/// Writes what stands before an answer, unless it is the first.
fn write_comma(out: &mut Answer) {
    if !out.is_empty() {
        out.put(", ");
    }
}

fn write_items(out: &mut Answer, items: &[Value]) {
    out.put("[");
    for (i, item) in items.iter().enumerate() {
        if i > 0 {
            out.put(",");
        }
        write_item(out, item);
    }
    out.put("]");
}

/// Writes a value. No case asks for an array within one or for a Currency.
fn write_item(out: &mut Answer, item: &Value) {
    match item {
        Value::Empty => out.put("empty"),
        Value::Null => out.put("null"),
        Value::Nothing => out.put("nothing"),
        Value::Bool(truth) => out.show(truth),
        Value::Int(number) => out.show(number),
        Value::Long(number) => {
            out.show(number);
            out.put("&");
        }
        Value::Obj(object) => {
            out.put("obj");
            out.show(&object.0);
        }
        Value::Str(text) => {
            out.put("'");
            out.text(text.as_slice());
        }
        Value::Arr(_) | Value::Cur(_) => out.put("another"),
    }
}
