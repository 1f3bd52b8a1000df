//! Values as cases write them: `empty`, `null`, `true`, `false`, `nothing`, an object `obj1`, an Integer `5`, a Long
//! `5&`, a Currency with its four decimals `2.5000@`, a text in quotes, the items of an array in brackets.

use case_files::{Answer, CaseStop};
use std::alloc::{AllocError, Global};
use vb_value::{Array, ObjNo, Text, Value, VbFault};

/// The value, neither text nor array, that is written so, if one is.
pub fn value_named(alloc: Global, word: &str) -> Result<Option<Value>, AllocError> {
    if let Some(amount) = word.strip_suffix('@') {
        return currency(alloc, amount);
    }
    if let Some(number) = word.strip_suffix('&') {
        return Ok(number.parse().ok().map(Value::Long));
    }
    if let Some(number) = word.strip_prefix("obj") {
        return Ok(number.parse().ok().map(object));
    }
    match word {
        "empty" => Ok(Some(Value::Empty)),
        "null" => Ok(Some(Value::Null)),
        "true" => Ok(Some(Value::Bool(true))),
        "false" => Ok(Some(Value::Bool(false))),
        "nothing" => Ok(Some(Value::Nothing)),
        _ => Ok(word.parse().ok().map(Value::Int)),
    }
}

fn object(number: u32) -> Value {
    Value::Obj(ObjNo(number))
}

fn currency(alloc: Global, amount: &str) -> Result<Option<Value>, AllocError> {
    match amount.split_once('.') {
        Some((whole, decimals)) if decimals.len() == 4 => {
            let digits = format!(in alloc; "{whole}{decimals}")?;
            Ok(digits.as_str().parse().ok().map(Value::Cur))
        }
        _ => Ok(None),
    }
}

/// Writes what a call gave: a value, or `error` and its number.
pub fn write_outcome(out: &mut Answer, outcome: &Result<Value, VbFault>) {
    match outcome {
        Ok(value) => write_value(out, value),
        Err(VbFault::Error(number)) => write_error(out, *number),
        Err(VbFault::Memory) => out.stop(CaseStop::Memory),
    }
}

/// Writes an error by its number.
pub fn write_error(out: &mut Answer, number: i32) {
    out.put("error ");
    out.show(&number);
}

/// Writes a value as cases have it.
#[cycle(values)]
pub fn write_value(out: &mut Answer, value: &Value) {
    match value {
        Value::Arr(array) => write_array(out, array),
        _ => write_scalar(out, value),
    }
}

#[cycle(values)]
fn write_array(out: &mut Answer, array: &Array) {
    out.put("[");
    if array.fixed {
        write_bounds(out, array.bounds.as_slice());
    }
    for (i, item) in array.items.as_slice().iter().enumerate() {
        if i > 0 {
            out.put(", ");
        }
        write_value(out, item);
    }
    out.put("]");
}

fn write_bounds(out: &mut Answer, bounds: &[i32]) {
    for (i, bound) in bounds.iter().enumerate() {
        if i > 0 {
            out.put("x");
        }
        out.show(bound);
    }
    out.put(": ");
}

fn write_scalar(out: &mut Answer, value: &Value) {
    match value {
        Value::Empty => out.put("empty"),
        Value::Null => out.put("null"),
        Value::Nothing => out.put("nothing"),
        Value::Bool(true) => out.put("true"),
        Value::Bool(false) => out.put("false"),
        Value::Str(text) => write_quoted(out, text),
        _ => write_number(out, value),
    }
}

/// Writes a text in quotes.
pub fn write_quoted(out: &mut Answer, text: &Text) {
    out.put("\"");
    out.text(text.as_slice());
    out.put("\"");
}

/// Writes a number or an object as cases have it.
fn write_number(out: &mut Answer, value: &Value) {
    match value {
        Value::Int(number) => out.show(number),
        Value::Long(number) => {
            out.show(number);
            out.put("&");
        }
        Value::Obj(number) => {
            out.put("obj");
            out.show(&number.0);
        }
        Value::Cur(amount) => write_currency(out, *amount),
        _ => (),
    }
}

/// Writes a Currency as cases have it, by hand, so that no fault of `to_str` hides here.
pub fn write_currency(out: &mut Answer, amount: i64) {
    let size = amount.unsigned_abs();
    let (whole, decimals) = (size / 10_000, size % 10_000);
    if amount < 0 {
        out.put("-");
    }
    out.show(&whole);
    out.put(".");
    for place in [1_000, 100, 10, 1] {
        out.show(&(decimals / place % 10));
    }
    out.put("@");
}
