//! Numbers, places and values as cases write them. What is not written so stops the answer, and something else is had
//! in its place.

use case_files::{Answer, CaseStop};
use vb_heap::{CellNo, Heap, Place};
use vb_value::{Array, List, ObjNo, Text, Value, VbFault};

/// The number that is written so.
pub fn number(out: &mut Answer, written: &str) -> u32 {
    match written.parse() {
        Ok(number) => number,
        Err(_) => {
            out.stop(CaseStop::Unreadable);
            0
        }
    }
}

/// The place that is written so: the number of its cell, and the indices of each step in parentheses, as `0(1,2)(0)`.
pub fn place(out: &mut Answer, written: &str) -> Place {
    let mut parts = written.split('(');
    let cell = number(out, parts.next().unwrap_or(""));
    let mut steps = List::new(out.alloc());
    for part in parts {
        match part.strip_suffix(')') {
            Some(indices) => {
                let indices = numbers(out, indices, ',');
                if steps.push(indices).is_err() {
                    out.stop(CaseStop::Memory);
                }
            }
            None => out.stop(CaseStop::Unreadable),
        }
    }
    Place {
        cell: CellNo(u64::from(cell)),
        steps,
    }
}

fn numbers(out: &mut Answer, written: &str, between: char) -> List<i32> {
    let mut numbers = List::new(out.alloc());
    for word in written.split(between) {
        match word.parse() {
            Ok(number) => {
                if numbers.push(number).is_err() {
                    out.stop(CaseStop::Memory);
                }
            }
            Err(_) => out.stop(CaseStop::Unreadable),
        }
    }
    numbers
}

/// The value that is written so: an array by its upper bounds and items, as `[1x0:7,8]`, or one that is no array.
pub fn value(out: &mut Answer, heap: &Heap, written: &str) -> Value {
    match written.strip_prefix('[') {
        Some(rest) => array(out, heap, rest),
        None => item(out, heap, written),
    }
}

fn array(out: &mut Answer, heap: &Heap, written: &str) -> Value {
    let (bounds, items) = written.split_once(':').unwrap_or((written, ""));
    match items.strip_suffix(']') {
        Some(items) => Value::Arr(Array {
            bounds: numbers(out, bounds, 'x'),
            fixed: true,
            items: items_of(out, heap, items),
        }),
        None => unreadable(out),
    }
}

fn items_of(out: &mut Answer, heap: &Heap, written: &str) -> List<Value> {
    let mut items = List::new(out.alloc());
    for word in written.split(',') {
        let item = item(out, heap, word);
        if items.push(item).is_err() {
            out.stop(CaseStop::Memory);
        }
    }
    items
}

fn item(out: &mut Answer, heap: &Heap, word: &str) -> Value {
    if let Some(text) = word.strip_prefix('\'') {
        return text_value(out, text);
    }
    if let Some(cell) = word.strip_prefix('$') {
        return copied(out, heap, cell);
    }
    match word {
        "empty" => Value::Empty,
        "null" => Value::Null,
        "true" => Value::Bool(true),
        "false" => Value::Bool(false),
        "nothing" => Value::Nothing,
        _ => numeric(out, word),
    }
}

fn text_value(out: &mut Answer, text: &str) -> Value {
    match Text::from_str(out.alloc(), text) {
        Ok(text) => Value::Str(text),
        Err(_) => no_memory(out),
    }
}

/// A copy of what a cell has.
fn copied(out: &mut Answer, heap: &Heap, cell: &str) -> Value {
    let place = place(out, cell);
    match heap.read(out.alloc(), &place) {
        Ok(value) => value,
        Err(VbFault::Error(_)) => unreadable(out),
        Err(VbFault::Memory) => no_memory(out),
    }
}

/// A Long `5&`, a Currency of a whole number `5@`, an object `obj5` or an Integer `5`.
fn numeric(out: &mut Answer, word: &str) -> Value {
    if let Some(whole) = word.strip_suffix('@') {
        return Value::Cur(i64::from(number(out, whole)) * 10_000);
    }
    if let Some(object) = word.strip_prefix("obj") {
        return Value::Obj(ObjNo(number(out, object)));
    }
    if let Some(long) = word.strip_suffix('&') {
        return match long.parse() {
            Ok(number) => Value::Long(number),
            Err(_) => unreadable(out),
        };
    }
    match word.parse() {
        Ok(number) => Value::Int(number),
        Err(_) => unreadable(out),
    }
}

fn unreadable(out: &mut Answer) -> Value {
    out.stop(CaseStop::Unreadable);
    Value::Empty
}

fn no_memory(out: &mut Answer) -> Value {
    out.stop(CaseStop::Memory);
    Value::Empty
}
