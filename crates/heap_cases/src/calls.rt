//! Calls by how many arguments they have.

use crate::keyed::{write_of_dictionary, write_on_key};
use crate::said::{write_done, write_number, write_object, write_read, write_refused, write_value};
use crate::values::{number, place, value};
use case_files::{Answer, CaseStop};
use vb_dict::{new_dict, set_mode};
use vb_heap::{CellNo, Heap};
use vb_value::{ObjNo, Value};

/// Writes what a call without arguments gives.
pub fn write_on_page(out: &mut Answer, heap: &mut Heap, word: &str) {
    match word {
        "weight" => write_number(out, heap.page_weight()),
        "mark" => write_number(out, u64::from(heap.mark())),
        "release" => write_object(out, heap.release_point()),
        "last" => write_object(out, heap.last_point()),
        "reset" => heap.reset(),
        "table" => write_done(out, new_dict(heap)),
        _ => out.stop(CaseStop::Unreadable),
    }
}

/// Writes what a call of one argument gives.
pub fn write_on_one(out: &mut Answer, heap: &mut Heap, word: &str, first: &str) {
    match word {
        "read" => {
            let place = place(out, first);
            let read = heap.read(out.alloc(), &place);
            write_read(out, &read);
        }
        "cell" => {
            let value = value(out, heap, first);
            write_done(out, heap.new_cell(value));
        }
        "hold" => {
            let value = value(out, heap, first);
            write_done(out, heap.hold(&value));
        }
        _ => {
            let number = number(out, first);
            write_on_number(out, heap, word, number);
        }
    }
}

/// Writes what a call on a cell, a mark or an object gives.
fn write_on_number(out: &mut Answer, heap: &mut Heap, word: &str, number: u32) {
    let object = ObjNo(number);
    match word {
        "drop" => heap.drop_cell(CellNo(u64::from(number))),
        "letgo" => heap.let_go(number),
        "finish" => heap.finish_object(object),
        "count" => write_number(out, u64::from(heap.count(object))),
        "class" => write_class(out, heap, object),
        _ => write_of_dictionary(out, heap, word, object),
    }
}

fn write_class(out: &mut Answer, heap: &Heap, object: ObjNo) {
    match heap.class(object) {
        Ok(Some(class)) => write_number(out, u64::from(class)),
        Ok(None) => write_value(out, &Value::Nothing),
        Err(error) => write_refused(out, error),
    }
}

/// Writes what a call of two arguments gives.
pub fn write_on_two(out: &mut Answer, heap: &mut Heap, word: &str, first: &str, second: &str) {
    if word == "store" {
        let place = place(out, first);
        let value = value(out, heap, second);
        write_done(out, heap.store(&place, value));
        return;
    }
    let first = number(out, first);
    match word {
        "object" => {
            let fields = number(out, second);
            write_done(out, heap.new_object(first, fields));
        }
        "field" => {
            let field = number(out, second);
            write_field(out, heap, ObjNo(first), field);
        }
        _ => {
            let value = value(out, heap, second);
            write_on_value(out, heap, word, ObjNo(first), &value);
        }
    }
}

fn write_field(out: &mut Answer, heap: &Heap, object: ObjNo, field: u32) {
    match heap.field(object, field) {
        Ok(cell) => write_number(out, cell.0),
        Err(error) => write_refused(out, error),
    }
}

/// Writes what a call on a dictionary and a value gives.
fn write_on_value(out: &mut Answer, heap: &mut Heap, word: &str, dictionary: ObjNo, value: &Value) {
    match value {
        Value::Int(mode) if word == "setmode" => {
            write_done(out, set_mode(heap, dictionary, i32::from(*mode)));
        }
        _ => write_on_key(out, heap, word, dictionary, value),
    }
}
