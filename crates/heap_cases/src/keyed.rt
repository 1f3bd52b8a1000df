//! Calls of dictionaries.

use crate::said::{write_done, write_got, write_long, write_read, write_truth};
use crate::values::{number, value};
use case_files::{Answer, CaseStop};
use vb_dict::{add, count, exists, get, items, keys, mode, put, remove, remove_all};
use vb_heap::Heap;
use vb_value::{ObjNo, Value};

/// Writes what a call on a whole dictionary gives.
pub fn write_of_dictionary(out: &mut Answer, heap: &mut Heap, word: &str, dictionary: ObjNo) {
    match word {
        "entries" => write_long(out, count(heap, dictionary)),
        "mode" => write_long(out, mode(heap, dictionary)),
        "keys" => {
            let keys = keys(out.alloc(), heap, dictionary);
            write_read(out, &keys);
        }
        "items" => {
            let items = items(out.alloc(), heap, dictionary);
            write_read(out, &items);
        }
        "clear" => write_done(out, remove_all(heap, dictionary)),
        _ => out.stop(CaseStop::Unreadable),
    }
}

/// Writes what a call on a key of a dictionary gives.
pub fn write_on_key(out: &mut Answer, heap: &mut Heap, word: &str, dictionary: ObjNo, key: &Value) {
    match word {
        "get" => {
            let got = get(out.alloc(), heap, dictionary, key);
            write_got(out, &got);
        }
        "exists" => write_truth(out, exists(heap, dictionary, key)),
        "remove" => write_done(out, remove(heap, dictionary, key)),
        _ => out.stop(CaseStop::Unreadable),
    }
}

/// Writes what a call with a dictionary, a key and an item gives.
pub fn write_on_entry(
    out: &mut Answer,
    heap: &mut Heap,
    word: &str,
    dictionary: &str,
    key: &str,
    item: &str,
) {
    let dictionary = ObjNo(number(out, dictionary));
    let key = value(out, heap, key);
    let item = value(out, heap, item);
    let alloc = out.alloc();
    match word {
        "add" => write_done(out, add(alloc, heap, dictionary, &key, item)),
        "put" => write_done(out, put(alloc, heap, dictionary, &key, item)),
        _ => out.stop(CaseStop::Unreadable),
    }
}
