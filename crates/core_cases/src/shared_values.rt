//! Calls of the Application object with their replies, as cases write them.

use case_files::{Answer, CaseStop};
use std::str::Split;
use vb_value::{AppCall, AppReply, Array, List, Text, Value};
use word_runs::{next, text};

/// A fixed array of two items: the Integer 1, and an array without dimensions.
fn array(out: &mut Answer) -> Array {
    let alloc = out.alloc();
    let inner = Array {
        bounds: List::new(alloc),
        fixed: false,
        items: List::new(alloc),
    };
    let mut bounds = List::new(alloc);
    let mut items = List::new(alloc);
    let are_kept = bounds.append_slice(&[1, 0]).is_ok()
        && items.push(Value::Int(1)).is_ok()
        && items.push(Value::Arr(inner)).is_ok();
    if !are_kept {
        out.stop(CaseStop::Memory);
    }
    Array {
        bounds,
        fixed: true,
        items,
    }
}

/// A place, a count or a Long.
fn long(out: &mut Answer, written: &str) -> i32 {
    match written.parse() {
        Ok(number) => number,
        Err(_) => {
            out.stop(CaseStop::Unreadable);
            0
        }
    }
}

/// Currency, in ten-thousandths.
fn amount(out: &mut Answer, written: &str) -> i64 {
    match written.parse() {
        Ok(amount) => amount,
        Err(_) => {
            out.stop(CaseStop::Unreadable);
            0
        }
    }
}

fn integer(out: &mut Answer, written: &str) -> i16 {
    match written.parse() {
        Ok(number) => number,
        Err(_) => {
            out.stop(CaseStop::Unreadable);
            0
        }
    }
}

/// A Long `5&`, Currency `50000@`, or an Integer `5`.
fn number(out: &mut Answer, written: &str) -> Value {
    if let Some(number) = written.strip_suffix('&') {
        return Value::Long(long(out, number));
    }
    if let Some(currency) = written.strip_suffix('@') {
        return Value::Cur(amount(out, currency));
    }
    Value::Int(integer(out, written))
}

/// The value of a word, a text `'abc`, or a number.
fn value(out: &mut Answer, written: &str) -> Value {
    if let Some(written) = written.strip_prefix('\'') {
        return Value::Str(text(out, written));
    }
    match written {
        "empty" => Value::Empty,
        "null" => Value::Null,
        "true" => Value::Bool(true),
        "false" => Value::Bool(false),
        "array" => Value::Arr(array(out)),
        _ => number(out, written),
    }
}

/// All words that are left.
fn names(out: &mut Answer, words: &mut Split<'_, char>) -> List<Text> {
    let mut names = List::new(out.alloc());
    match words.clone() {
        Ok(rest) => {
            for word in rest {
                if names.push(text(out, word)).is_err() {
                    out.stop(CaseStop::Memory);
                }
            }
        }
        Err(_) => out.stop(CaseStop::Memory),
    }
    names
}

/// A call of the Application object.
pub fn read_call(out: &mut Answer, words: &mut Split<'_, char>) -> AppCall {
    let call = next(words);
    match call {
        "removeall" => AppCall::RemoveAll,
        "count" => AppCall::Count,
        "names" => AppCall::Names,
        "lock" => AppCall::Lock,
        "unlock" => AppCall::Unlock,
        _ => call_about(out, call, words),
    }
}

/// A call that has a name or a place behind it.
fn call_about(out: &mut Answer, call: &str, words: &mut Split<'_, char>) -> AppCall {
    let about = next(words);
    match call {
        "get" => AppCall::Get(text(out, about)),
        "put" => {
            let value = value(out, next(words));
            AppCall::Put(text(out, about), value)
        }
        "remove" => AppCall::Remove(text(out, about)),
        "keyat" => AppCall::KeyAt(long(out, about)),
        _ => {
            out.stop(CaseStop::Unreadable);
            AppCall::Count
        }
    }
}

/// A reply of the Application object. All words behind `names` are names.
pub fn read_reply(out: &mut Answer, words: &mut Split<'_, char>) -> AppReply {
    let reply = next(words);
    match reply {
        "number" => AppReply::Number(long(out, next(words))),
        "name" => AppReply::Name(text(out, next(words))),
        "noname" => AppReply::NoName,
        "names" => AppReply::Names(names(out, words)),
        "done" => AppReply::Done,
        "full" => AppReply::Full,
        _ => AppReply::Value(value(out, reply)),
    }
}
