//! Conversions and comparisons of values, and what else is told of one, by the names of their calls.

use crate::notation::{write_error, write_outcome, write_value};
use case_files::Answer;
use std::alloc::Global;
use std::cmp::Ordering;
use vb_ops::{compare, truth};
use vb_value::{
    Copied, Memory, Number, Text, Value, VbError, VbFault, as_currency, as_integer, as_long, check,
    copy, copy_array, is_empty, is_null, is_plain, limited, number_value, the_argument, to_bool,
    to_cur, to_int, to_long, to_number, to_str, weight, whole_of_amount,
};

/// Writes what a call gives. Whether there is one of that name.
pub fn write_of_values(out: &mut Answer, name: &str, values: &[Value]) -> bool {
    match values {
        _ if name == "the_argument" => {
            write_argument(out, values);
            true
        }
        [value] => write_of_one(out, name, value),
        [a, b] if name == "compare" => {
            write_comparison(out, compare(a, b));
            true
        }
        _ => false,
    }
}

/// Writes what a call on one value gives. Whether there is one of that name.
fn write_of_one(out: &mut Answer, name: &str, value: &Value) -> bool {
    match converted(out.alloc(), name, value) {
        Some(outcome) => {
            write_outcome(out, &outcome);
            true
        }
        None => write_told(out, name, value),
    }
}

/// Writes what a call that gives no value says of one. Whether there is one of that name.
fn write_told(out: &mut Answer, name: &str, value: &Value) -> bool {
    match name {
        "check" => write_checked(out, check(value)),
        "is_empty" => out.show(&is_empty(value)),
        "is_null" => out.show(&is_null(value)),
        "is_plain" => out.show(&is_plain(value)),
        "weight" => out.show(&weight(value)),
        "whole_of_amount" => match number(value) {
            Some(amount) => out.show(&whole_of_amount(amount)),
            None => return false,
        },
        _ => return false,
    }
    true
}

/// What a call that gives a value gives.
fn converted(alloc: Global, name: &str, value: &Value) -> Option<Result<Value, VbFault>> {
    match name {
        "to_number" => Some(outcome(number_of(value))),
        "to_int" => Some(outcome(to_int(value).map(Value::Int))),
        "to_long" => Some(outcome(to_long(value).map(Value::Long))),
        "to_cur" => Some(outcome(to_cur(value).map(Value::Cur))),
        "to_bool" => Some(outcome(to_bool(value).map(Value::Bool))),
        "truth" => Some(outcome(truth(value).map(Value::Bool))),
        "to_str" => Some(to_str(alloc, value).map(Value::Str)),
        "long" => Some(outcome(long(value).map(Value::Long))),
        "copy" => Some(copied(copy(alloc, value))),
        _ => match value {
            Value::Str(text) if name == "limited" => Some(limited_copy(text)),
            Value::Arr(array) if name == "copy_array" => {
                Some(copied(copy_array(alloc, array).map(Value::Arr)))
            }
            _ => Some(outcome(numbered(name, number(value)?)?)),
        },
    }
}

/// What a call on a number gives, which is a Currency's in ten-thousandths.
fn numbered(name: &str, number: i128) -> Option<Result<Value, VbError>> {
    match name {
        "as_integer" => Some(as_integer(number).map(Value::Int)),
        "as_long" => Some(as_long(number).map(Value::Long)),
        "as_currency" => Some(as_currency(number).map(Value::Cur)),
        "of_whole" => match i32::try_from(number) {
            Ok(whole) => Some(Ok(number_value(Number::of_whole(whole)))),
            Err(_) => None,
        },
        "of_amount" => match i64::try_from(number) {
            Ok(amount) => Some(Ok(number_value(Number::of_amount(amount)))),
            Err(_) => None,
        },
        _ => None,
    }
}

fn number(value: &Value) -> Option<i128> {
    match value {
        Value::Int(number) => Some(i128::from(*number)),
        Value::Long(number) => Some(i128::from(*number)),
        Value::Cur(amount) => Some(i128::from(*amount)),
        _ => None,
    }
}

fn outcome(answer: Result<Value, VbError>) -> Result<Value, VbFault> {
    match answer {
        Ok(value) => Ok(value),
        Err(error) => Err(error.into()),
    }
}

fn copied(answer: Result<Value, Memory>) -> Result<Value, VbFault> {
    match answer {
        Ok(value) => Ok(value),
        Err(memory) => Err(memory.into()),
    }
}

fn number_of(value: &Value) -> Result<Value, VbError> {
    Ok(number_value(to_number(value)?))
}

fn long(value: &Value) -> Result<i32, VbError> {
    to_number(value)?.long()
}

fn limited_copy(text: &Text) -> Result<Value, VbFault> {
    Ok(limited(text.copy()?)?)
}

fn write_checked(out: &mut Answer, checked: Result<(), VbError>) {
    match checked {
        Ok(()) => out.put("ok"),
        Err(error) => write_error(out, error.number),
    }
}

fn write_argument(out: &mut Answer, values: &[Value]) {
    match the_argument(values) {
        Ok(value) => write_value(out, value),
        Err(error) => write_error(out, error.number),
    }
}

fn write_comparison(out: &mut Answer, comparison: Result<Option<Ordering>, VbError>) {
    match comparison {
        Ok(None) => out.put("null"),
        Ok(Some(Ordering::Less)) => out.put("less"),
        Ok(Some(Ordering::Equal)) => out.put("equal"),
        Ok(Some(Ordering::Greater)) => out.put("greater"),
        Err(error) => write_error(out, error.number),
    }
}
