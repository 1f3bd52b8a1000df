//! The total that the pages keep.
ghost use Rattle.std.specs.Prelude.{◌≡◌, codes, reverse, unwrap_or};
ghost use Rattle.asp_job.specs.Application.{is_name};
ghost use Rattle.asp_summary.specs.Counted as spec;

use asp_job::{Entry, What};
use vb_value::{AppCall, Text, Value};

/// Whether a name is that of the total.
fn is_total(name: &Text) -> bool
    ensures { result ≡ is_name (codes "n") name.now }
{
    ['n'].as_slice() == name.as_slice()
}

/// The whole number that a value is; one of another kind counts as 0.
fn number_of(value: &Value) -> i32
    ensures { result ≡ spec.number_of value.now }
{
    match value {
        Value::Int(number) => *number as i32,
        Value::Long(number) => *number,
        _ => 0,
    }
}

/// The total that the call puts, if it puts one.
fn put_by(call: &AppCall) -> Option<i32>
    ensures { result ≡ spec.put_by call.now }
{
    match call {
        AppCall::Put(name, value) => {
            if is_total(name) {
                Some(number_of(value))
            } else {
                None
            }
        }
        _ => None,
    }
}

/// The total after the entry.
fn total_after(total: i32, what: &What) -> i32
    ensures { result ≡ unwrap_or (spec.put_in what.now) total }
{
    match what {
        What::App { call, .. } => put_by(call).unwrap_or(total),
        _ => total,
    }
}

/// The last total that was put, 0 where none was.
pub fn last_total(journal: &[Entry]) -> i32
    ensures { result ≡ spec.last_total (reverse journal.now) }
{
    let mut total = 0;
    for entry in journal {
        total = total_after(total, &entry.what);
    }
    total
}
