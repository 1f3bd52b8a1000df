//! Values with their arrays, read.
ghost use Rattle.std.specs.Prelude.{IfOk, codes};
ghost use Rattle.asp_record.specs.Fields.{Reads};
ghost use Rattle.asp_record.specs.ReadingValues as spec;

use crate::scanning::behind;
use crate::value_reading::{bounds_at, is_well_made, simple_by};
use std::alloc::Global;
use vb_value::{Array, List, Memory, Value};

/// The value at the front of bytes, whose arrays nest so deep at most. It recurses once for each array inside another.
#[cycle(reading)]
#[tactic(auto, using(crate::proofs::ListReading::value_is))]
pub fn value_at(alloc: Global, depth: u32, bytes: &[u8]) -> Result<Option<(Value, &[u8])>, Memory>
    ensures { IfOk result (λ found. Reads (λ read. (read.0, read.1.now)) found (spec.value_at depth bytes.now)) }
{
    let Some((letter, rest)) = bytes.split_first() else {
        return Ok(None);
    };
    if *letter == b'[' {
        return array_at(alloc, depth, false, rest);
    }
    if *letter == b'!' {
        return match behind(b"[", rest) {
            Some(rest) => array_at(alloc, depth, true, rest),
            None => Ok(None),
        };
    }
    simple_by(alloc, *letter, rest)
}

/// The array behind its `[` that nests so deep at most.
#[cycle(reading)]
#[tactic(auto, unfolding(crate::specs::ReadingValues::array_at))]
fn array_at(
    alloc: Global,
    depth: u32,
    fixed: bool,
    bytes: &[u8],
) -> Result<Option<(Value, &[u8])>, Memory>
    ensures { IfOk result (λ found.
        Reads (λ read. (read.0, read.1.now)) found (spec.array_by spec.value_at depth fixed bytes.now)) }
{
    if depth == 0 {
        return Ok(None);
    }
    let Some((bounds, rest)) = bounds_at(alloc, bytes)? else {
        return Ok(None);
    };
    let Some((items, rest)) = items_at(alloc, depth - 1, rest)? else {
        return Ok(None);
    };
    if is_well_made(bounds.as_slice(), items.len()) {
        let array = Array {
            bounds,
            fixed,
            items,
        };
        Ok(Some((Value::Arr(array), rest)))
    } else {
        Ok(None)
    }
}

/// The items of an array, and what stands behind their `]`.
#[cycle(reading)]
fn items_at(alloc: Global, depth: u32, bytes: &[u8]) -> Result<Option<(List<Value>, &[u8])>, Memory>
    ensures { IfOk result (λ found. Reads (λ read. (read.0, read.1.now)) found
        (spec.list_at (spec.value_at depth) (codes "]") bytes.now)) }
{
    let mut items = List::new(alloc);
    if let Some(rest) = behind(b"]", bytes) {
        return Ok(Some((items, rest)));
    }
    let mut rest = bytes;
    for count in 0..bytes.len() {
        let Some((item, after)) = value_at(alloc, depth, rest)? else {
            return Ok(None);
        };
        items.push(item)?;
        if let Some(end) = behind(b"]", after) {
            return Ok(Some((items, end)));
        }
        let Some(next) = behind(b",", after) else {
            return Ok(None);
        };
        rest = next;
    }
    Ok(None)
}
