//! References to objects, in values and everywhere.
ghost use Rattle.std.specs.Prelude.{◌≡◌, ◌≤◌, ◌*◌, ◌-◌, ◌^◌, min, sum_by};
ghost use Rattle.std.specs.List.{flat_map};
ghost use Rattle.std.specs.Map.{values_of};
ghost use Rattle.vb_value.specs.Outcome.{Adds, Gives};
ghost use Rattle.vb_value.specs.Weight.{weight_of};
ghost use Rattle.vb_heap.specs.Counts.{count_of};
ghost use Rattle.vb_heap.specs.Limits.{most_weight};
ghost use Rattle.vb_heap.specs.PageWeight.{object_weight};
ghost use Rattle.vb_heap.specs.References as spec;

use crate::cell_map::Cells;
use crate::object::{Content, Object};
use crate::object_map::Objects;
use std::alloc::Global;
use vb_value::{List, Memory, Value};

/// Each occurrence of an object in a value, by the object's number.
pub fn references(alloc: Global, value: &Value) -> Result<List<u32>, Memory>
    ensures { Gives result (spec.references value.now) }
{
    let mut found = List::new(alloc);
    add_references(value, &mut found)?;
    Ok(found)
}

/// Adds them to a list. It recurses once for each array inside another.
#[tactic(auto, using(crate::proofs::ValueReferences::adding))]
fn add_references(value: &Value, found: &mut List<u32>) -> Result<(), Memory>
    ensures { Adds result found.old found.new (spec.references value.now) }
{
    match value {
        Value::Obj(object) => found.push(object.0),
        Value::Arr(array) => {
            for item in array.items.as_slice() {
                add_references(item, found)?;
            }
            Ok(())
        }
        _ => Ok(()),
    }
}

/// How many references to an object are in a value: 2^32 - 1 stands for more. It recurses once for each array inside
/// another.
#[tactic(auto, using(crate::proofs::ValueReferences::counting))]
pub fn count_in(value: &Value, object: u32) -> u32
    ensures count { result ≡ min (count_of object (spec.references value.now)) (2 ^ 32 - 1) }
    ensures most { 32 * result ≤ weight_of value.now }
{
    match value {
        Value::Obj(other) => (other.0 == object) as u32,
        Value::Arr(array) => {
            let mut count: u32 = 0;
            for item in array.items.as_slice() {
                count = count.saturating_add(count_in(item, object));
            }
            count
        }
        _ => 0,
    }
}

/// How many references to an object are in cells.
pub fn count_in_cells(cells: &Cells, object: u32) -> u32
    requires { sum_by weight_of (values_of cells.now.entries) ≤ most_weight }
    ensures count { result ≡ count_of object (flat_map spec.references (values_of cells.now.entries)) }
    ensures most { 32 * result ≤ sum_by weight_of (values_of cells.now.entries) }
{
    let mut count: u32 = 0;
    for key in cells.keys() {
        if let Some(value) = cells.get(*key) {
            count = count.saturating_add(count_in(value, object));
        }
    }
    count
}

/// How many references to an object are in what another one consists of: 2^32 - 1 stands for more.
fn count_in_object(object: &Object, number: u32) -> u32
    ensures count { result ≡ min (count_of number (spec.object_references object.now)) (2 ^ 32 - 1) }
    ensures most { 32 * result ≤ object_weight object.now }
{
    match &object.content {
        Content::Fields { class: _, cells: _ } => 0,
        Content::Entries(table) => table.count(number),
    }
}

/// How many references to an object are in others.
pub fn count_in_objects(objects: &Objects, number: u32) -> u32
    requires { sum_by object_weight (values_of objects.now.entries) ≤ most_weight }
    ensures count { result ≡ count_of number (flat_map spec.object_references (values_of objects.now.entries)) }
    ensures most { 32 * result ≤ sum_by object_weight (values_of objects.now.entries) }
{
    let mut count: u32 = 0;
    for key in objects.keys() {
        if let Some(object) = objects.get(*key) {
            count = count.saturating_add(count_in_object(object, number));
        }
    }
    count
}
