//! Objects and their fields.
ghost use Rattle.std.specs.Prelude.{◌≡◌, ℕ, ◌+◌, ◌<◌, ◌^◌, IsTrue};
ghost use Rattle.vb_value.specs.Outcome.{Answers, Changes, Gives};
ghost use Rattle.vb_heap.specs.Entries.{with_new_table};
ghost use Rattle.vb_heap.specs.Limits.{fits};
ghost use Rattle.vb_heap.specs.Objects as spec;
ghost use Rattle.vb_heap.specs.Room.{HasRoom};
ghost use Rattle.vb_heap.specs.Store.{numbered};

use crate::cell_map::{add_cells, reserve_cells};
use crate::counts::{add_count, reserve_count};
use crate::fault::HeapStop;
use crate::heap::{Heap, MOST_WEIGHT};
use crate::object::{Content, Object};
use crate::object_map::{add_object, object_at};
use crate::place::CellNo;
use std::alloc::Global;
use vb_value::{LimitKind, List, Memory, ObjNo, VbError};

/// What an object weighs without its entries, and a cell that is Empty.
pub(crate) const LEAST_WEIGHT: u64 = 32;

/// So many cells from a number on.
fn cells_from(alloc: Global, first: u64, count: u32) -> Result<List<CellNo>, Memory>
    requires { first + count < 2 ^ 64 }
    ensures { Gives result (spec.cells_from first count) }
{
    let mut cells = List::with_capacity(alloc, count as usize)?;
    for done in 0..count {
        cells.push(CellNo(first + done as u64))?;
    }
    Ok(cells)
}

impl Heap {
    /// Whether an object more may be made, with so many fields.
    pub(crate) fn has_room(&self, fields: u32) -> bool
        ensures object { (class : ℕ) → result ≡ fits (spec.with_new_object class fields self.now) }
        ensures table { fields ≡ 0 → result ≡ fits (with_new_table self.now) }
        ensures room { IsTrue result → HasRoom fields self.now }
    {
        if MOST_WEIGHT < self.weight + LEAST_WEIGHT + LEAST_WEIGHT * fields as u64 {
            return false;
        }
        if self.objects_made == u32::MAX {
            return false;
        }
        if u64::MAX - self.cells_made < fields as u64 {
            return false;
        }
        true
    }

    /// Makes an object of a class, with so many fields, each of them Empty.
    pub fn new_object(&mut self, class: u32, fields: u32) -> Result<ObjNo, HeapStop>
        ensures answer { Answers result HeapStop.Memory (spec.new_object_of class fields self.old) }
        ensures data { Changes result self.old self.new (spec.with_new_object class fields self.old) }
    {
        if !self.has_room(fields) {
            return Err(HeapStop::Limit(LimitKind::Data));
        }
        let cells = cells_from(*self.held.allocator(), self.cells_made, fields)?;
        let object = Object {
            content: Content::Fields { class, cells },
            ending: false,
        };
        let count = self.first_count();
        reserve_cells(&mut self.cells, fields)?;
        reserve_count(&mut self.counts)?;
        add_object(&mut self.objects, object)?;
        add_count(&mut self.counts, count);
        add_cells(&mut self.cells, fields);
        let number = self.objects_made;
        self.cells_made += fields as u64;
        self.objects_made = number + 1;
        self.weight += LEAST_WEIGHT + LEAST_WEIGHT * fields as u64;
        Ok(ObjNo(number))
    }

    /// The cell of a field, counted from 0. Error 91 where the object has ended, and 438 where it has no such field.
    pub fn field(&self, object: ObjNo, field: u32) -> Result<CellNo, VbError>
        ensures { result ≡ spec.field_of field (numbered object.0 self.now.objects) }
    {
        match object_at(&self.objects, object.0) {
            Some(object) => field_in(&object.content, field),
            None => Err(VbError::OBJECT_NOT_SET),
        }
    }

    /// The class of an object, or `None` of a dictionary. Error 91 where the object has ended.
    pub fn class(&self, object: ObjNo) -> Result<Option<u32>, VbError>
        ensures { result ≡ spec.class_of (numbered object.0 self.now.objects) }
    {
        match object_at(&self.objects, object.0) {
            Some(object) => Ok(class_in(&object.content)),
            None => Err(VbError::OBJECT_NOT_SET),
        }
    }
}

/// A field of what an object consists of.
fn field_in(content: &Content, field: u32) -> Result<CellNo, VbError>
    ensures { result ≡ spec.field_in field content.now }
{
    match content {
        Content::Fields { class: _, cells } => match cells.get(field as usize) {
            Some(cell) => Ok(*cell),
            None => Err(VbError::UNSUPPORTED),
        },
        Content::Entries(_) => Err(VbError::UNSUPPORTED),
    }
}

/// The class of what an object consists of, if it has one.
fn class_in(content: &Content) -> Option<u32>
    ensures { result ≡ spec.class_in content.now }
{
    match content {
        Content::Fields { class, cells: _ } => Some(*class),
        Content::Entries(_) => None,
    }
}
