//! Objects by their numbers.
ghost use Rattle.std.specs.Prelude.{◌≡◌, ◌+◌, ◌≤◌, ◌++◌, ◌∷◌, ◌-◌, ◌<◌, ◌^◌, [], length, min, sum_by, IfSome};
ghost use Rattle.std.specs.Map.{values_of};
ghost use Rattle.std.specs.Option.{option_copied};
ghost use Rattle.slot_pool.specs.Pool.{numbers};
ghost use Rattle.vb_value.specs.Outcome.{Changes};
ghost use Rattle.vb_value.specs.Weight.{weight_of};
ghost use Rattle.vb_heap.specs.Counted.{content_gone, counts_less};
ghost use Rattle.vb_heap.specs.Limits.{most_weight};
ghost use Rattle.vb_heap.specs.PageWeight.{object_weight};
ghost use Rattle.vb_heap.specs.Pooled.{IsPooled};
ghost use Rattle.vb_heap.specs.Releases.{ends_now, fields_of, objects_ending, without_all, without_fields};
ghost use Rattle.vb_heap.specs.Store.{numbered, without};
ghost use Rattle.vb_heap.specs.Tally.{IsTallied};

use crate::cell_map::{Cells, remove_cells};
use crate::counts::{Counts, remove_count};
use crate::object::{Content, Object};
use crate::pooled::by_number;
use slot_pool::{Pool, PoolStop};
use vb_value::Memory;

/// Objects by their numbers.
pub type Objects = Pool<Object>;

/// An object, if it is there.
pub fn object_at(objects: &Objects, number: u32) -> Option<&Object>
    ensures { option_copied result ≡ numbered number objects.now.entries }
{
    objects.get(by_number(number as u64))
}

/// Adds an object, with the next number.
pub fn add_object(objects: &mut Objects, object: Object) -> Result<(), Memory>
    requires few { length objects.old.entries < objects.old.most }
    requires numbers { objects.old.next < numbers }
    ensures objects { Changes result objects.old.entries objects.new.entries
        (objects.old.entries ++ (objects.old.next, object) ∷ []) }
    ensures made { Changes result objects.old.next objects.new.next (objects.old.next + 1) }
    ensures most { objects.new.most ≡ objects.old.most }
{
    match objects.put(object) {
        Ok(_) => Ok(()),
        Err((_, PoolStop::Memory)) => Err(Memory),
        Err((_, PoolStop::Full)) => unreachable!(),
    }
}

/// Marks an object as ending, if it is there.
pub fn set_ending(objects: &mut Objects, number: u32)
    ensures objects { objects.new.entries ≡ objects_ending number objects.old.entries }
    ensures pooled { IsPooled objects.old objects.new }
{
    if let Some(object) = objects.get_mut(by_number(number as u64)) {
        object.ending = true;
    }
}

/// Whether an object is there and is ending.
pub fn is_ending(objects: &Objects, number: u32) -> bool
    ensures { result ≡ ends_now (numbered number objects.now.entries) }
{
    match object_at(objects, number) {
        Some(object) => object.ending,
        None => false,
    }
}

/// What an object weighs: 2^64 - 1 stands for more.
pub fn weight_of_object(object: &Object) -> u64
    ensures { result ≡ min (object_weight object.now) (2 ^ 64 - 1) }
{
    match &object.content {
        Content::Fields { class: _, cells: _ } => 32,
        Content::Entries(table) => table.weight().saturating_add(32),
    }
}

/// Drops the cells of the fields of what an object consists of, and says what they weighed. The references in them or
/// in its entries are counted as gone.
fn remove_fields(cells: &mut Cells, counts: &mut Counts, content: &Content) -> u64
    requires light { sum_by weight_of (values_of cells.old.entries) ≤ most_weight }
    ensures counts { counts.new.entries ≡ counts_less (content_gone content.now cells.old.entries) counts.old.entries }
    ensures ends { counts.new.ends ≡ counts.old.ends }
    ensures counts_pooled { IsTallied counts.old counts.new }
    ensures cells { cells.new.entries ≡ without_all (fields_of content.now) cells.old.entries }
    ensures pooled { IsPooled cells.old cells.new }
    ensures weight { result + sum_by weight_of (values_of cells.new.entries)
        ≡ sum_by weight_of (values_of cells.old.entries) }
{
    match content {
        Content::Fields {
            class: _,
            cells: gone,
        } => remove_cells(cells, counts, gone.as_slice()),
        Content::Entries(table) => {
            table.lower(counts);
            0
        }
    }
}

/// Drops an object and the cells of its fields, and says what they weighed: nothing if it is not there.
pub fn remove_object(
    objects: &mut Objects,
    cells: &mut Cells,
    counts: &mut Counts,
    number: u32,
) -> u64
    requires light { sum_by weight_of (values_of cells.old.entries) + sum_by object_weight (values_of objects.old.entries)
        ≤ most_weight }
    ensures counts { IfSome (numbered number objects.old.entries) (λ object. counts.new.entries
        ≡ counts_less (content_gone object.content cells.old.entries) (without number counts.old.entries)) }
    ensures ends { counts.new.ends ≡ without number counts.old.ends }
    ensures counts_pooled { IsTallied counts.old counts.new }
    ensures objects { objects.new.entries ≡ without number objects.old.entries }
    ensures objects_pooled { IsPooled objects.old objects.new }
    ensures cells { cells.new.entries ≡ without_fields (numbered number objects.old.entries) cells.old.entries }
    ensures pooled { IsPooled cells.old cells.new }
    ensures weight { result
        + (sum_by weight_of (values_of cells.new.entries) + sum_by object_weight (values_of objects.new.entries))
        ≡ sum_by weight_of (values_of cells.old.entries) + sum_by object_weight (values_of objects.old.entries) }
{
    remove_count(counts, number);
    match objects.take(by_number(number as u64)) {
        Some(object) => {
            weight_of_object(&object) + remove_fields(cells, counts, &object.content)
        }
        None => 0,
    }
}
