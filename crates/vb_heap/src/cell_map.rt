//! Cells by their numbers.
ghost use Rattle.std.specs.Prelude.{◌≡◌, ◌+◌, ◌≤◌, ◌++◌, ◌∷◌, ◌<◌, [], length, sum_by, IfOk, OnErr, OnOk};
ghost use Rattle.std.specs.Map.{values_of};
ghost use Rattle.std.specs.Option.{option_copied, option_map_or};
ghost use Rattle.slot_pool.specs.Pool.{numbers};
ghost use Rattle.vb_value.specs.Errors.{and_then};
ghost use Rattle.vb_value.specs.Outcome.{Changes};
ghost use Rattle.vb_value.specs.Weight.{weight_of};
ghost use Rattle.vb_heap.specs.Cells.{value_there};
ghost use Rattle.vb_heap.specs.Counted.{counts_less, field_references};
ghost use Rattle.vb_heap.specs.Limits.{most_weight};
ghost use Rattle.vb_heap.specs.Objects.{cells_from, empty_cells};
ghost use Rattle.vb_heap.specs.Places.{value_in, with_value};
ghost use Rattle.vb_heap.specs.Pooled.{IsPooled};
ghost use Rattle.vb_heap.specs.References.{references};
ghost use Rattle.vb_heap.specs.Releases.{without_all};
ghost use Rattle.vb_heap.specs.Saturated.{weight_told};
ghost use Rattle.vb_heap.specs.Store.{numbered, without, replaced};
ghost use Rattle.vb_heap.specs.Tally.{IsTallied};

use crate::counts::{Counts, lower_in};
use crate::place::CellNo;
use crate::pooled::by_number;
use crate::within;
use slot_pool::Pool;
use vb_value::{List, Memory, Value, VbError, weight};

/// Cells by their numbers.
pub type Cells = Pool<Value>;

/// The value of a cell, if it is there.
pub fn cell_at(cells: &Cells, number: u64) -> Option<&Value>
    ensures { option_copied result ≡ numbered number cells.now.entries }
{
    cells.get(by_number(number))
}

/// Makes room for so many cells more.
pub fn reserve_cells(cells: &mut Cells, count: u32) -> Result<(), Memory>
    requires { length cells.old.entries + count ≤ cells.old.most }
    ensures cells { cells.new.entries ≡ cells.old.entries }
    ensures pooled { IsPooled cells.old cells.new }
    ensures free { OnOk result (count ≤ cells.new.free) }
    ensures refused { OnErr result (cells.new ≡ cells.old) }
{
    cells.reserve(count)?;
    Ok(())
}

/// Adds a cell, for which there is room, with the next number.
pub fn add_cell(cells: &mut Cells, value: Value)
    requires few { length cells.old.entries < cells.old.most }
    requires numbers { cells.old.next < numbers }
    requires free { 0 < cells.old.free }
    ensures cells { cells.new.entries ≡ cells.old.entries ++ (cells.old.next, value) ∷ [] }
    ensures made { cells.new.next ≡ cells.old.next + 1 }
    ensures free { cells.new.free + 1 ≡ cells.old.free }
    ensures most { cells.new.most ≡ cells.old.most }
{
    match cells.put(value) {
        Ok(_) => {}
        Err(_) => unreachable!(),
    }
}

/// Adds so many cells, each of them Empty, for which there is room.
pub fn add_cells(cells: &mut Cells, count: u32)
    requires few { length cells.old.entries + count ≤ cells.old.most }
    requires numbers { cells.old.next + count ≤ numbers }
    requires free { count ≤ cells.old.free }
    ensures cells { cells.new.entries ≡ cells.old.entries ++ empty_cells (cells_from cells.old.next count) }
    ensures made { cells.new.next ≡ cells.old.next + count }
    ensures most { cells.new.most ≡ cells.old.most }
{
    for _ in 0..count {
        add_cell(cells, Value::Empty);
    }
}

/// Drops a cell with its references, and says what it weighed: nothing if there is none.
#[tactic(auto, using(crate::proofs::CellWeights::removed))]
pub fn remove_cell(cells: &mut Cells, counts: &mut Counts, number: u64) -> u64
    requires light { sum_by weight_of (values_of cells.old.entries) ≤ most_weight }
    ensures counts { counts.new.entries
        ≡ counts_less (option_map_or references (numbered number cells.old.entries) []) counts.old.entries }
    ensures ends { counts.new.ends ≡ counts.old.ends }
    ensures counts_pooled { IsTallied counts.old counts.new }
    ensures cells { cells.new.entries ≡ without number cells.old.entries }
    ensures pooled { IsPooled cells.old cells.new }
    ensures weight { result + sum_by weight_of (values_of cells.new.entries)
        ≡ sum_by weight_of (values_of cells.old.entries) }
{
    match cells.take(by_number(number)) {
        Some(value) => {
            lower_in(counts, &value);
            weight(&value)
        }
        None => 0,
    }
}

/// Drops cells with their references, and says what they weighed.
pub fn remove_cells(cells: &mut Cells, counts: &mut Counts, gone: &[CellNo]) -> u64
    requires light { sum_by weight_of (values_of cells.old.entries) ≤ most_weight }
    ensures counts { counts.new.entries ≡ counts_less (field_references gone.now cells.old.entries) counts.old.entries }
    ensures ends { counts.new.ends ≡ counts.old.ends }
    ensures counts_pooled { IsTallied counts.old counts.new }
    ensures cells { cells.new.entries ≡ without_all gone.now cells.old.entries }
    ensures pooled { IsPooled cells.old cells.new }
    ensures weight { result + sum_by weight_of (values_of cells.new.entries)
        ≡ sum_by weight_of (values_of cells.old.entries) }
{
    let mut weight = 0;
    for cell in gone {
        weight += remove_cell(cells, counts, cell.0);
    }
    weight
}

/// What the value at a place in a cell weighs. Error 91 where the cell is gone, 9 where an index is out of range, and
/// 13 where an index is asked of no array.
pub fn weight_at(cells: &Cells, number: u64, steps: &[List<i32>]) -> Result<u64, VbError>
    requires { sum_by weight_of (values_of cells.now.entries) ≤ most_weight }
    ensures answer { result
        ≡ weight_told (and_then (value_there (numbered number cells.now.entries)) (value_in steps.now)) }
    ensures within { IfOk result (λ weight. weight ≤ sum_by weight_of (values_of cells.now.entries)) }
{
    match cell_at(cells, number) {
        Some(value) => Ok(weight(within::value_in(value, steps)?)),
        None => Err(VbError::OBJECT_NOT_SET),
    }
}

/// Counts the references of the value at a place in a cell as gone, if there is such a place.
pub fn lower_at(counts: &mut Counts, cells: &Cells, number: u64, steps: &[List<i32>])
    ensures counts { IfOk (and_then (value_there (numbered number cells.now.entries)) (value_in steps.now))
        (λ old. counts.new.entries ≡ counts_less (references old) counts.old.entries) }
    ensures ends { counts.new.ends ≡ counts.old.ends }
    ensures pooled { IsTallied counts.old counts.new }
{
    if let Some(value) = cell_at(cells, number) {
        if let Ok(old) = within::value_in(value, steps) {
            lower_in(counts, old);
        }
    }
}

/// Puts a value at a place in a cell, if there is such a place.
pub fn put_in_cell(cells: &mut Cells, number: u64, steps: &[List<i32>], new: Value)
    ensures pooled { IsPooled cells.old cells.new }
    ensures cells { cells.new.entries
        ≡ option_map_or (λ value. replaced number (with_value steps.now new value) cells.old.entries)
        (numbered number cells.old.entries) cells.old.entries }
{
    if let Some(value) = cells.get_mut(by_number(number)) {
        within::put(value, steps, new);
    }
}
