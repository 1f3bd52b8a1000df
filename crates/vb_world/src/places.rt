//! Variables and elements of arrays as places that hold values.
ghost use Rattle.std.specs.Prelude.{◌≡◌, length, IfOk};
ghost use Rattle.vb_value.specs.Outcome.{Answers, Gives};
ghost use Rattle.vb_value.specs.declared.value.Value.{Empty};
ghost use Rattle.vb_heap.specs.Cells.{with_stored};
ghost use Rattle.vb_meaning.specs.declared.stop.Stop.TheVariants as stop;
ghost use Rattle.vb_meaning.specs.Places as spec;
ghost use Rattle.vb_meaning.specs.State.{with_store};
ghost use Rattle.vb_meaning.specs.Step.{Ran, raising};
ghost use Rattle.vb_meaning.specs.Shown.{shown};

use crate::copying::copied;
use std::alloc::Global;
use vb_heap::{CellNo, HeapStop, Place};
use vb_meaning::{Stop, World, long_of};
use vb_syntax::program::{Named, Slot};
use vb_value::{Copied, List, Memory, Value, VbError};

/// A cell as a place.
pub fn cell_place(alloc: Global, cell: CellNo) -> Place
    ensures { result ≡ spec.cell_place cell }
{
    Place {
        cell,
        steps: List::new(alloc),
    }
}

/// Makes a cell that holds a value.
#[tactic(auto, unfolding(vb_meaning::specs::Places::new_cell))]
pub fn new_cell(world: &mut World, value: Value) -> Result<CellNo, Stop>
    ensures { Ran (spec.new_cell value (shown world.old)) result (shown world.new) }
{
    Ok(world.heap.new_cell(value)?)
}

/// Holds a value to the end of the statement.
#[tactic(auto, unfolding(vb_meaning::specs::Places::hold))]
pub fn hold(world: &mut World, value: &Value) -> Result<(), Stop>
    ensures { Ran (spec.hold value.now (shown world.old)) result (shown world.new) }
{
    Ok(world.heap.hold(value)?)
}

/// A copy of what a place holds.
#[tactic(auto, unfolding(vb_meaning::specs::Places::read_place))]
pub fn read_place(alloc: Global, world: &World, place: &Place) -> Result<Value, Stop>
    ensures { Ran (spec.read_place place.now (shown world.now)) result (shown world.now) }
{
    let value = world.heap.look(place)?;
    Ok(copied(alloc, value)?)
}

/// Whether a value is an array that a declaration fixed.
fn is_fixed(value: &Value) -> bool
    ensures { result ≡ spec.is_fixed value.now }
{
    match value {
        Value::Arr(array) => array.fixed,
        _ => false,
    }
}

/// Puts a value into a place. Error 13 where the place holds a fixed array.
#[tactic(auto, unfolding(vb_meaning::specs::Places::store_place))]
pub fn store_place(world: &mut World, place: &Place, value: Value) -> Result<(), Stop>
    ensures { Ran (spec.store_place place.now value (shown world.old)) result (shown world.new) }
{
    if is_fixed(world.heap.look(place)?) {
        return Err(Stop::from(VbError::TYPE_MISMATCH));
    }
    Ok(world.heap.store(place, value)?)
}

/// The indices of an element, each made Long from left to right.
pub fn indices_of(alloc: Global, mut values: &[Value]) -> Result<List<i32>, Stop>
    ensures { Answers result stop.Memory (raising (spec.indices_of values.entry.now)) }
{
    let mut indices = List::with_capacity(alloc, values.len())?;
    while let [first, others @ ..] = values {
        indices.push(long_of(first)?)?;
        values = others;
    }
    Ok(indices)
}

/// The element at these indices of what a place holds.
pub fn element_place(place: &Place, indices: List<i32>) -> Result<Place, Memory>
    ensures { Gives result (spec.element_place place.now indices) }
{
    let mut steps = place.steps.copy()?;
    steps.push(indices)?;
    Ok(Place {
        cell: place.cell,
        steps,
    })
}

/// The place of a variable.
#[tactic(auto, unfolding(vb_meaning::specs::Places::variable))]
pub fn variable(alloc: Global, world: &World, slot: Slot) -> Result<Place, Stop>
    ensures { Ran (spec.variable slot (shown world.now)) result (shown world.now) }
{
    match slot {
        Slot::Page(number) => match world.page.get(number as usize) {
            Some(cell) => Ok(cell_place(alloc, *cell)),
            None => Err(Stop::from(VbError::UNDEFINED_VARIABLE)),
        },
        Slot::Local(number) => match world.frame.places.get(number as usize) {
            Some(place) => Ok(copy_place(place)?),
            None => Err(Stop::from(VbError::UNDEFINED_VARIABLE)),
        },
        Slot::Field(number) => match world.frame.owner {
            Some((object, _)) => Ok(cell_place(alloc, world.heap.field(object, number)?)),
            None => Err(Stop::from(VbError::UNDEFINED_VARIABLE)),
        },
        Slot::Result => match world.frame.result {
            Some(cell) => Ok(cell_place(alloc, cell)),
            None => Err(Stop::from(VbError::UNDEFINED_VARIABLE)),
        },
    }
}

/// A place equal to that one.
fn copy_place(place: &Place) -> Result<Place, Memory>
    ensures { Gives result place.now }
{
    Ok(Place {
        cell: place.cell,
        steps: place.steps.copy()?,
    })
}

/// A name as what is assigned to. Error 500 for a name that nothing declares, and 501 for any other that is no variable.
pub fn target_variable(alloc: Global, world: &World, name: &Named) -> Result<Place, Stop>
    ensures { Ran (spec.target_variable name.now (shown world.now)) result (shown world.now) }
{
    match name {
        Named::Place(slot) => variable(alloc, world, *slot),
        Named::Unknown => Err(Stop::from(VbError::UNDEFINED_VARIABLE)),
        _ => Err(Stop::from(VbError::ILLEGAL_ASSIGNMENT)),
    }
}

/// Drops cells, one after the other.
pub fn drop_cells(world: &mut World, mut cells: &[CellNo])
    ensures { shown world.new ≡ with_store (spec.cells_dropped cells.entry.now) (shown world.old) }
{
    while let [first, others @ ..] = cells {
        world.heap.drop_cell(*first);
        cells = others;
    }
}

/// A cell that is there holds Empty. Nothing is lighter, so no limit comes.
#[tactic(auto, using(crate::proofs::Emptying::gone_already))]
fn empty_cell(alloc: Global, world: &mut World, cell: CellNo) -> Result<(), Memory>
    ensures { IfOk result (λ _. shown world.new ≡ with_store (with_stored (spec.cell_place cell) Empty)
        (shown world.old)) }
{
    match world.heap.store(&cell_place(alloc, cell), Value::Empty) {
        Ok(()) | Err(HeapStop::Error(_)) => Ok(()),
        Err(HeapStop::Limit(_) | HeapStop::Memory) => Err(Memory),
    }
}

/// The values of cells go, one after the other: each cell holds Empty.
pub fn empty_cells(alloc: Global, world: &mut World, mut cells: &[CellNo]) -> Result<(), Memory>
    ensures { IfOk result (λ _. shown world.new ≡ with_store (spec.cells_emptied cells.entry.now) (shown world.old)) }
{
    while let [first, others @ ..] = cells {
        empty_cell(alloc, world, *first)?;
        cells = others;
    }
    Ok(())
}
