//! Cells, and the places in them.
ghost use Rattle.std.specs.Prelude.{◌≡◌};
ghost use Rattle.vb_value.specs.Errors.{reported};
ghost use Rattle.vb_value.specs.Outcome.{Answers, Changes};
ghost use Rattle.vb_heap.specs.Saturated.{result_now};
ghost use Rattle.vb_heap.specs.Cells.{new_cell_of, with_new_cell, without_cell, read_of, store_of, with_stored};

use crate::cell_map::{
    add_cell, cell_at, lower_at, put_in_cell, remove_cell, reserve_cells, weight_at,
};
use crate::counts::raise_in;
use crate::depth::is_too_deep;
use crate::fault::HeapStop;
use crate::heap::{Heap, MOST_WEIGHT};
use crate::place::{CellNo, Place};
use crate::within::value_in;
use std::alloc::Global;
use vb_value::{LimitKind, Value, VbError, VbFault, copy, weight};

impl Heap {
    /// Makes a cell that holds a value. The limit Nest comes before the limit Data.
    #[tactic(auto, using(crate::proofs::Keeping::cells))]
    pub fn new_cell(&mut self, value: Value) -> Result<CellNo, HeapStop>
        ensures answer { Answers result HeapStop.Memory (new_cell_of value self.old) }
        ensures data { Changes result self.old self.new (with_new_cell value self.old) }
    {
        if is_too_deep(0, &value) {
            return Err(HeapStop::Limit(LimitKind::Nest));
        }
        let weight = weight(&value).saturating_add(self.weight);
        if MOST_WEIGHT < weight || self.cells_made == u64::MAX {
            return Err(HeapStop::Limit(LimitKind::Data));
        }
        let number = self.cells_made;
        reserve_cells(&mut self.cells, 1)?;
        self.top = raise_in(&mut self.counts, &value, self.top);
        add_cell(&mut self.cells, value);
        self.cells_made = number + 1;
        self.weight = weight;
        Ok(CellNo(number))
    }

    /// Drops a cell, with what it holds.
    #[tactic(auto, using(crate::proofs::Keeping::cells))]
    pub fn drop_cell(&mut self, cell: CellNo)
        ensures { self.new ≡ without_cell cell self.old }
    {
        self.weight -= remove_cell(&mut self.cells, &mut self.counts, cell.0);
    }

    /// The value at a place, where it lies. Error 91 where the cell is gone, 9 where an index is out of range, and 13
    /// where an index is asked of no array.
    pub fn look(&self, place: &Place) -> Result<&Value, VbError>
        ensures { result_now result ≡ read_of place.now self.now }
    {
        let Some(value) = cell_at(&self.cells, place.cell.0) else {
            return Err(VbError::OBJECT_NOT_SET);
        };
        value_in(value, place.steps.as_slice())
    }

    /// A copy of the value at a place, with the errors of [`Heap::look`].
    pub fn read(&self, alloc: Global, place: &Place) -> Result<Value, VbFault>
        ensures { Answers result VbFault.Memory (reported (read_of place.now self.now)) }
    {
        Ok(copy(alloc, self.look(place)?)?)
    }

    /// Puts another value at a place. Error 91 where the cell is gone, 9 where an index is out of range, 13 where an
    /// index is asked of no array, then the limit Nest, and then the limit Data.
    pub fn store(&mut self, place: &Place, value: Value) -> Result<(), HeapStop>
        ensures answer { Answers result HeapStop.Memory (store_of place.now value self.old) }
        ensures data { Changes result self.old self.new (with_stored place.now value self.old) }
    {
        let steps = place.steps.as_slice();
        let old = weight_at(&self.cells, place.cell.0, steps)?;
        if is_too_deep(steps.len(), &value) {
            return Err(HeapStop::Limit(LimitKind::Nest));
        }
        let weight = weight(&value).saturating_add(self.weight - old);
        if MOST_WEIGHT < weight {
            return Err(HeapStop::Limit(LimitKind::Data));
        }
        lower_at(&mut self.counts, &self.cells, place.cell.0, steps);
        self.top = raise_in(&mut self.counts, &value, self.top);
        put_in_cell(&mut self.cells, place.cell.0, steps, value);
        self.weight = weight;
        Ok(())
    }
}
