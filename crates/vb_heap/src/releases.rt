//! Release points, and how objects end.
ghost use Rattle.std.specs.Prelude.{◌≡◌};
ghost use Rattle.std.specs.Option.{option_map};
ghost use Rattle.vb_heap.specs.Releases as spec;
ghost use Rattle.vb_heap.specs.References.{references_to};
ghost use Rattle.vb_heap.specs.Store.{no_data, numbered};

use crate::counts::{count_at, end_count, end_oldest};
use crate::heap::Heap;
use crate::object_map::{is_ending, remove_object, set_ending};
use crate::references::{count_in_cells, count_in_objects};
use slot_pool::numbers_rise;
use vb_value::ObjNo;

impl Heap {
    /// How many references there are to an object.
    pub fn count(&self, object: ObjNo) -> u32
        ensures { result ≡ references_to object.0 self.now }
    {
        match count_at(&self.counts, object.0) {
            Some(count) => count,
            None => self.count_everywhere(object),
        }
    }

    /// How many references there are to the next object that is made: none, unless a number that was not given yet was
    /// stored or held.
    pub(crate) fn first_count(&self) -> u32
        ensures { result ≡ references_to self.now.objects_made self.now }
    {
        if self.top <= self.objects_made as u64 {
            0
        } else {
            self.count_everywhere(ObjNo(self.objects_made))
        }
    }

    /// How many references there are to an object, by looking everywhere.
    #[tactic(auto, using(crate::proofs::ValueReferences::count_both))]
    fn count_everywhere(&self, object: ObjNo) -> u32
        ensures { result ≡ references_to object.0 self.now }
    {
        let held = self
            .held
            .as_slice()
            .iter()
            .filter(|held| **held == object.0)
            .count();
        count_in_cells(&self.cells, object.0)
            + count_in_objects(&self.objects, object.0)
            + held as u32
    }

    /// Marks the oldest live object without references as ending and names it, if there is one. It looks at
    /// those alone that lost their last reference since.
    pub fn release_point(&mut self) -> Option<ObjNo>
        ensures object { result ≡ option_map spec.object_of (spec.oldest_loose self.old) }
        ensures data { self.new ≡ spec.with_ending (spec.oldest_loose self.old) self.old }
    {
        match end_oldest(&mut self.counts) {
            Some(number) => {
                set_ending(&mut self.objects, number);
                Some(ObjNo(number))
            }
            None => None,
        }
    }

    /// The number of the oldest live object, if there is one.
    fn oldest_live(&self) -> Option<u32>
        ensures { result ≡ spec.oldest_live self.now }
    {
        let _made = self.objects_made;
        numbers_rise(&self.objects);
        for key in self.objects.keys() {
            if let Some(object) = self.objects.get(*key) {
                if !object.ending {
                    return Some(key.number as u32);
                }
            }
        }
        None
    }

    /// Marks the oldest live object as ending and names it, if there is one.
    pub fn last_point(&mut self) -> Option<ObjNo>
        ensures object { result ≡ option_map spec.object_of (spec.oldest_live self.old) }
        ensures data { self.new ≡ spec.with_ending (spec.oldest_live self.old) self.old }
    {
        let number = self.oldest_live()?;
        set_ending(&mut self.objects, number);
        end_count(&mut self.counts, number);
        Some(ObjNo(number))
    }

    /// Ends an object that is ending: its fields or entries go with it.
    #[tactic(auto, using(crate::proofs::Ending::finishes))]
    pub fn finish_object(&mut self, object: ObjNo)
        ensures { self.new ≡ spec.finished object.0 (numbered object.0 self.old.objects) self.old }
    {
        if is_ending(&self.objects, object.0) {
            self.weight -= remove_object(
                &mut self.objects,
                &mut self.cells,
                &mut self.counts,
                object.0,
            );
        }
    }

    /// Drops all data, as on a new heap.
    pub fn reset(&mut self)
        ensures { self.new ≡ no_data }
    {
        self.cells.reset();
        self.objects.reset();
        self.counts.reset();
        self.held.truncate(0);
        self.cells_made = 0;
        self.objects_made = 0;
        self.weight = 0;
        self.top = 0;
    }
}
