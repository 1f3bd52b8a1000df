//! The data of a page.
ghost use Rattle.std.specs.Prelude.{◌≡◌, [], Ok, IsTrue};
ghost use Rattle.vb_value.specs.declared.value.Value.{Value};
ghost use Rattle.vb_value.specs.Outcome.{Gives};
ghost use Rattle.vb_heap.specs.declared.place.Place.{Place};
ghost use Rattle.vb_heap.specs.Cells.{read_of};
ghost use Rattle.vb_heap.specs.References.{RefersNowhere, references};
ghost use Rattle.vb_heap.specs.Store.{no_data};
ghost use Rattle.vb_heap.specs.PageWeight.{weight_of_page};

use crate::counts::Counts;
use crate::object::Object;
use slot_pool::Pool;
use std::alloc::Global;
use std::marker::Model;
use vb_value::{List, Memory, Value};

/// What all cells, objects and entries may weigh: 16 MiB.
pub const MOST_WEIGHT: u64 = 16_777_216;

/// How many cells, and how many objects, may be there at once: no more fit into what all may weigh.
const MOST_THERE: u32 = 524_288;

/// The data of a page: cells by their numbers, objects by theirs, and the references in held values. A contract sees
/// it as the record `Store`.
#[derive(Drop)]
pub struct Heap {
    pub(crate) cells: Pool<Value>,
    pub(crate) objects: Pool<Object>,
    pub(crate) counts: Counts,
    pub(crate) held: List<u32>,
    pub(crate) cells_made: u64,
    pub(crate) objects_made: u32,
    pub(crate) weight: u64,
    pub(crate) top: u64,
}

impl Model for Heap {
    ghost use Rattle.std.specs.Coded.{codes};
    ghost use Rattle.vb_value.specs.contracts.value.Value as value;
    ghost use Rattle.vb_heap.specs.Store.{Store};

    ghost Value = { Store };

    ghost coded = { Prim.hlevel (codes, value.the_row.coded) };

    ghost use Rattle.vb_heap.specs.Inside.{store_of, IsKept};

    ghost view = { store_of };

    ghost invariant = { IsKept };
}

impl Heap {
    /// The data with which a page begins: none.
    pub fn new(alloc: Global) -> Result<Heap, Memory>
        ensures { Gives result no_data }
    {
        Ok(Heap {
            cells: Pool::with_reserve(alloc, 0, MOST_THERE)?,
            objects: Pool::with_reserve(alloc, 0, MOST_THERE)?,
            counts: Counts::new(alloc, MOST_THERE)?,
            held: List::new(alloc),
            cells_made: 0,
            objects_made: 0,
            weight: 0,
            top: 0,
        })
    }

    /// What all cells, objects and entries weigh, 16 MiB at most.
    pub fn page_weight(&self) -> u64
        ensures { result ≡ weight_of_page self.now }
    {
        self.weight
    }

    /// How many objects were made so far, those that have ended among them.
    pub fn objects_made(&self) -> u32
        ensures { result ≡ self.now.objects_made }
    {
        self.objects_made
    }
    /// Whether it is sure that no cell refers to an object. It is from the start until the first reference is kept.
    pub fn refers_nowhere(&self) -> bool
        ensures nowhere { IsTrue result → RefersNowhere self.now }
        ensures read { IsTrue result → (place : Place) → (value : Value) → read_of place self.now ≡ Ok value
            → references value ≡ [] }
    {
        self.top == 0
    }
}
