//! The data of a page: its cells, its objects and dictionaries, the values that it holds, and the references to each
//! object.
#![tactic(auto)]

mod appending;
mod cell_map;
mod cells;
mod counts;
mod depth;
mod fault;
mod heap;
mod held;
mod key;
mod object;
mod object_map;
mod objects;
mod pairs;
mod place;
mod pooled;
mod references;
mod releases;
mod saying;
mod table;
mod table_map;
mod tables;
mod within;

pub use fault::HeapStop;
pub use heap::{Heap, MOST_WEIGHT};
pub use place::{CellNo, Place};
pub use within::value_in;
