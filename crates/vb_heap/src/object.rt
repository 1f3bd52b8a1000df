//! Objects that have not ended.

use crate::place::CellNo;
use crate::table::Table;
use vb_value::List;

/// What an object consists of.
#[derive(Drop)]
pub enum Content {
    /// The number of its class, and the cell of each field.
    Fields { class: u32, cells: List<CellNo> },
    /// A dictionary.
    Entries(Table),
}

/// An object that has not ended.
#[derive(Drop)]
pub struct Object {
    pub content: Content,
    /// Whether its terminator has begun.
    pub ending: bool,
}
