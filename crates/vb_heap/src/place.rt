//! Places that values are stored at.

use vb_value::List;

/// A cell, by its number in the order of creation.
#[derive(Clone, Copy, Debug, PartialEq, Eq)]
pub struct CellNo(pub u64);

/// A cell, or an element of an array in it.
#[derive(Debug, Drop)]
pub struct Place {
    pub cell: CellNo,
    /// The indices of an element, those of an element within that element, and so on. None for the cell itself.
    pub steps: List<List<i32>>,
}
