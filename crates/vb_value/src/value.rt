//! Values of the language, and arrays of them.

use crate::list::List;
use crate::text::Text;

/// An object of a page, by its number in the order of creation.
#[derive(Clone, Copy, Debug, PartialEq, Eq)]
pub struct ObjNo(pub u32);

/// A value, by its subtype of Variant (VBScript 5.6, "VBScript Data Types"). Numbers are whole but Currency.
#[cycle(value)]
#[derive(Debug, Drop, PartialEq)]
pub enum Value {
    /// What a variable holds before anything is assigned to it.
    Empty,
    /// No valid data.
    Null,
    Bool(bool),
    Int(i16),
    Long(i32),
    /// Currency, in ten-thousandths.
    Cur(i64),
    Str(Text),
    Arr(Array),
    Obj(ObjNo),
    /// A reference that refers to no object.
    Nothing,
}

/// An array of values, of any number of dimensions.
#[cycle(value)]
#[derive(Debug, Drop, PartialEq)]
pub struct Array {
    /// The greatest index of each dimension, -1 where it has none. The least is 0.
    pub bounds: List<i32>,
    /// Whether its dimensions were declared with it, so that `ReDim` refuses it.
    pub fixed: bool,
    /// The items, the first index changing fastest.
    pub items: List<Value>,
}
