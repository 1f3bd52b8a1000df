//! What paths and arguments come to.

use vb_heap::Place;
use vb_value::{ObjNo, Value};

/// What a path has come to.
#[derive(Debug, Drop)]
pub enum Reached {
    /// A place that holds a value.
    Place(Place),
    /// A value.
    Value(Value),
}

/// An argument of a procedure.
#[derive(Debug, Drop)]
pub enum Argument {
    /// The caller's place.
    Place(Place),
    /// A value.
    Value(Value),
}

/// How a value is assigned.
#[derive(Clone, Copy, Debug, PartialEq, Eq)]
pub enum Assigned {
    /// Without `Set`.
    Let,
    /// With `Set`.
    Set,
}

/// What a value is that is asked for an element.
#[derive(Clone, Copy, Debug, PartialEq, Eq)]
pub enum Kind {
    /// An array.
    Array,
    /// An object.
    Object(ObjNo),
    /// `Nothing`
    Nothing,
    /// Any other value.
    Scalar,
}
