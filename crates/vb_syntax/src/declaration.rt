//! What is declared (VBScript 5.6 language reference, "Variables", "Constants" and "Procedures").

use crate::expression::Literal;
use vb_value::{List, Text};

/// A word before a declaration.
#[derive(Clone, Copy, Debug, PartialEq, Eq)]
pub enum Access {
    /// `Public`
    Public,
    /// `Private`
    Private,
}

/// A declared variable.
#[derive(Debug, Drop)]
pub struct Declared {
    /// Its name, as written.
    pub name: Text,
    /// The last index of each dimension. `None` is no array, and no dimension is an array to be sized later.
    pub bounds: Option<List<i32>>,
}

/// A declared constant.
#[derive(Debug, Drop)]
pub struct Constant {
    /// Its name, as written.
    pub name: Text,
    /// What it stands for.
    pub value: ConstantValue,
}

/// What a constant stands for.
#[derive(Debug, Drop)]
pub enum ConstantValue {
    /// A value that is written down.
    Literal(Literal),
    /// `- number`
    NegativeInteger(i16),
    /// `- number`
    NegativeLong(i32),
}

/// A parameter of a procedure. A `()` behind its name says nothing and is not kept.
#[derive(Debug, Drop)]
pub struct Parameter {
    /// `ByVal`: it has a place of its own. Else it is the caller's place.
    pub by_value: bool,
    /// Its name, as written.
    pub name: Text,
}
