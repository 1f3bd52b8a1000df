//! Procedures, classes and whole scripts (VBScript 5.6 language reference, "Procedures" and "Class Object").

use crate::declaration::{Access, Declared, Parameter};
use crate::statement::Statement;
use vb_value::{List, Text};

/// A script: all the code and the text of a page, or a text of its own.
#[derive(Debug, Drop)]
pub struct Unit {
    /// `Option Explicit`: each variable has to be declared.
    pub option_explicit: bool,
    /// What it has, in the order in which it stands.
    pub items: List<Item>,
}

/// What stands in a script, outside of procedures and classes.
#[derive(Debug, Drop)]
pub enum Item {
    /// A statement of the script's own body.
    Statement(Statement),
    /// `Public name, ..` or `Private name, ..`
    Variables {
        /// The line of the first word, counted from 1.
        line: u32,
        /// Which word it is.
        access: Access,
        /// The variables, at least one.
        variables: List<Declared>,
    },
    /// A procedure.
    Procedure(Procedure),
    /// A class.
    Class(Class),
}

/// `Sub name(parameters)` .. `End Sub`, or the same with `Function`.
#[derive(Debug, Drop)]
pub struct Procedure {
    /// The line of the first word, counted from 1.
    pub line: u32,
    /// The word before it.
    pub access: Option<Access>,
    /// Which of the two it is.
    pub kind: ProcedureKind,
    /// Its name, as written.
    pub name: Text,
    /// Its parameters.
    pub parameters: List<Parameter>,
    /// What it does.
    pub body: List<Statement>,
}

/// Whether a procedure gives a value.
#[derive(Clone, Copy, Debug, PartialEq, Eq)]
pub enum ProcedureKind {
    /// `Sub`, which gives none.
    Sub,
    /// `Function`, which gives one.
    Function,
}

/// `Class name` .. `End Class`
#[derive(Debug, Drop)]
pub struct Class {
    /// The line of the first word, counted from 1.
    pub line: u32,
    /// Its name, as written.
    pub name: Text,
    /// What its objects have.
    pub members: List<ClassMember>,
}

/// What a class has.
#[derive(Debug, Drop)]
pub enum ClassMember {
    /// `Dim name, ..`, `Public name, ..` or `Private name, ..`
    Fields {
        /// The line of the first word, counted from 1.
        line: u32,
        /// Which word it is.
        access: FieldAccess,
        /// The fields, at least one.
        fields: List<Declared>,
    },
    /// A method.
    Method(Procedure),
    /// A property.
    Property(Property),
}

/// The word before the fields of a class.
#[derive(Clone, Copy, Debug, PartialEq, Eq)]
pub enum FieldAccess {
    /// `Dim`
    Dim,
    /// `Public`
    Public,
    /// `Private`
    Private,
}

/// `Property kind name(parameters)` .. `End Property`
#[derive(Debug, Drop)]
pub struct Property {
    /// The line of the first word, counted from 1.
    pub line: u32,
    /// The word before it.
    pub access: Option<Access>,
    /// When it is used.
    pub kind: PropertyKind,
    /// Its name, as written.
    pub name: Text,
    /// Its parameters.
    pub parameters: List<Parameter>,
    /// What it does.
    pub body: List<Statement>,
}

/// When a property is used.
#[derive(Clone, Copy, Debug, PartialEq, Eq)]
pub enum PropertyKind {
    /// `Get`: where it is read.
    Get,
    /// `Let`: where a value is assigned.
    Let,
    /// `Set`: where an object is assigned.
    Set,
}
