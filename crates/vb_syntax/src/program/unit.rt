//! Procedures, classes and whole programs (VBScript 5.6 language reference, "Procedures" and "Class Object").

use crate::declaration::ConstantValue;
use crate::program::name::DictionaryMember;
use crate::program::statement::Statement;
use vb_value::{List, Text};

/// A script in which each name is what it stands for.
#[derive(Debug, Drop)]
pub struct Unit {
    /// Its own statements, in the order in which they stand. A declaration of its variables is one of them.
    pub body: List<Statement>,
    /// Its variables, by their numbers: those that are declared, and then those that its body only mentions.
    pub variables: List<Variable>,
    /// Its constants, by their numbers.
    pub constants: List<Constant>,
    /// Its procedures, by their numbers.
    pub procedures: List<Procedure>,
    /// Its classes, by their numbers.
    pub classes: List<Class>,
    /// All names of the script, each once but for ASCII case, by their numbers and as they stand where they first do.
    pub names: List<Text>,
    /// Of each of these names, which member of a Dictionary it says.
    pub dictionary: List<Option<DictionaryMember>>,
}

/// A variable of a page or of a procedure, or a field of a class.
#[derive(Debug, Drop)]
pub struct Variable {
    /// The line of its declaration, or else of the first place that makes it one. What goes wrong when it is made is
    /// reported with it.
    pub line: u32,
    /// Of an array, the last index of each dimension. No dimension is an array to be sized later. `None` is no array.
    pub bounds: Option<List<i32>>,
}

/// A constant that is declared.
#[derive(Debug, Drop)]
pub struct Constant {
    /// The line of the declaration, which an error in the value is reported with.
    pub line: u32,
    /// How many variables of its scope stand before it.
    pub before: u32,
    /// What it stands for.
    pub value: ConstantValue,
}

/// A procedure of a page or of a class.
#[derive(Debug, Drop)]
pub struct Procedure {
    /// The line of the first word, counted from 1.
    pub line: u32,
    /// `Private` stands before it. It says something in a class alone.
    pub is_private: bool,
    /// What it is, and when it is used.
    pub kind: ProcedureKind,
    /// The number of its name among all names.
    pub name: u32,
    /// Of each parameter, whether it has a place of its own: `ByVal`. Else it is the caller's place.
    pub by_value: List<bool>,
    /// Its variables, by their numbers: the parameters, those that are declared, and those that it only mentions.
    pub variables: List<Variable>,
    /// Its constants, by their numbers.
    pub constants: List<Constant>,
    /// What it does.
    pub body: List<Statement>,
}

/// What a procedure is, and when it is used.
#[derive(Clone, Copy, Debug, PartialEq, Eq)]
pub enum ProcedureKind {
    /// `Sub`, which gives no value.
    Sub,
    /// `Function`, which gives one.
    Function,
    /// `Property Get`: where the property is read.
    Get,
    /// `Property Let`: where a value is assigned to it.
    Let,
    /// `Property Set`: where an object is assigned to it.
    Set,
}

/// A class.
#[derive(Debug, Drop)]
pub struct Class {
    /// The line of the first word, counted from 1.
    pub line: u32,
    /// The fields of its objects, by their numbers.
    pub fields: List<Field>,
    /// Its methods and properties, in the order in which they stand.
    pub procedures: List<Procedure>,
    /// The number of the Sub `Class_Initialize` among them.
    pub initialize: Option<u32>,
    /// The number of the Sub `Class_Terminate` among them.
    pub terminate: Option<u32>,
}

/// A field of a class.
#[derive(Debug, Drop)]
pub struct Field {
    /// The number of its name among all names.
    pub name: u32,
    /// `Private`: it is not seen through an object.
    pub is_private: bool,
    /// Its declaration.
    pub variable: Variable,
}
