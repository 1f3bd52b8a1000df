//! What names stand for (VBScript 5.6 language reference, "Variables", "Functions" and "Constants").

use crate::expression::Literal;
use vb_value::{Copied, Memory, PlainFn, StrFn};

/// A place that holds a value. Numbers are counted from 0.
#[derive(Clone, Copy, Debug, PartialEq, Eq)]
pub enum Slot {
    /// A variable of the page, by its number among them.
    Page(u32),
    /// A parameter or a variable of the procedure, by its number among them, the parameters first.
    Local(u32),
    /// A field of the class around, by its number among the fields.
    Field(u32),
    /// The value that the procedure around is to give.
    Result,
}

/// What a name stands for. Numbers are counted from 0.
#[derive(Debug, Drop, PartialEq, Eq)]
pub enum Named {
    /// A place that holds a value.
    Place(Slot),
    /// A method or a property of the class around, by the number of the first of its name among the class's procedures.
    Own(u32),
    /// A constant of the page, by its number among them.
    PageConstant(u32),
    /// A constant of the procedure, by its number among them.
    LocalConstant(u32),
    /// A constant of the language, by its value.
    Value(Literal),
    /// A procedure of the page, by its number among them.
    Procedure(u32),
    /// A class of the page, by its number among them.
    Class(u32),
    /// A function of the language on texts.
    StringFunction(StrFn),
    /// Another function of the language.
    PlainFunction(PlainFn),
    /// `TypeName`
    TypeName,
    /// `CreateObject`
    CreateObject,
    /// `Err`
    Err,
    /// A name that stands for nothing until it runs.
    Unknown,
}

impl Copied for Named {
    fn copy(&self) -> Result<Named, Memory> {
        Ok(match self {
            Named::Place(slot) => Named::Place(*slot),
            Named::Own(number) => Named::Own(*number),
            Named::PageConstant(number) => Named::PageConstant(*number),
            Named::LocalConstant(number) => Named::LocalConstant(*number),
            Named::Value(literal) => Named::Value(literal.copy()?),
            Named::Procedure(number) => Named::Procedure(*number),
            Named::Class(number) => Named::Class(*number),
            Named::StringFunction(function) => Named::StringFunction(*function),
            Named::PlainFunction(function) => Named::PlainFunction(*function),
            Named::TypeName => Named::TypeName,
            Named::CreateObject => Named::CreateObject,
            Named::Err => Named::Err,
            Named::Unknown => Named::Unknown,
        })
    }
}

/// A member of a Dictionary (Microsoft Scripting Runtime, "Dictionary Object").
#[derive(Clone, Copy, Debug, PartialEq, Eq)]
pub enum DictionaryMember {
    /// `Add`
    Add,
    /// `Item`
    Item,
    /// `Exists`
    Exists,
    /// `Remove`
    Remove,
    /// `RemoveAll`
    RemoveAll,
    /// `Keys`
    Keys,
    /// `Items`
    Items,
    /// `Count`
    Count,
    /// `CompareMode`
    CompareMode,
}

/// A member of `Err`.
#[derive(Clone, Copy, Debug, PartialEq, Eq)]
pub enum ErrMember {
    /// `Err` alone, and `Err.Number`
    Number,
    /// `Err.Description`
    Description,
    /// `Err.Source`
    Source,
    /// `Err.Clear`
    Clear,
    /// `Err.Raise`
    Raise,
    /// Another name, which is error 438 when it runs.
    Absent,
}
