//! The syntax of the language as trees, with the grammar that says which words spell which tree.
#![tactic(auto)]

mod act;
mod copies;
mod crossing;
mod declaration;
mod expression;
mod member;
mod member_table;
mod member_word;
mod note;
pub mod program;
mod statement;
mod unit;

pub use act::{Act, ActDone, ActEnd, AskStop, Given, Intrinsics};
pub use copies::copy_bounds;
pub use crossing::program_crosses;
pub use declaration::{Access, Constant, ConstantValue, Declared, Parameter};
pub use expression::{Expression, Literal, Operation, Path, PathHead, Step};
pub use member::{CollectionPart, ContentsPart, Member, Takes};
pub use member_table::{MEMBERS, MemberRow, MemberStep, Stands};
pub use member_word::MemberWord;
pub use note::{Around, Level, Note, NoteKind, PageObject, PathUse, ScopeFault, ScopeStop, Shape};
pub use program::Program;
pub use statement::{
    Case, Condition, ElseIf, ExitKind, Repetition, Resized, Statement, StatementKind,
};
pub use unit::{
    Class, ClassMember, FieldAccess, Item, Procedure, ProcedureKind, Property, PropertyKind, Unit,
};
