//! What a script says of names, in the order of its places.

use crate::declaration::{Constant, Declared};
use crate::statement::ExitKind;
use crate::unit::PropertyKind;
use std::fmt;
use vb_value::{List, Stop, Text};

/// Why a script is no program.
#[derive(Clone, Copy, Debug, PartialEq, Eq)]
pub enum ScopeFault {
    /// The name is declared before in the same scope.
    Redefined,
    /// An `Exit` does not stand inside what it names.
    BadExit,
    /// A constant is assigned to.
    ConstTarget,
    /// `Me` outside a class, a leading `.` outside With, or an object of the page without a member that it has.
    BadMember,
    /// More than 60 dimensions, 255 parameters or arguments, or 65,535 names.
    TooMany,
}

impl fmt::Display for ScopeFault {
    fn fmt<W: fmt::Write>(&self, f: &mut fmt::Formatter<W>) -> fmt::Result {
        write!(f, "{self:?}")
    }
}

/// Why a script was not resolved: its first fault of scope, in the line of the statement or declaration, or because
/// memory ran out.
pub type ScopeStop = Stop<ScopeFault>;

/// What one place of a script says of names, and the line of the statement or declaration that it stands in.
#[derive(Debug, Drop)]
pub struct Note {
    /// The line, counted from 1.
    pub line: u32,
    /// What is said.
    pub kind: NoteKind,
}

/// What one place says of names.
#[derive(Debug, Drop)]
pub enum NoteKind {
    /// A fault that no declaration mends or makes.
    Fault(ScopeFault),
    /// A variable, a parameter or a field is declared.
    Variable(Declared),
    /// A constant is declared.
    Constant(Constant),
    /// A procedure of the page is declared.
    Procedure(Text),
    /// A class is declared.
    Class(Text),
    /// A method or a property of a class is declared.
    Member {
        /// Its name, as written.
        name: Text,
        /// Which accessor of a property it is. Those of one name stand together.
        accessor: Option<PropertyKind>,
    },
    /// The result of a procedure is declared, under the procedure's name.
    Result(Text),
    /// A name stands at the head of a path.
    Use {
        /// The name, as written.
        name: Text,
        /// What stands behind it.
        steps: List<Shape>,
        /// The path is all that a For Each goes over.
        is_group: bool,
    },
    /// A name alone is assigned to, counts in a For, goes over a For Each, or is erased.
    Write(Text),
    /// A name is given bounds by ReDim.
    Resize(Text),
    /// A name that is looked for nowhere: of a member of an object, or of a class behind `New`.
    Part(Text),
}

/// What stands behind the head of a path, without the expressions in it.
#[derive(Debug, Drop)]
pub enum Shape {
    /// `.name`
    Member(Text),
    /// `(arguments)`
    Group,
}

/// What stands around a statement in its procedure or on the page.
#[derive(Clone, Copy, Debug, PartialEq, Eq)]
pub struct Around {
    /// It stands in a class.
    pub in_class: bool,
    /// Which Exit leaves the procedure. `None` is the page.
    pub procedure: Option<ExitKind>,
    /// It stands in a `Do`.
    pub in_do: bool,
    /// It stands in a `For`.
    pub in_for: bool,
    /// It stands in a With.
    pub in_with: bool,
}

/// What declares names.
#[derive(Clone, Copy, Debug, PartialEq, Eq)]
pub enum Level {
    /// The page.
    Page,
    /// A class.
    Class,
    /// The body of a procedure.
    Body,
}

/// How a path is used.
#[derive(Clone, Copy, Debug, PartialEq, Eq)]
pub enum PathUse {
    /// Its value is wanted.
    Value,
    /// It is assigned to.
    Target,
    /// A statement calls it as it stands.
    Callee,
    /// A statement calls it with the arguments that stand behind it.
    CalleeWithArguments,
    /// A For Each goes over it.
    Group,
}

/// An object that a page is given (ASP 3.0 object reference).
#[derive(Clone, Copy, Debug, PartialEq, Eq)]
pub enum PageObject {
    /// `Request`
    Request,
    /// `Response`
    Response,
    /// `Server`
    Server,
    /// `Session`
    Session,
    /// `Application`
    Application,
}
