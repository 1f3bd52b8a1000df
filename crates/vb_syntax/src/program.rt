//! Programs: scripts in which each name is what it stands for.
ghost use Rattle.vb_syntax.specs.declared.unit.Unit.{Unit as Script};
ghost use Rattle.vb_syntax.specs.scope.Resolving.{Resolves};

mod expression;
mod name;
mod statement;
mod unit;

pub use expression::{Expression, Head, Operation, Path, Step};
pub use name::{DictionaryMember, ErrMember, Named, Slot};
pub use statement::{Case, Condition, ElseIf, Repetition, Resized, Statement, StatementKind};
pub use unit::{Class, Constant, Field, Procedure, ProcedureKind, Unit, Variable};
use vb_value::{List, Text};

/// A program. It is what some script resolves to.
#[derive(Debug, Drop)]
pub struct Program {
    /// The script, in which each name is what it stands for.
    pub unit: Unit,
    /// The names of the page's variables, as they stand where they first do.
    pub vars: List<Text>,
    /// The names of the procedures, in the order of their declaration.
    pub procs: List<Text>,
    /// The names of the classes, in the order of their declaration.
    pub classes: List<Text>,
    /// `Option Explicit`: each variable has to be declared.
    pub explicit: bool,
    pub ghost resolved: { ∥ ((script : Script) × Resolves script
        (record { unit = unit; vars = vars; procs = procs; classes = classes; explicit = explicit })) ∥₁ },
}
