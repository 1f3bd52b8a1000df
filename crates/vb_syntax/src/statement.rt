//! Statements (VBScript 5.6 language reference, "Statements", with the text and the writes of an ASP page).

use crate::declaration::{Access, Constant, Declared};
use crate::expression::{Expression, Path};
use vb_value::{List, Text};

/// A statement, and the line of its first word, counted from 1.
#[cycle(statement)]
#[derive(Debug, Drop)]
pub struct Statement {
    /// The line that an error in it is reported with.
    pub line: u32,
    /// What it says.
    pub kind: StatementKind,
}

/// What a statement says.
#[cycle(statement)]
#[derive(Debug, Drop)]
pub enum StatementKind {
    /// `Const name = value, ..`
    Const {
        /// A word before it, which says nothing inside a procedure.
        access: Option<Access>,
        /// The constants, at least one.
        constants: List<Constant>,
    },
    /// `Dim name, ..`
    Dim {
        /// The variables, at least one.
        variables: List<Declared>,
    },
    /// `ReDim name(bounds), ..`
    ReDim {
        /// `Preserve`: what the arrays hold stays.
        preserve: bool,
        /// The arrays, at least one.
        arrays: List<Resized>,
    },
    /// `Set target = value`
    Set {
        /// The place that is to refer to the object.
        target: Path,
        /// The object.
        value: Expression,
    },
    /// `target = value`
    Assign {
        /// The place that is written.
        target: Path,
        /// What is written.
        value: Expression,
    },
    /// `callee arguments`. One argument in parentheses is passed as a value.
    Call {
        /// What is called. A parenthesis at its end stood before another one.
        callee: Path,
        /// The arguments, without parentheses around them.
        arguments: List<Expression>,
    },
    /// `Call callee`
    CallPath {
        /// What is called, with its arguments in the last parenthesis.
        callee: Path,
    },
    /// `If condition Then`, a block, and `End If`.
    If {
        /// The condition.
        condition: Expression,
        /// What is done where it holds.
        then: List<Statement>,
        /// The `ElseIf` parts, in their order.
        others: List<ElseIf>,
        /// The `Else` part.
        otherwise: Option<List<Statement>>,
    },
    /// `If condition Then then Else otherwise` on one line.
    LineIf {
        /// The condition.
        condition: Expression,
        /// What is done where it holds, at least one statement.
        then: List<Statement>,
        /// What is done else, at least one statement.
        otherwise: Option<List<Statement>>,
    },
    /// `Select Case subject` .. `End Select`
    Select {
        /// What is compared.
        subject: Expression,
        /// The `Case` parts, in their order.
        cases: List<Case>,
        /// The `Case Else` part.
        otherwise: Option<List<Statement>>,
    },
    /// `For variable = from To to Step step` .. `Next`
    For {
        /// The name of the variable that counts.
        variable: Text,
        /// Its first value.
        from: Expression,
        /// Its last value.
        to: Expression,
        /// By how much it grows. Without it by 1.
        step: Option<Expression>,
        /// What is done each time.
        body: List<Statement>,
    },
    /// `For Each variable In group` .. `Next`
    ForEach {
        /// The name of the variable that goes over the items.
        variable: Text,
        /// What has the items.
        group: Expression,
        /// What is done each time.
        body: List<Statement>,
    },
    /// `Do` .. `Loop`
    Do {
        /// The condition, and where it stands.
        repetition: Repetition,
        /// What is done each time.
        body: List<Statement>,
    },
    /// `While condition` .. `Wend`
    While {
        /// What has to hold before each time.
        condition: Expression,
        /// What is done each time.
        body: List<Statement>,
    },
    /// `With subject` .. `End With`
    With {
        /// The object whose members begin with a `.`.
        subject: Expression,
        /// What is done with it.
        body: List<Statement>,
    },
    /// `Exit kind`
    Exit {
        /// What is left.
        kind: ExitKind,
    },
    /// `On Error Resume Next`
    OnErrorResumeNext,
    /// `On Error GoTo 0`
    OnErrorGoToZero,
    /// `Erase name, ..`
    Erase {
        /// The names of the arrays, at least one.
        names: List<Text>,
    },
    /// Text of the page.
    PageText {
        /// The text, as it is to be written.
        text: Text,
    },
    /// `<%= value %>`
    PageWrite {
        /// What is written.
        value: Expression,
    },
}

/// An array that gets new bounds.
#[derive(Debug, Drop)]
pub struct Resized {
    /// Its name, as written.
    pub name: Text,
    /// The last index of each dimension, at least one.
    pub bounds: List<Expression>,
}

/// `ElseIf condition Then` and a block.
#[cycle(statement)]
#[derive(Debug, Drop)]
pub struct ElseIf {
    /// The line that an error in the condition is reported with.
    pub line: u32,
    /// The condition.
    pub condition: Expression,
    /// What is done where it is the first that holds.
    pub then: List<Statement>,
}

/// `Case values` and a block.
#[cycle(statement)]
#[derive(Debug, Drop)]
pub struct Case {
    /// The line that an error in the values is reported with.
    pub line: u32,
    /// What the subject is compared with, at least one.
    pub values: List<Expression>,
    /// What is done where one of them is the first that is equal.
    pub body: List<Statement>,
}

/// Which condition a `Do` has, and where it stands.
#[derive(Debug, Drop)]
pub enum Repetition {
    /// None: it goes on until it is left.
    Endless,
    /// Behind `Do`: it is asked before each time.
    Before(Condition),
    /// Behind `Loop`: it is asked after each time.
    After {
        /// The line that an error in the condition is reported with.
        line: u32,
        /// The condition.
        condition: Condition,
    },
}

/// The condition of a `Do`.
#[derive(Debug, Drop)]
pub struct Condition {
    /// `Until`: the loop ends where it holds. Else it ends where it does not.
    pub is_until: bool,
    /// What is asked.
    pub test: Expression,
}

/// What an `Exit` leaves.
#[derive(Clone, Copy, Debug, PartialEq, Eq)]
pub enum ExitKind {
    /// `Exit Do`
    Do,
    /// `Exit For`
    For,
    /// `Exit Sub`
    Sub,
    /// `Exit Function`
    Function,
    /// `Exit Property`
    Property,
}
