//! Expressions (VBScript 5.6 language reference, "Operators").

use vb_value::{Boxed, List, Op2, Text};

/// A value that is written down.
#[derive(Debug, Drop, PartialEq, Eq)]
pub enum Literal {
    /// `Empty`
    Empty,
    /// `Null`
    Null,
    /// `True` or `False`
    Boolean(bool),
    /// A number of the type Integer.
    Integer(i16),
    /// A number of the type Long.
    Long(i32),
    /// A text between quotes.
    Text(Text),
}

/// An expression. What nests in it opens something that the grammar counts, so it is at most 200 deep but
/// for the levels of operators.
#[cycle(expression)]
#[derive(Debug, Drop)]
pub enum Expression {
    /// A value that is written down.
    Literal(Literal),
    /// `Nothing`
    Nothing,
    /// `New class`
    New {
        /// The name of the class, as written.
        class: Text,
    },
    /// A variable, a call, or a member of an object.
    Path(Path),
    /// An expression in parentheses of its own.
    Parenthesis(Boxed<Expression>),
    /// `- operand`
    Negative(Boxed<Expression>),
    /// `Not operand`
    Not(Boxed<Expression>),
    /// Operators of one level, which go from left to right: `first - a + b` has two operations.
    Chain {
        /// The operand on the left of all.
        first: Boxed<Expression>,
        /// The operators with what stands on their right, at least one.
        rest: List<Operation>,
    },
}

/// An operator and the operand on its right.
#[cycle(expression)]
#[derive(Debug, Drop)]
pub struct Operation {
    /// The operator.
    pub operator: Op2,
    /// What stands on its right, of a tighter level.
    pub operand: Expression,
}

/// A name or an object, and what is asked of it.
#[cycle(expression)]
#[derive(Debug, Drop)]
pub struct Path {
    /// Where it begins.
    pub head: PathHead,
    /// What stands behind, from left to right.
    pub steps: List<Step>,
}

/// Where a path begins.
#[derive(Debug, Drop, PartialEq, Eq)]
pub enum PathHead {
    /// A name, as written.
    Name(Text),
    /// `Me`
    Me,
    /// `.name`, a member of the object of the With around it.
    With(Text),
}

/// What stands behind the head of a path.
#[cycle(expression)]
#[derive(Debug, Drop)]
pub enum Step {
    /// `.name`
    Member(Text),
    /// `(arguments)`: indices, or the arguments of a call. There may be none.
    Group(List<Expression>),
}
