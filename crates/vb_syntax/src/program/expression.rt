//! Expressions of a program (VBScript 5.6 language reference, "Operators").

use crate::expression::Literal;
use crate::member::{Member, Takes};
use crate::program::name::{ErrMember, Named};
use vb_value::{Boxed, List, Op2};

/// An expression. It nests as deep as that of the script.
#[cycle(program_expression)]
#[derive(Debug, Drop)]
pub enum Expression {
    /// A value that is written down.
    Literal(Literal),
    /// `Nothing`
    Nothing,
    /// `New class`
    New {
        /// The number of the class. `None` is a class that the page does not have, which is error 506 when it runs.
        class: Option<u32>,
    },
    /// A variable, a call, or a member of an object.
    Path(Path),
    /// An expression in parentheses of its own.
    Parenthesis(Boxed<Expression>),
    /// `- operand`
    Negative(Boxed<Expression>),
    /// `Not operand`
    Not(Boxed<Expression>),
    /// Operators of one level, which go from left to right: `first - a + b` has two operations.
    Chain {
        /// The operand on the left of all.
        first: Boxed<Expression>,
        /// The operators with what stands on their right, at least one.
        rest: List<Operation>,
    },
}

/// An operator and the operand on its right.
#[cycle(program_expression)]
#[derive(Debug, Drop)]
pub struct Operation {
    /// The operator.
    pub operator: Op2,
    /// What stands on its right, of a tighter level.
    pub operand: Expression,
}

/// What a name or an object stands for, and what is asked of it.
#[cycle(program_expression)]
#[derive(Debug, Drop)]
pub struct Path {
    /// Where it begins.
    pub head: Head,
    /// What stands behind, from left to right. Where the head is a member, the names that say which one are not here;
    /// the parentheses that give its arguments are.
    pub steps: List<Step>,
}

/// Where a path begins.
#[derive(Debug, Drop, PartialEq, Eq)]
pub enum Head {
    /// A name.
    Named(Named),
    /// `Me`
    Me,
    /// `.name`, a member of the object of the With around it, by the number of its name among all names.
    With(u32),
    /// `Err` or a member of it.
    Err(ErrMember),
    /// A member of an object that the page is given.
    Member {
        /// The member.
        member: Member,
        /// How many of the first parentheses behind it hold its arguments.
        groups: u32,
        /// What it takes.
        takes: Takes,
    },
}

/// What stands behind the head of a path.
#[cycle(program_expression)]
#[derive(Debug, Drop)]
pub enum Step {
    /// `.name`, by the number of the name among all names.
    Member(u32),
    /// `(arguments)`: indices, or the arguments of a call. There may be none.
    Group(List<Expression>),
}
