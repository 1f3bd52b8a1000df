//! What is done with what comes of a part.

use vb_value::{Op1, Op2};

/// A part of an expression is underway, whose value is to be held. `levels` says how many more levels may be begun.
#[derive(Clone, Copy)]
pub enum ExpressionFrame {
    /// What gives the value.
    Hold,
    /// The operand of a prefix.
    Prefix(Op1),
    /// The first operand of a chain.
    ChainFirst {
        levels: u32,
    },
    /// A further operand of a chain, whose value on the left is kept; `at` is the number of the next operation.
    ChainNext {
        operator: Op2,
        levels: u32,
        at: usize,
    },
}

/// A part of a statement is underway. `levels` says how many more levels may be begun.
#[derive(Clone, Copy)]
pub enum StatementFrame {
    /// The statement in this line, before which so much was held.
    Whole { mark: u32, line: u32, levels: u32 },
    /// A condition, before which so much was held.
    Test { mark: u32, levels: u32 },
    /// The value that is assigned.
    Assigns { levels: u32 },
    /// A statement of a block; `at` is the number of the next.
    Block { levels: u32, at: usize },
    /// The condition of a loop, of which so many turns may follow.
    LoopTest { levels: u32, more: u64 },
    /// The body of a loop, of which so many turns may follow.
    Turn { levels: u32, more: u64 },
}

/// A part is underway, and this is done with what comes of it.
#[derive(Clone, Copy)]
pub enum Frame {
    /// Of an expression.
    Expression(ExpressionFrame),
    /// Of a statement.
    Statement(StatementFrame),
}
