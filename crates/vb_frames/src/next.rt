//! What comes next.

use crate::frame::Frame;
use crate::place::Place;

/// What comes next at a node. `levels` says how many more levels may be begun.
#[derive(Clone, Copy)]
pub enum Next {
    /// The value of an expression.
    Value { levels: u32 },
    /// The statements of a block.
    Run { levels: u32 },
    /// A statement.
    Statement { levels: u32 },
    /// A condition.
    Condition { levels: u32 },
    /// The turns of a loop, at most so many.
    Turns { levels: u32, more: u64 },
    /// A tick, and what a statement does.
    TickDoes { levels: u32 },
    /// A tick, and the statements of a loop's body.
    TickBody { levels: u32 },
    /// Nothing: what was got has come of it.
    Done,
}

/// Where a step at a node leads.
#[derive(Clone, Copy)]
pub enum Go {
    /// This comes next at the same node.
    Same(Next),
    /// A frame at the same node, and this next at a part of it.
    Under(Frame, Next, Place),
}
