//! Which part of a node another node is.

/// Which part of a node another node is.
#[derive(Clone, Copy)]
pub enum Place {
    /// The node itself.
    Here,
    /// The statements of the page, of a procedure or of a loop.
    Body,
    /// The procedure of the page with this number.
    Procedure(u32),
    /// The statement with this number in a block.
    Statement(usize),
    /// The value, or the condition, of a statement.
    Value,
    /// The operand of a prefix, the first of a chain, or what stands in parentheses.
    Operand,
    /// The operand of the operation with this number in a chain.
    Right(usize),
    /// The arguments in the step with this number of a path.
    Group(usize),
    /// The expression with this number in a list.
    Item(usize),
}
