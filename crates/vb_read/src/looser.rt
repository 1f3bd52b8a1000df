//! What the readers may let pass beyond the grammar, so that the kind of a fault can be told.

/// What is allowed beyond the grammar.
#[derive(Clone, Copy)]
pub struct Looser {
    /// Several expressions in the parenthesis of a call statement.
    pub several: bool,
    /// Text inside Class and in the head of Select.
    pub texts: bool,
}
