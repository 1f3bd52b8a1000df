//! Constants that stand for no value.

use vb_value::VbError;

/// What is wrong with a constant.
#[derive(Clone, Copy, Debug, PartialEq, Eq)]
pub struct ConstantFault {
    /// How many variables of its scope stand before it.
    pub before: u32,
    /// The line of its declaration.
    pub line: u32,
    /// Why it stands for no value.
    pub error: VbError,
}
