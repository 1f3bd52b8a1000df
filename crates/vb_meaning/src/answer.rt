//! What comes of one question to the page's objects.

use vb_value::{AppCall, Value};

/// What comes of one question to the page's objects, where it doesn't stop the act.
#[derive(Debug, Drop)]
pub enum Answer {
    /// A value.
    Value(Value),
    /// A call of the Application object: the question goes on with its reply.
    Call(AppCall),
}
