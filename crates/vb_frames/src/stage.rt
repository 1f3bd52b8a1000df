//! How far an act is.

use vb_syntax::ActEnd;

/// How far an act is, below its lowest frame.
#[derive(Drop)]
pub enum Stage {
    /// Its part of the program runs.
    Part,
    /// The part has ended so, the values of the page's variables have gone, and its last objects end.
    Last(ActEnd),
}
