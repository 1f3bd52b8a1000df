//! How far an act has come with the replies that it was given.

use vb_syntax::ActDone;
use vb_value::AppCall;

/// How far an act has come.
#[derive(Debug, Drop)]
pub enum PlainEnd {
    /// This call of the Application object is wanted, and there was no reply to it.
    Wants(AppCall),
    /// The act has ended.
    Ends(ActDone),
}
