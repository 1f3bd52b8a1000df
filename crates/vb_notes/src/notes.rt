//! What a script says of names, in the order of its places.

mod expressions;
mod simple;
mod statements;
mod units;
mod words;

pub use expressions::steps_used;
pub use units::{note_body, note_item, note_member, note_members};
pub use words::call_use;
