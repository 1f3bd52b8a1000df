//! Notes: what a script says of names, in the order of its places.
#![tactic(auto)]

mod body;
mod notes;

pub use body::{Body, body_of, body_of_property};
pub use notes::{call_use, note_body, note_item, note_member, note_members, steps_used};
