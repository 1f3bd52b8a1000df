//! The journal of a host's runs, with tables of what it tells: look-ups that go through no entries.
#![tactic(auto)]

mod adding;
mod full;
mod journal;
mod listing;
mod next;
mod rows;
mod tally;
mod told;
mod weighing;

pub use full::Full;
pub use journal::Journal;
pub use weighing::{call_weight, reply_weight, what_weight, work_weight};
