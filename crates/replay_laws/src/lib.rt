//! Laws of replays: a recording has one history of one lane, and one output, which tells the journal.
#![tactic(auto)]

mod laws;

pub use laws::{one_history, one_journal, one_output, one_replay};
