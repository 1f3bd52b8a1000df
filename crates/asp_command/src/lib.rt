//! The words of a command line, and the command that they say.
#![tactic(auto)]

mod laws;
mod number;
mod options;
mod target;
mod words;

pub use laws::{one_command, replay_within, serve_within};
pub use words::{Command, WordStop, read_words};
