//! The host as one call: a command is read from words, runs over a folder, and its output goes to a sink.
#![tactic(auto)]

mod answers;
mod check;
mod fail_text;
mod feeding;
mod generated;
mod get;
mod host;
mod output;
mod recording;
mod replay;
mod replay_text;
mod request;
mod serve;
mod source;
mod status;
mod summing;

pub use asp_command::{Command, WordStop, one_command, read_words};
pub use asp_serve::{LinkEnd, serve_link};
pub use host::run_host;
pub use replay::replay_with;
pub use status::{Status, status_code, status_text};
