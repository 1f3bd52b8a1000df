//! The summary of a host's journal: how many requests, answers and sessions there were, and the total of its pages.
#![tactic(auto)]

mod answers;
mod making;
mod sessions;
mod summary;
mod text;
mod total;

pub use making::summary_of;
pub use summary::Summary;
pub use text::summary_text;
