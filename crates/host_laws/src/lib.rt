//! Laws of the host's commands: what is refused has a cause, what is written is a function of what is read, and what a
//! replay writes tells its journal.
#![tactic(auto)]

mod laws;

pub use laws::{
    heads_stay_whole, nothing_refused_without_cause, objects_end, one_get_output,
    one_replay_journal, one_replay_output, one_request_outcome, one_site,
};
