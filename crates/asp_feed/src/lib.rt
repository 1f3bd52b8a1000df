//! The jobs of a recording's requests, and what it means that a recording is fed to a host and that answers are written.
#![tactic(auto)]

mod clients;
mod job;

pub use clients::{Clients, reserve_one};
pub use job::job_of;
