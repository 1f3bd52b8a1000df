//! What every run of a site means: definitions, the types that they speak of, and what holds of every run.
#![tactic(auto)]

mod course;
mod laws;

pub use course::{Course, Tally, Way};
pub use laws::{acts_come, objects_end_in_runs, runs_answer_sound};
