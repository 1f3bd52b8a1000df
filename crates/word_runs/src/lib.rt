//! Runs of words: a runner for programs of cases, whose runs do what the path of their page says, and the reading of the
//! words of cases.
#![tactic(auto)]

mod reading;
mod run;
mod runner;
mod words;

pub use reading::{bytes, next, next_moment, next_number, number, text};
pub use run::{At, Page, WordRun};
pub use runner::{AllWords, NoStore, WordRunner};
