//! Scope: which program a script is.
#![tactic(auto)]

mod laws;
mod listing;
mod noting;
mod resolving;
mod trees;
mod unit_checks;

pub use laws::{one_program, program_faultless, program_or_first_fault};
pub use resolving::resolve;
