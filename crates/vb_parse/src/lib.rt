//! Reading the words of a script: the one tree that they spell, or the first word with which none goes on.
#![tactic(auto)]

mod fault;
pub mod laws;
mod whole_unit;

pub use fault::{ParseFault, ParseStop};
pub use whole_unit::parse;
