//! The operators of the language.
#![tactic(auto)]

mod arithmetic;
mod comparison;
mod joining;
mod logic;
mod operators;

pub use comparison::compare;
pub use operators::{apply1, apply2, truth};
