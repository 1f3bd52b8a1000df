//! Trees of scripts as the words that spell them.
#![tactic(auto)]

mod declarations;
mod expressions;
mod parts;
mod simple;
mod statements;
mod units;
mod words;

pub use units::print;
