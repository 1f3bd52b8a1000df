//! The readers of scripts: each takes from the front of some words what the rule of its name spells.
#![tactic(auto)]

mod begin;
mod branch;
mod call;
mod class;
mod condition;
mod cursor;
mod declaration;
mod ends;
mod expression;
mod line;
mod looser;
mod place;
mod procedure;
mod repeat;
mod simple;
mod statement;
mod unit;
mod word;

pub use cursor::{Cursor, ReadStop};
pub use looser::Looser;
pub use unit::read_unit;
