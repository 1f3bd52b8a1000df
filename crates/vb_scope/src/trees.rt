//! Trees in which each name is what it stands for.

mod expressions;
mod heads;
mod holding;
mod members;
mod simple;
mod statements;
mod units;

pub use units::{Script, Trees, page_trees};
