//! What pages see of a request: the collections of the Request object of ASP 3.0.
#![tactic(auto)]

mod collection;
mod cookies;
mod field;
mod inputs;
mod keys;
mod place;
mod query;
mod server;
mod text;

pub use inputs::{InSet, Inputs};
pub use keys::keyed;
