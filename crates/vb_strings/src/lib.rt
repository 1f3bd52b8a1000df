//! The functions of the language on texts.
#![tactic(auto)]

mod borders;
mod characters;
mod comparing;
mod functions;
mod joining;
mod letters;
mod parts;
mod places;
mod repeating;
mod replacing;
mod results;
mod searching;
mod splitting;
mod texts;

pub use functions::call_string;
pub use searching::{place_from, place_in};
