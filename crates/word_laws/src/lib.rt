//! Laws of the words of a script, in the subject's own words.
#![tactic(auto)]

mod laws;

pub use laws::{longest_words, some_answer, tokens_in_order};
