//! Laws of values and their conversions, in the subject's own words.
#![tactic(auto)]

mod laws;

pub use laws::{
    currency_reads_back, numeric_texts_follow_the_grammar, rounding_is_nearest, texts_are_sound,
};
