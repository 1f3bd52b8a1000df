//! Laws of the functions on texts, in the subject's own words.
#![tactic(auto)]

mod laws;

pub use laws::{
    characters_come_back, compares_letters, compares_turned, ends_measured, parts_together,
    replaces_by_joining, results_are_sound, reverses, searches_agree, searches_letters, splits,
    splits_at_most, trims,
};
