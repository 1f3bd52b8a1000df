//! Laws of the functions on numbers, kinds of values and arrays, in the subject's own words.
#![tactic(auto)]

mod laws;

pub use laws::{
    fix_is_by_size, int_is_the_floor, integers_read_back, longs_read_back, results_are_sound,
    texts_of_integers_read_back, texts_of_longs_read_back,
};
