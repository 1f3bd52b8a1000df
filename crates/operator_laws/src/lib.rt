//! Laws of the operators, in the subject's own words.
#![tactic(auto)]

mod laws;

pub use laws::{
    comparison_is_an_order, division_leaves_a_rest, implication_is_its_table, logic_commutes,
    results_are_sound, sums_and_products_commute,
};
