//! Laws of the data of a page, in the subject's own words.
#![tactic(auto)]

mod dictionaries;
mod laws;

pub use dictionaries::{
    added_is_found, counts_agree, keys_are_alike, keys_stay_in_order, removed_is_absent,
};
pub use laws::{
    cells_are_new, ended_references_go, item_references_move, loose_objects_end, numbers_are_new,
    oldest_ends_first, others_stay, references_add_up, references_move, references_of_values,
    stored_is_read,
};
