//! Scripting.Dictionary: its calls, over the data of a page.
#![tactic(auto)]

mod entries;
mod lists;
mod places;
mod whole;

pub use entries::{add, exists, get, put, remove};
pub use lists::{items, keys};
pub use whole::{count, mode, new_dict, remove_all, set_mode};
