//! What scripts do to variables, places and arrays: functions that an evaluator of scripts and one that can stop between two
//! steps share.
#![tactic(auto)]

pub mod accesses;
pub mod arrays;
pub mod copying;
pub mod counting;
pub mod declaring;
pub mod dictionaries;
pub mod entering;
pub mod fields;
pub mod paths;
pub mod places;
pub mod resizing;
pub mod values;
pub mod written;
