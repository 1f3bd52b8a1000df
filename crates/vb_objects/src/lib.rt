//! Objects in a script, errors and Err, and questions to the page's objects: functions that an evaluator of scripts and one
//! that can stop between two steps share.
#![tactic(auto)]

pub mod around;
pub mod asking;
pub mod assigned;
pub mod classes;
pub mod ending;
pub mod err_object;
pub mod errors;
pub mod functions;
pub mod playing;
pub mod world;
