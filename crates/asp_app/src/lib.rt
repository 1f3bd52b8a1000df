//! The Application object: values that all runs of a site share, and its lock.
#![tactic(auto)]

mod application;
mod entries;
mod name;
mod stop;

pub use application::Application;
pub use stop::AppStop;
