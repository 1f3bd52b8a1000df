//! What runs the jobs of a site, by what their runs mean.
#![tactic(auto)]

mod acting;
mod course;
mod crossing;
mod ended;
mod failure;
mod file;
mod page;
mod plain;
mod run;
mod text;
mod work;

pub use crossing::run_crosses;
pub use ended::{Came, Ended};
pub use plain::{NoStore, PlainRunner};
pub use run::{At, PlainRun};
