//! What is served on connections: the bytes of each are read as requests, each comes to a host as a job, and the bytes of
//! its answer are written.
#![tactic(auto)]

mod admitting;
mod answering;
mod ending;
mod hosting;
mod reading;
mod serving;
mod starting;
mod visits;
mod whole;
mod working;
mod writing;

pub use ending::LinkEnd;
pub use hosting::{ServeStop, Terms, serve};
pub use serving::{MOST_REQUESTS, serve_link};
pub use visits::{Early, Visits};
