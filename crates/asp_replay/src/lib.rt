//! A recording is fed to a site by one lane, or by several in threads of their own, and the answers are written as they
//! come.
#![tactic(auto)]

mod beginning;
mod bringing;
mod coming;
mod dealing;
mod feeding;
mod handing;
mod lanes;
mod laws;
mod leading;
mod leaving;
mod met;
mod near;
mod round;
mod slicing;
mod stop;
mod turns;
mod winding_up;
mod working;
mod writing;

pub use feeding::feed;
pub use lanes::feed_with;
pub use laws::journals_have_lines;
pub use stop::FeedStop;
pub use writing::{write_done, write_lines};
