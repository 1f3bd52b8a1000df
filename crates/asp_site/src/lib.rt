//! Sites: pages with their programs, and static files, by their paths.
#![tactic(auto)]

mod crossing;
mod ending;
mod found;
mod lines;
mod site;
mod stretch;

pub use crossing::site_crosses;
pub use ending::{has_ending, is_global, is_page, is_static, media_type};
pub use found::{Found, find};
pub use lines::Lines;
pub use site::{LineSpot, Page, Site};
