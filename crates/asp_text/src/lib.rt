//! Texts as the web writes them: HTML and URL coding, blanks around a part of a field, and the paths of requests.
#![tactic(auto)]

mod blanks;
mod html;
mod laws;
mod names;
mod path;
mod segment;
mod url;

pub use blanks::trim_blanks;
pub use html::html_encode;
pub use laws::{html_reads_back, normal_paths_are_normal, normal_paths_stay, urls_read_back};
pub use names::same_path;
pub use path::{PathStop, normal_path};
pub use url::url_encode;
