//! The files of a folder as a site.
#![tactic(auto)]

mod building;
mod chosen;
mod files;
mod folder;
mod laws;
mod stop;

pub use files::site_files;
pub use folder::load;
pub use laws::{one_folder_fault, site_or_fault};
pub use stop::LoadStop;
