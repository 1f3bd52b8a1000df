//! Page files: a page is read into its pieces: its directive, text, script, values that it writes, script elements and
//! includes.
#![tactic(auto)]

mod attribute;
mod expansion;
mod fault;
mod fragment;
mod included;
mod located;
mod mark;
mod opened;
mod piece;
mod tag;

pub use expansion::{expand, one_outcome};
pub use fault::{PageFault, PageStop};
pub use fragment::{
    Fragment, fragments, fragments_or_fault, fragments_unique, one_fault, pieces_spelled,
};
pub use located::{Located, SiteStop};
pub use mark::place_of;
