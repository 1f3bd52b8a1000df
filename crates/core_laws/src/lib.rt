//! Laws of valid journals, and of a core whose memory has run out.
#![tactic(auto)]

mod laws;

pub use laws::{
    answers_in_order, begun_is_ended, calls_follow, end_fits, handed_out_once, lock_holds,
    sessions_apart, strict_is_plain,
};
