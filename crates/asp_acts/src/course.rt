//! What the acts of a run come to.

use asp_job::Fail;
use asp_objects::PageObjects;
use vb_value::{AppCall, Text};

/// What the acts of a run came to, beside their objects.
#[derive(Debug, Drop)]
pub struct Tally {
    /// Why the first failing act failed, if one did.
    pub fail: Option<Fail>,
    /// What the answer says of it.
    pub failure: Option<Text>,
    /// Whether the last act came to its end.
    pub goes_on: bool,
    /// How many objects the acts made.
    pub made: u32,
    /// How many objects the acts ended.
    pub finished: u32,
}

/// What the acts of a run have come to so far.
#[derive(Debug, Drop)]
pub struct Course {
    /// The objects: with the session, and with what was said of the answer.
    pub objects: PageObjects,
    pub tally: Tally,
}

/// How far the acts of a run came.
#[derive(Debug, Drop)]
pub enum Way {
    /// The reply to this call is needed.
    Wants(AppCall),
    /// They came so far, and nothing is needed.
    On(Course),
}
