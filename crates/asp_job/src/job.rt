//! Jobs: what a run is for.

use crate::request::Request;

/// The session key for which a job asks.
#[derive(Clone, Copy, Debug, PartialEq, Eq)]
pub enum Asked {
    /// The key that the session cookie of the request names.
    Cookie,
    /// The key of this number; 0 is no key.
    Key(u32),
    /// A new key.
    Fresh,
}

/// What is to be done.
#[derive(Debug, Drop)]
pub enum Work {
    /// Answer a request.
    Page(Request),
    /// `Application_OnStart`.
    Start,
    /// `Session_OnEnd`.
    SessionEnd,
    /// `Application_OnEnd`.
    Stop,
}

/// What a run is for, and when it was asked for.
#[derive(Debug, Drop)]
pub struct Job {
    pub work: Work,
    /// Seconds since 1970.
    pub moment: u64,
    pub asked: Asked,
}
