//! What a look at the core tells.
use asp_job::{EndKind, Fail};

/// What the journal says at one moment.
#[derive(Clone, Copy, Debug, PartialEq, Eq)]
pub struct Looked {
    /// How many runs wait, those of pages and those that the host queued.
    pub waiting: u32,
    /// How many runs of pages wait. From 1,024 on no job is admitted.
    pub waiting_pages: u32,
    /// How many runs are unfinished.
    pub unfinished: u32,
    /// The moment of the last Tick, 0 before the first: seconds since 1970.
    pub moment: u64,
    /// How many jobs came, those that were refused under a number too.
    pub admitted: u32,
    /// How many entries there are, without those of hand-outs and of a Halt.
    pub entries: u64,
    /// Whether a Stop stands.
    pub stopping: bool,
    /// Whether a Halt stands.
    pub halted: bool,
    /// How the first run ended, once it has.
    pub start_kind: Option<EndKind>,
    /// Why the first run failed, once it has ended by itself.
    pub start_fail: Option<Fail>,
}
