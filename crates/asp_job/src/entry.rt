//! The journal of a host: what happened, entry by entry.

use crate::job::{Job, Work};
use vb_value::{AppCall, AppReply};

/// At most so many runs are unfinished at a time.
pub const MOST_UNFINISHED: u32 = 32;

/// At most so many runs of pages wait at a time.
pub const MOST_WAITING: u32 = 1024;

/// At most so many session keys are live at a time.
pub const MOST_LIVE: u32 = 4096;

/// At most so many entries stand in a journal, with one end for each unfinished run.
pub const MOST_ENTRIES: u64 = 1_000_000;

/// At most so much a journal weighs, with one end for each unfinished run.
pub const MOST_WEIGHT: u64 = 268_435_456;

/// At most so many ticks a run spends in a slice.
pub const QUANTUM: u32 = 10_000;

/// How a run ended.
#[derive(Clone, Copy, Debug, PartialEq, Eq)]
pub enum EndKind {
    /// By itself.
    Done,
    /// Memory ran out.
    Memory,
    /// The journal had no room for the next call of the run.
    JournalFull,
}

/// Where a run stands.
#[derive(Clone, Copy, Debug, PartialEq, Eq)]
pub enum Stage {
    /// There is no such run.
    Undrawn,
    /// It has not begun.
    Waiting,
    /// It has begun and not ended.
    Unfinished,
    /// It has ended, or was refused.
    Ended,
}

/// What happened. Runs are numbered from 1 in the order in which they were queued, admitted or refused.
#[derive(Debug, Drop)]
pub enum What {
    /// A run of the host's own waits from now on: an event of `global.asa`.
    Queue {
        run: u32,
        work: Work,
        /// The session key, counted from 1; 0 for none.
        key: u32,
    },
    /// A run of a page waits from now on.
    Admit {
        run: u32,
        /// The session key, counted from 1; 0 for none.
        key: u32,
        /// Whether the key was made for this job.
        fresh: bool,
        job: Job,
    },
    /// A job needed a new session key, and as many were live as may be.
    Refuse {
        run: u32,
        job: Job,
    },
    /// Time went on.
    Tick {
        /// Seconds since 1970.
        moment: u64,
    },
    /// A run began.
    Begin {
        run: u32,
        /// The number of its session; 0 for none.
        serial: u32,
    },
    /// A run called the Application object.
    App {
        run: u32,
        call: AppCall,
        reply: AppReply,
    },
    /// A run ended.
    End {
        run: u32,
        kind: EndKind,
        /// The status code of its answer (RFC 9110, section 15); 0 without an answer.
        status: u16,
        /// The bytes of its answer's content; 0 without an answer.
        length: u32,
        /// How many objects the run made.
        made: u32,
        /// How many objects the run ended.
        finished: u32,
    },
    /// The answer of a run was handed out.
    Take {
        run: u32,
    },
    /// No job is admitted from now on, and all sessions end.
    Stop,
    /// No run begins from now on.
    Halt,
}

/// An entry of a journal.
#[derive(Debug, Drop)]
pub struct Entry {
    /// The number of the lane that made it.
    pub lane: u32,
    pub what: What,
}
