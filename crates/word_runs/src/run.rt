//! Runs of words.

use asp_job::{Finished, SessionState};
use vb_value::{Bytes, Text};

/// The page of a run: its word, and what of the request its answer follows.
#[derive(Drop)]
pub struct Page {
    /// Its path.
    pub word: Text,
    /// The content of the request.
    pub sent: Bytes,
    /// Whether the request was HEAD.
    pub head_only: bool,
    /// Whether the connection ends after the answer.
    pub close: bool,
}

/// How far a run is.
#[derive(Drop)]
pub enum At {
    /// It may go on.
    Going,
    /// It waits for the reply to a call.
    Wanting,
    /// It has ended, and leaves this.
    Over(Finished),
    /// Memory ran out.
    Dead,
}

/// A run on its way.
#[derive(Drop)]
pub struct WordRun {
    /// Its page; an event has none.
    pub page: Option<Page>,
    /// The place of the next call in the page's word.
    pub place: usize,
    pub session: Option<SessionState>,
    /// The letters of its key, where its job made that key.
    pub cookie: Option<Text>,
    pub at: At,
}
