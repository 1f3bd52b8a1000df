//! Runs on their way.
ghost use Rattle.std.specs.Prelude.{◌≡◌, None, OnOk};
ghost use Rattle.asp_run.specs.Stands.{told_of};

use asp_job::{Finished, Job};
use asp_objects::HeldSession;
use vb_value::{AppReply, List, Memory, Text};

/// Where a run is.
#[derive(Debug, Drop)]
pub enum At {
    /// It may go on.
    Going,
    /// It waits for a reply.
    Wanting,
    /// It has ended, and leaves this.
    Over(Finished),
    /// Memory ran out.
    Dead,
}

/// A run on its way, which keeps what it was told.
#[derive(Debug, Drop)]
pub struct PlainRun {
    pub job: Job,
    pub session: Option<HeldSession>,
    pub is_new: bool,
    /// The letters of its key, where its job made that key.
    pub cookie: Option<Text>,
    /// The replies that it was told, but for the last.
    pub replies: List<AppReply>,
    /// The last reply, until the run goes on.
    pub heard: Option<AppReply>,
    pub at: At,
}

/// Puts the last reply to the others.
pub(crate) fn keep_heard(run: &mut PlainRun) -> Result<(), Memory>
    ensures told { OnOk result (told_of run.new ≡ told_of run.old) }
    ensures none { OnOk result (run.new.heard ≡ None) }
{
    if let Some(reply) = run.heard.take() {
        run.replies.push(reply)?;
    }
    Ok(())
}
