//! The summary of a journal.
ghost use Rattle.std.specs.Prelude.{reverse};
ghost use Rattle.vb_value.specs.Outcome.{Gives};
ghost use Rattle.asp_summary.specs.Counted as spec;

use crate::answers::count_answers;
use crate::sessions::count_sessions;
use crate::summary::Summary;
use crate::total::last_total;
use asp_job::Entry;
use std::alloc::Global;
use vb_value::Memory;

/// The summary of a journal, whose newest entry is last, after so many requests.
pub fn summary_of(alloc: Global, requests: u32, journal: &[Entry]) -> Result<Summary, Memory>
    ensures { Gives result (spec.summary_of requests (reverse journal.now)) }
{
    Ok(Summary {
        requests,
        answers: count_answers(journal)?,
        sessions: count_sessions(alloc, journal)?,
        total: last_total(journal),
    })
}
