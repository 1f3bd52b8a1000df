//! How many runs ended with an answer of status 200.
ghost use Rattle.std.specs.Prelude.{◌≡◌, ◌+◌, if◌then◌else◌, reverse};
ghost use Rattle.vb_value.specs.Outcome.{Gives};
ghost use Rattle.asp_summary.specs.Counted as spec;

use asp_job::{Entry, What};
use vb_value::Memory;

/// Whether a run ends with an answer of status 200.
fn is_answer(what: &What) -> bool
    ensures { result ≡ spec.is_answer what.now }
{
    match what {
        What::End { status, .. } => *status == 200,
        _ => false,
    }
}

/// One answer more, where the entry tells one.
fn with_answer(count: u32, what: &What) -> Result<u32, Memory>
    ensures { Gives result (if spec.is_answer what.now then count + 1 else count) }
{
    if is_answer(what) {
        count.checked_add(1).ok_or(Memory)
    } else {
        Ok(count)
    }
}

/// How many runs of pages ended with an answer of status 200.
pub fn count_answers(journal: &[Entry]) -> Result<u32, Memory>
    ensures { Gives result (spec.answers_in (reverse journal.now)) }
{
    let mut count = 0u32;
    for entry in journal {
        count = with_answer(count, &entry.what)?;
    }
    Ok(count)
}
