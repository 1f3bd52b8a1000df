//! What an entry tells.
#![tactic(auto)]

ghost use Rattle.std.specs.Prelude.{◌≡◌, ◌==◌, Option};
ghost use Rattle.vb_value.specs.Outcome.{Gives};
ghost use Rattle.asp_job.specs.History as history;
ghost use Rattle.asp_job.specs.Keys as keys;
ghost use Rattle.asp_job.specs.Running as running;
ghost use Rattle.asp_job.specs.Runs as runs;
ghost use Rattle.asp_job.specs.Turns as turns;

use asp_job::{Asked, Job, What, Work};
use vb_value::{Copied, Memory};

/// The job of a run that the host queued.
pub fn queued(work: &Work) -> Result<Job, Memory>
    ensures { Gives result (runs.queued_job work.now) }
{
    Ok(Job {
        work: work.copy()?,
        moment: 0,
        asked: Asked::Fresh,
    })
}

/// A copy of the job of a run, where an entry drew it.
pub fn job_in(run: u64, what: &What) -> Result<Option<Job>, Memory>
    ensures { Gives result (runs.job_in run what.now) }
{
    match what {
        What::Queue {
            run: about,
            work,
            ..
        } => if *about as u64 == run {
            Ok(Some(queued(work)?))
        } else {
            Ok(None)
        },
        What::Admit {
            run: about,
            job,
            ..
        }
        | What::Refuse { run: about, job } => if *about as u64 == run {
            Ok(Some(job.copy()?))
        } else {
            Ok(None)
        },
        _ => Ok(None),
    }
}

/// Whether an entry counts.
pub fn counts(what: &What) -> bool
    ensures { result ≡ history.counts what.now }
{
    !matches!(what, What::Take { .. } | What::Halt)
}

/// Whether an entry draws a run.
pub fn draws(what: &What) -> bool
    ensures { result ≡ runs.draws what.now }
{
    matches!(
        what,
        What::Queue { .. } | What::Admit { .. } | What::Refuse { .. }
    )
}

/// Whether an entry makes a key.
pub fn makes_key(what: &What) -> bool
    ensures { result ≡ keys.makes_key what.now }
{
    matches!(what, What::Admit { fresh: true, .. })
}

/// Whether work is that of a page.
pub fn is_page(work: &Work) -> bool
    ensures { result ≡ running.is_page work.now }
{
    matches!(work, Work::Page(_))
}

/// Whether work is that of the last run.
pub fn is_last_work(work: &Work) -> bool
    ensures { result ≡ turns.is_last_work work.now }
{
    matches!(work, Work::Stop)
}
