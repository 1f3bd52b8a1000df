//! What a job is told when it comes.
#![tactic(auto)]

ghost use Rattle.std.specs.Prelude.{◌≡◌};
ghost use Rattle.vb_value.specs.Outcome.{Gives};
ghost use Rattle.asp_core.specs.Drawing as spec;
ghost use Rattle.asp_core.specs.Standing as standing;

use asp_job::{Answer, Verb, What, Work};
use asp_response::{Unavailable, unavailable_answer};
use std::alloc::Global;
use vb_value::Memory;

/// What is told of a job that came.
#[derive(Clone, Copy, Debug, PartialEq, Eq)]
pub struct Admitted {
    /// The number of its run.
    pub run: u32,
    /// Its session key, 0 for none.
    pub key: u32,
    /// Whether it was refused, since it needed a new key and none could be made.
    pub refused: bool,
    /// The moment at which it came, as the journal has it: seconds since 1970.
    pub moment: u64,
}

/// A job that came: what is told of it, and its answer, where it was refused.
#[derive(Debug, Drop)]
pub struct Drawn {
    pub told: Admitted,
    pub answer: Option<Answer>,
}

/// What an entry tells of its job.
pub fn told_of(what: &What) -> Admitted
    ensures { result ≡ spec.told_of what.now }
{
    match what {
        What::Admit { run, key, job, .. } => Admitted {
            run: *run,
            key: *key,
            refused: false,
            moment: job.moment,
        },
        What::Refuse { run, job } => Admitted {
            run: *run,
            key: 0,
            refused: true,
            moment: job.moment,
        },
        _ => Admitted {
            run: 0,
            key: 0,
            refused: false,
            moment: 0,
        },
    }
}

fn is_head(verb: Verb) -> bool
    ensures { result ≡ standing.is_head verb }
{
    matches!(verb, Verb::Head)
}

/// The answer that stands in for that of a page.
pub fn stand_in(alloc: Global, cause: Unavailable, work: &Work) -> Result<Option<Answer>, Memory>
    ensures { Gives result (standing.stand_in cause work.now) }
{
    match work {
        Work::Page(request) => Ok(Some(unavailable_answer(
            alloc,
            cause,
            is_head(request.verb),
            request.close,
        )?)),
        _ => Ok(None),
    }
}
