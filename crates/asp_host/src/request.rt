//! The job of a request.
ghost use Rattle.vb_value.specs.Outcome.{Gives};
ghost use Rattle.asp_host.specs.Request as spec;

use asp_job::{Asked, Job, Request, Verb, Work};
use std::alloc::Global;
use vb_value::{Bytes, Copied, List, Memory, Text};

/// The job of a request for the path with the query.
pub fn get_job(alloc: Global, path: &Text, query: &Bytes) -> Result<Job, Memory>
    ensures { Gives result (spec.job_of path.now query.now) }
{
    let request = Request {
        verb: Verb::Get,
        path: path.copy()?,
        query: query.copy()?,
        minor: 1,
        headers: List::new(alloc),
        body: List::new(alloc),
        close: false,
    };
    Ok(Job {
        work: Work::Page(request),
        moment: 0,
        asked: Asked::Fresh,
    })
}
