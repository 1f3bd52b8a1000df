//! The job of a request.
#![tactic(auto)]

ghost use Rattle.std.specs.Prelude.{IfOk};
ghost use Rattle.asp_job.specs.Size.{IsSmall};
ghost use Rattle.asp_record.specs.Recorded.{IsOneRequest};
ghost use Rattle.asp_feed.specs.Feeding as spec;

use crate::clients::{Clients, asked_by};
use asp_job::{Job, Request, Work};
use http_front::{Next, Reader, front_stays, one_front};
use std::alloc::Global;
use vb_value::Memory;

/// How many bytes a reader takes at once.
const PIECE: usize = 65_536;

/// The request that the bytes are.
fn request_of(alloc: Global, bytes: &[u8]) -> Result<Request, Memory>
    requires one { IsOneRequest bytes.now }
    ensures { IfOk result (spec.IsRequestOf bytes.now) }
{
    one_front();
    front_stays();
    let mut reader = Reader::new(alloc);
    let mut rest = bytes;
    while 0 < rest.len() {
        let (piece, later) = rest.split_at(rest.len().min(PIECE));
        rest = later;
        reader.feed(piece)?;
        match reader.next()? {
            Next::Request(request) => return Ok(request),
            Next::Refused(_) => unreachable!(),
            Next::More => {}
        }
    }
    unreachable!()
}

/// The job of a client's request.
pub fn job_of(
    alloc: Global,
    clients: &Clients,
    client: u32,
    moment: u64,
    bytes: &[u8],
) -> Result<Job, Memory>
    requires one { IsOneRequest bytes.now }
    ensures job { IfOk result (spec.IsJobOf clients.now.entries client moment bytes.now) }
    ensures small { IfOk result IsSmall }
{
    let request = request_of(alloc, bytes)?;
    Ok(Job {
        work: Work::Page(request),
        moment,
        asked: asked_by(clients, client),
    })
}
