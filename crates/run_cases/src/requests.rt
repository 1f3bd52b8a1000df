//! Requests from bytes.
ghost use Rattle.std.specs.Prelude.{◌≡◌, ◌<◌, ◌-◌, ◌^◌, IfOk, IsTrue, min, sum_by};
ghost use Rattle.asp_job.specs.Size as size;
ghost use Rattle.http_front.specs.Reader.{Wants};

use asp_job::{Asked, Header, Job, Request, Work};
use case_files::CaseStop;
use http_front::{End, Reader, take_requests};
use std::alloc::Global;
use vb_value::List;

/// How large the headers are: 2^64 - 1 stands for more.
fn headers_size(headers: &[Header]) -> u64
    ensures { result ≡ min (sum_by size.header_size headers.now) (2 ^ 64 - 1) }
{
    let mut total: u64 = 0;
    for header in headers {
        let name = header.name.len() as u64;
        total = total.saturating_add(
            name.saturating_add(header.value.len() as u64)
                .saturating_add(1),
        );
    }
    total
}

/// Whether a job of this request may be run.
fn is_small(request: &Request) -> bool
    ensures { IsTrue result → size.request_size request.now < 2 ^ 24 }
{
    let fixed = (request.path.len() as u64).saturating_add(request.query.len() as u64);
    let content = headers_size(request.headers.as_slice()).saturating_add(
        request.body.len() as u64,
    );
    fixed.saturating_add(content) < 1 << 24
}

/// Feeds bytes one by one, and takes the requests that they give.
fn feed_singly(
    reader: &mut Reader,
    requests: &mut List<Request>,
    bytes: &[u8],
) -> Result<(), CaseStop>
    requires { Wants reader.old }
{
    for place in 0..bytes.len() {
        reader.feed(&bytes[place..place + 1])?;
        match take_requests(reader, requests)? {
            End::More => {}
            End::Refused(_) => return Err(CaseStop::Unreadable),
        }
    }
    Ok(())
}

/// The job of the one request that a text gives, byte by byte.
pub fn read_job(alloc: Global, text: &str) -> Result<Job, CaseStop>
    ensures { IfOk result size.IsSmall }
{
    let mut reader = Reader::new(alloc);
    let mut requests = List::new(alloc);
    match feed_singly(&mut reader, &mut requests, text.as_bytes()) {
        Ok(()) => match requests.pop() {
            Some(request) if requests.is_empty() && is_small(&request) => Ok(Job {
                work: Work::Page(request),
                moment: 0,
                asked: Asked::Fresh,
            }),
            _ => Err(CaseStop::Unreadable),
        },
        Err(stop) => Err(stop),
    }
}
