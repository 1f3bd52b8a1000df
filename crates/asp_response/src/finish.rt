//! From what a page has said to its answer.
ghost use Rattle.std.specs.Prelude.{◌≡◌, ◌<◌, ◌≤◌, option_map};
ghost use Rattle.vb_value.specs.Outcome.{Gives};
ghost use Rattle.asp_response.specs.Finish as spec;

use crate::draft::{Draft, within_limit};
use crate::headers::headers_of;
use crate::status::Status;
use crate::text::ascii;
use asp_job::Answer;
use http::StatusCode;
use std::alloc::Global;
use vb_value::{Bytes, Memory, Text};

/// The reason that goes with a code by itself; it is empty where none does.
pub(crate) fn reason_of(alloc: Global, code: u16) -> Result<Text, Memory>
    requires most { code < 1000 }
    requires least { 100 ≤ code }
    ensures { Gives result (spec.reason_of code) }
{
    let Ok(status) = StatusCode::from_u16(code) else {
        unreachable!()
    };
    match status.canonical_reason() {
        Some(reason) => ascii(alloc, reason.as_bytes()),
        None => Ok(Text::new(alloc)),
    }
}

fn plain_status(alloc: Global, code: u16) -> Result<Status, Memory>
    requires most { code < 1000 }
    requires least { 100 ≤ code }
    ensures { Gives result (spec.plain_status code) }
{
    let reason = reason_of(alloc, code)?;
    Ok(Status { code, reason })
}

fn status_of(alloc: Global, set: Option<Status>, failed: bool) -> Result<Status, Memory>
    ensures { Gives result (spec.status_of set failed) }
{
    if failed {
        return plain_status(alloc, 500);
    }
    match set {
        Some(status) => Ok(status),
        None => plain_status(alloc, 200),
    }
}

fn body_of(
    alloc: Global,
    mut body: Bytes,
    flushed: usize,
    failure: Option<&Text>,
) -> Result<Bytes, Memory>
    ensures { Gives result (spec.body_of body flushed (option_map (λ text. text.now) failure.entry)) }
{
    let Some(failure) = failure else {
        return Ok(body);
    };
    let said = failure.to_utf8(alloc)?;
    body.truncate(flushed);
    if within_limit(body.len(), said.len()).is_ok() {
        body.append(said)?;
    }
    Ok(body)
}

impl Draft {
    /// The answer: with the letters of the session's key where the job made that key, and, where the page failed, with
    /// status 500 and with what was flushed, followed by `failure`, in place of the body. Where both are more than 4 MiB
    /// nothing follows.
    pub fn finish(
        self,
        letters: Option<&Text>,
        failure: Option<&Text>,
        head_only: bool,
        close: bool,
    ) -> Result<Answer, Memory>
        ensures { Gives result (spec.finished self
            (option_map (λ l. l.now) letters.entry) (option_map (λ f. f.now) failure.entry) head_only close) }
    {
        let alloc = *self.body.allocator();
        let headers = headers_of(alloc, &self, letters)?;
        let Draft {
            body,
            flushed,
            status,
            ..
        } = self;
        let status = status_of(alloc, status, failure.is_some())?;
        let body = body_of(alloc, body, flushed, failure)?;
        let Status { code, reason } = status;
        Ok(Answer {
            status: code,
            reason,
            headers,
            body,
            head_only,
            close,
        })
    }
}
