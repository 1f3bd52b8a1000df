//! Answers whose text is fixed.
ghost use Rattle.std.specs.Prelude.{◌<◌, ◌≤◌, ◌∷◌, [], false, true};
ghost use Rattle.vb_value.specs.Outcome.{Gives};
ghost use Rattle.asp_response.specs.Fixed as spec;

use crate::finish::reason_of;
use crate::headers::header;
use crate::text::ascii;
use asp_job::{Answer, Header};
use std::alloc::Global;
use vb_value::{List, Memory, Text};

/// Why a page could not answer.
#[derive(Clone, Copy, Debug, PartialEq, Eq)]
pub enum Unavailable {
    /// A new session was needed, and as many are live as may be.
    TooManySessions,
    /// Memory ran out.
    OutOfMemory,
    /// The journal was full.
    JournalFull,
}

fn plain_header(alloc: Global) -> Result<Header, Memory>
    ensures { Gives result spec.plain_header }
{
    let text = ascii(alloc, b"text/plain")?;
    header(alloc, b"Content-Type", &text)
}

fn plain_headers(alloc: Global) -> Result<List<Header>, Memory>
    ensures { Gives result (spec.plain_header ∷ []) }
{
    let mut headers = List::new(alloc);
    headers.push(plain_header(alloc)?)?;
    Ok(headers)
}

fn plain_answer(
    headers: List<Header>,
    status: u16,
    text: &Text,
    head_only: bool,
    close: bool,
) -> Result<Answer, Memory>
    requires most { status < 1000 }
    requires least { 100 ≤ status }
    ensures { Gives result (spec.plain_answer status headers text.now head_only close) }
{
    let alloc = *headers.allocator();
    let reason = reason_of(alloc, status)?;
    let mut body = text.to_utf8(alloc)?;
    body.append_slice(b"\n")?;
    Ok(Answer {
        status,
        reason,
        headers,
        body,
        head_only,
        close,
    })
}

/// The answer of a status alone: its reason as a plain text.
pub fn status_answer(
    alloc: Global,
    status: u16,
    head_only: bool,
    close: bool,
) -> Result<Answer, Memory>
    requires most { status < 1000 }
    requires least { 100 ≤ status }
    ensures { Gives result (spec.status_answer_of status head_only close) }
{
    let reason = reason_of(alloc, status)?;
    plain_answer(plain_headers(alloc)?, status, &reason, head_only, close)
}

/// The answer to bytes that are no request. The connection ends after it.
pub fn refusal(alloc: Global, status: u16) -> Result<Answer, Memory>
    requires most { status < 1000 }
    requires least { 100 ≤ status }
    ensures { Gives result (spec.status_answer_of status false true) }
{
    status_answer(alloc, status, false, true)
}

fn allowed(alloc: Global, page: bool) -> Result<Text, Memory>
    ensures { Gives result (spec.allowed page) }
{
    if page {
        ascii(alloc, b"GET, HEAD, POST")
    } else {
        ascii(alloc, b"GET, HEAD")
    }
}

fn not_allowed_headers(alloc: Global, page: bool) -> Result<List<Header>, Memory>
    ensures { Gives result (spec.not_allowed_headers page) }
{
    let methods = allowed(alloc, page)?;
    let mut headers = plain_headers(alloc)?;
    headers.push(header(alloc, b"Allow", &methods)?)?;
    Ok(headers)
}

/// The answer 405 to a method that a page, or another file, does not take.
pub fn not_allowed_answer(
    alloc: Global,
    page: bool,
    head_only: bool,
    close: bool,
) -> Result<Answer, Memory>
    ensures { Gives result (spec.not_allowed_of page head_only close) }
{
    let reason = reason_of(alloc, 405)?;
    plain_answer(
        not_allowed_headers(alloc, page)?,
        405,
        &reason,
        head_only,
        close,
    )
}

fn why(alloc: Global, cause: Unavailable) -> Result<Text, Memory>
    ensures { Gives result (spec.why cause) }
{
    match cause {
        Unavailable::TooManySessions => ascii(alloc, b"Too many sessions"),
        Unavailable::OutOfMemory => ascii(alloc, b"Out of memory"),
        Unavailable::JournalFull => ascii(alloc, b"Journal full"),
    }
}

/// The answer 503 where no page could answer.
pub fn unavailable_answer(
    alloc: Global,
    cause: Unavailable,
    head_only: bool,
    close: bool,
) -> Result<Answer, Memory>
    ensures { Gives result (spec.unavailable_of cause head_only close) }
{
    let text = why(alloc, cause)?;
    plain_answer(plain_headers(alloc)?, 503, &text, head_only, close)
}
