//! How many bytes a page has put into the head.
ghost use Rattle.std.specs.Prelude.{◌≡◌, ◌+◌, ◌-◌, ◌≤◌, codes};
ghost use Rattle.vb_value.specs.Outcome.{Gives};
ghost use Rattle.asp_response.specs.Finish as finish;
ghost use Rattle.asp_response.specs.HeadSize as spec;

use crate::bytes::{push_header, push_status};
use crate::headers::{header, type_of};
use crate::status::Status;
use crate::stop::DraftStop;
use asp_job::Header;
use std::alloc::Global;
use vb_value::{Bytes, LimitKind, Memory, Text};

/// The most that a page may put into the head, in bytes.
const MOST_HEAD: usize = 65_536;

/// How the size of a head changes.
#[derive(Clone, Copy, Debug)]
pub(crate) struct Change {
    /// The bytes that go.
    pub was: usize,
    /// The bytes that come.
    pub will: usize,
}

/// The size of a head after a change; more than 65,536 bytes are the limit Body.
pub(crate) fn resized(head: usize, change: Change) -> Result<usize, DraftStop>
    requires { change.was ≤ head }
    ensures { result ≡ spec.head_within (head - change.was + change.will) }
{
    let rest = head - change.was;
    if rest > MOST_HEAD || change.will > MOST_HEAD - rest {
        return Err(DraftStop::Limit(LimitKind::Body));
    }
    Ok(rest + change.will)
}

#[tactic(auto, unfolding(crate::specs::HeadSize::field_size))]
pub(crate) fn field_size(alloc: Global, field: &Header) -> Result<usize, Memory>
    ensures { Gives result (spec.field_size field.now) }
{
    let mut line = Bytes::new(alloc);
    push_header(&mut line, field)?;
    Ok(line.len())
}

#[tactic(auto, unfolding(crate::specs::HeadSize::status_size))]
pub(crate) fn status_size(alloc: Global, status: &Option<Status>) -> Result<usize, Memory>
    ensures { Gives result (spec.status_size status.now) }
{
    let Some(status) = status else {
        return Ok(0);
    };
    let mut line = Bytes::new(alloc);
    push_status(&mut line, status.code, &status.reason)?;
    Ok(line.len())
}

#[tactic(auto, unfolding(crate::specs::HeadSize::location_size))]
pub(crate) fn location_size(alloc: Global, location: &Option<Text>) -> Result<usize, Memory>
    ensures { Gives result (spec.location_size location.now) }
{
    match location {
        None => Ok(0),
        Some(url) => field_size(alloc, &header(alloc, b"Location", url)?),
    }
}

#[tactic(auto, unfolding(crate::specs::HeadSize::cache_size))]
pub(crate) fn cache_size(alloc: Global, cache: &Option<Text>) -> Result<usize, Memory>
    ensures { Gives result (spec.cache_size cache.now) }
{
    match cache {
        None => Ok(0),
        Some(text) => field_size(alloc, &header(alloc, b"Cache-control", text)?),
    }
}

fn type_field(
    alloc: Global,
    content_type: &Option<Text>,
    charset: &Option<Text>,
) -> Result<Header, Memory>
    ensures { Gives result (finish.header (codes "Content-Type") (finish.type_of content_type.now charset.now)) }
{
    let text = type_of(alloc, content_type, charset)?;
    header(alloc, b"Content-Type", &text)
}

#[tactic(auto, unfolding(crate::specs::HeadSize::type_size))]
pub(crate) fn type_size(
    alloc: Global,
    content_type: &Option<Text>,
    charset: &Option<Text>,
) -> Result<usize, Memory>
    ensures { Gives result (spec.type_size content_type.now charset.now) }
{
    match (content_type, charset) {
        (None, None) => Ok(0),
        _ => field_size(alloc, &type_field(alloc, content_type, charset)?),
    }
}
