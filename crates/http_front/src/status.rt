//! The status by which a head is refused.
ghost use Rattle.std.specs.Prelude.{◌≡◌, Some, None, MatchResult};
ghost use Rattle.std.specs.Option.{is_some};
ghost use Rattle.http_front.specs.Status as spec;

use crate::fields::{BodyLength, Fields};
use asp_job::Verb;
use vb_value::Text;

const MAX_FIELDS: usize = 64;

const MAX_BODY: u32 = 1_048_576;

/// The method of this name.
pub(crate) fn verb_of(method: &[u8]) -> Verb
    ensures { result ≡ spec.verb_of method.now }
{
    if method == b"GET".as_slice() {
        Verb::Get
    } else if method == b"HEAD".as_slice() {
        Verb::Head
    } else if method == b"POST".as_slice() {
        Verb::Post
    } else {
        Verb::Other
    }
}

fn has_host(minor: u8, fields: &Fields) -> bool
    ensures { result ≡ spec.has_host minor fields.now }
{
    minor == 0 || fields.hosts == 1
}

impl BodyLength {
    fn is_faulty(self) -> bool
        ensures { result ≡ spec.is_faulty self }
    {
        matches!(self, BodyLength::Faulty)
    }

    fn is_absent(self) -> bool
        ensures { result ≡ spec.is_absent self }
    {
        matches!(self, BodyLength::Absent)
    }

    /// The body's length, which is 0 where none is given.
    pub fn bytes(self) -> u32
        ensures { result ≡ spec.length_of self }
    {
        match self {
            BodyLength::Given(length) => length,
            BodyLength::Absent | BodyLength::Faulty => 0,
        }
    }
}

fn is_in_order(minor: u8, fields: &Fields) -> bool
    ensures { result ≡ spec.is_in_order minor fields.now }
{
    has_host(minor, fields) && !fields.length.is_faulty()
}

fn lacks_length(verb: Verb, length: BodyLength) -> bool
    ensures { result ≡ spec.lacks_length verb length }
{
    matches!(verb, Verb::Post) && length.is_absent()
}

/// The path of a head with these parts, or the first of 431, 400, 501, 411 and 413 that applies to it.
#[tactic(auto, unfolding(crate::specs::Status::status_by))]
pub(crate) fn judge(
    verb: Verb,
    path: Option<Text>,
    minor: u8,
    count: usize,
    fields: &Fields,
) -> Result<Text, u16>
    ensures { let status = spec.status_by verb (is_some path) minor count fields.now in
        MatchResult result (λ named. (path ≡ Some named) × (status ≡ None)) (λ told. status ≡ Some told) }
{
    if count > MAX_FIELDS {
        return Err(431);
    }
    let Some(path) = path else {
        return Err(400);
    };
    if !is_in_order(minor, fields) {
        return Err(400);
    }
    if fields.coded {
        return Err(501);
    }
    if lacks_length(verb, fields.length) {
        return Err(411);
    }
    if fields.length.bytes() > MAX_BODY {
        return Err(413);
    }
    Ok(path)
}
