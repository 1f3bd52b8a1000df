//! What the target of a request names.
ghost use Rattle.std.specs.Prelude.{◌≡◌, MatchOption, None, Some, position};
ghost use Rattle.std.specs.List.{before_first, after_first};
ghost use Rattle.vb_value.specs.Outcome.{Gives};
ghost use Rattle.asp_text.specs.Path.{begins_with_slash};
ghost use Rattle.http_front.specs.Target as spec;

use asp_text::{PathStop, normal_path};
use std::alloc::Global;
use vb_value::{Memory, Text};

fn first_slash(bytes: &[u8]) -> Option<usize>
    ensures { result ≡ position spec.is_slash bytes.now }
{
    bytes.iter().position(|b| *b == b'/')
}

fn first_question(bytes: &[u8]) -> Option<usize>
    ensures { result ≡ position spec.is_question bytes.now }
{
    bytes.iter().position(|b| *b == b'?')
}

#[tactic(auto, using(crate::proofs::Targets::host_ends, crate::proofs::Targets::no_host))]
fn after_host(bytes: &[u8]) -> Option<&[u8]>
    ensures { MatchOption result (spec.after_host bytes.now ≡ None) (λ rest. spec.after_host bytes.now ≡ Some rest.now) }
{
    match first_slash(bytes) {
        Some(host) if host > 0 => Some(&bytes[host..]),
        _ => None,
    }
}

fn begins_with_slash(bytes: &[u8]) -> bool
    ensures { result ≡ begins_with_slash bytes.now }
{
    match bytes {
        [first, ..] => *first == b'/',
        [] => false,
    }
}

/// The target from its path on.
fn from_path_on(target: &[u8]) -> Option<&[u8]>
    ensures { MatchOption result (spec.from_path_on target.now ≡ None)
        (λ rest. spec.from_path_on target.now ≡ Some rest.now) }
{
    if begins_with_slash(target) {
        return Some(target);
    }
    match target.strip_prefix(b"http://") {
        Some(rest) => after_host(rest),
        None => None,
    }
}

#[tactic(auto, using(crate::proofs::Targets::cut_there, crate::proofs::Targets::uncut))]
fn before_question(bytes: &[u8]) -> &[u8]
    ensures { result.now ≡ before_first spec.is_question bytes.now }
{
    match first_question(bytes) {
        Some(at) => &bytes[..at],
        None => bytes,
    }
}

#[tactic(auto, using(crate::proofs::Targets::cut_behind, crate::proofs::Targets::nothing_behind))]
fn after_question(bytes: &[u8]) -> &[u8]
    ensures { result.now ≡ after_first spec.is_question bytes.now }
{
    match first_question(bytes) {
        Some(at) => &bytes[at + 1..],
        None => &[],
    }
}

fn normal_front(alloc: Global, bytes: &[u8]) -> Result<Option<Text>, Memory>
    ensures { Gives result (spec.normal_front bytes.now) }
{
    match normal_path(alloc, before_question(bytes)) {
        Ok(path) => Ok(Some(path)),
        Err(PathStop::Memory) => Err(Memory),
        Err(_) => Ok(None),
    }
}

/// The normal path that the target of a request names, if it names one (RFC 9112, section 3.2).
#[tactic(auto, unfolding(crate::specs::Target::path_of))]
pub fn path_of(alloc: Global, target: &[u8]) -> Result<Option<Text>, Memory>
    ensures { Gives result (spec.path_of target.now) }
{
    if target.contains(&b'#') {
        return Ok(None);
    }
    match from_path_on(target) {
        Some(bytes) => normal_front(alloc, bytes),
        None => Ok(None),
    }
}

/// What stands behind the first `?` of the target, as it is written; nothing where none stands there.
#[tactic(auto, unfolding(crate::specs::Target::query_of))]
pub fn query_of(target: &[u8]) -> &[u8]
    ensures { result.now ≡ spec.query_of target.now }
{
    match from_path_on(target) {
        Some(bytes) => after_question(bytes),
        None => &[],
    }
}
