//! The paths of requests.
ghost use Rattle.std.specs.Prelude.{◌≡◌};
ghost use Rattle.vb_value.specs.Outcome.{Answers};
ghost use Rattle.asp_text.specs.Path as spec;

use crate::segment::resolve;
use percent_encoding::percent_decode;
use std::alloc::{AllocError, Global};
use std::error::Error;
use std::fmt;
use vb_value::{Memory, Text, Utf8Stop};

/// Why a path has no normal path.
#[derive(Clone, Copy, Debug, PartialEq, Eq)]
pub enum PathStop {
    /// A `..` leads above the root.
    Escapes,
    /// The path does not begin with `/`, a `%` has no two hexadecimal digits behind it, or the decoded path is
    /// no UTF-8, has a NUL or a backslash. This is told before [`PathStop::Escapes`].
    BadEscape,
    /// Memory ran out.
    Memory,
}

impl fmt::Display for PathStop {
    fn fmt<W: fmt::Write>(&self, f: &mut fmt::Formatter<W>) -> fmt::Result {
        match self {
            PathStop::Escapes => write!(f, "the path leads above the root"),
            PathStop::BadEscape => write!(f, "the path is not well written"),
            PathStop::Memory => write!(f, "out of memory"),
        }
    }
}

impl Error for PathStop {}

impl From<Memory> for PathStop {
    ghost use Rattle.asp_text.specs.declared.path.PathStop.TheVariants.{Memory as OutOfMemory};

    ghost from_gives = { λ _ stop. stop ≡ OutOfMemory };

    fn from(_: Memory) -> PathStop {
        PathStop::Memory
    }
}

impl From<AllocError> for PathStop {
    ghost use Rattle.asp_text.specs.declared.path.PathStop.TheVariants.{Memory as OutOfMemory};

    ghost from_gives = { λ _ stop. stop ≡ OutOfMemory };

    fn from(_: AllocError) -> PathStop {
        PathStop::Memory
    }
}

fn begins_with_digits(bytes: &[u8]) -> bool
    ensures { result ≡ spec.begins_with_digits bytes.now }
{
    match bytes {
        [high, low, ..] => high.is_ascii_hexdigit() && low.is_ascii_hexdigit(),
        _ => false,
    }
}

#[tactic(auto, unfolding(crate::specs::Path::has_whole_escapes))]
fn has_whole_escapes(bytes: &[u8]) -> bool
    ensures { result ≡ spec.has_whole_escapes bytes.now }
{
    let mut rest = bytes;
    while let [first, more @ ..] = rest {
        if *first == b'%' && !begins_with_digits(more) {
            return false;
        }
        rest = more;
    }
    true
}

fn begins_with_slash(bytes: &[u8]) -> bool
    ensures { result ≡ spec.begins_with_slash bytes.now }
{
    match bytes {
        [first, ..] => *first == b'/',
        [] => false,
    }
}

fn is_odd(path: &[char]) -> bool
    ensures { result ≡ spec.is_odd path.now }
{
    path.iter().any(|c| *c == '\0' || *c == '\\')
}

fn normal_text(alloc: Global, path: &[char]) -> Result<Text, PathStop>
    ensures { Answers result PathStop.Memory (spec.normal_text path.now) }
{
    if is_odd(path) {
        return Err(PathStop::BadEscape);
    }
    resolve(alloc, path)
}

fn normal_bytes(alloc: Global, bytes: &[u8]) -> Result<Text, PathStop>
    ensures { Answers result PathStop.Memory (spec.normal_bytes bytes.now) }
{
    match Text::from_utf8(alloc, bytes) {
        Ok(path) => normal_text(alloc, path.as_slice()),
        Err(Utf8Stop::NotUtf8) => Err(PathStop::BadEscape),
        Err(Utf8Stop::Memory) => Err(PathStop::Memory),
    }
}

/// The path that `raw`, the path of a request, names below the root: percent-decoded, and without `.`, `..` and
/// empty segments (RFC 3986, sections 2.1 and 5.2.4). A path that ends in a folder ends in `/`.
#[tactic(auto, unfolding(crate::specs::Path::normal_path_of))]
pub fn normal_path(alloc: Global, raw: &[u8]) -> Result<Text, PathStop>
    ensures { Answers result PathStop.Memory (spec.normal_path_of raw.now) }
{
    if !begins_with_slash(raw) || !has_whole_escapes(raw) {
        return Err(PathStop::BadEscape);
    }
    let mut bytes = Vec::new(alloc);
    percent_decode(raw).append_to(&mut bytes)?;
    normal_bytes(alloc, &bytes)
}
