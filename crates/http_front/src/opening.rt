//! What the first bytes of a connection are: a head, the beginning of one, or neither.

ghost use Rattle.std.specs.Prelude.{◌≡◌, ◌≤◌, ◌<◌, length, false, IfSome, slice_index};
ghost use Rattle.httparse.specs.Pieces.{is_newline};
ghost use Rattle.http_front.specs.Front.{BeginsHead};
ghost use Rattle.http_front.specs.Mark.{IsMarked};
ghost use Rattle.http_front.specs.Parsed.{Parses, ReadsLines};

use crate::open_target::may_go_on;
use httparse::spans::{HeaderSpan, RequestSpans, parse_headers_from, parse_request};
use httparse::{Error, Status};

/// What the parser says of the first bytes.
#[derive(Clone, Copy, Debug, PartialEq, Eq)]
pub(crate) enum Parsed {
    Unfinished,
    Hopeless,
    Whole(RequestSpans),
}

/// Parses at most 16,384 bytes. A field takes three bytes at least, so there is room for each.
pub(crate) fn parse_window(window: &[u8], spans: &mut [HeaderSpan]) -> Parsed
    requires short { length window.now ≤ 16384 }
    requires room { length spans.old ≡ 5461 }
    ensures { Parses window.now spans.new result }
{
    match parse_request(window, spans) {
        Ok(Status::Complete(head)) => Parsed::Whole(head),
        Ok(Status::Partial) => {
            if may_go_on(window) {
                Parsed::Unfinished
            } else {
                Parsed::Hopeless
            }
        }
        Err(Error::TooManyHeaders) => Parsed::Hopeless,
        Err(_) => Parsed::Hopeless,
    }
}

/// What the parser says of the field lines behind a mark.
#[derive(Clone, Copy, Debug, PartialEq, Eq)]
enum Lines {
    Open,
    /// They end, or there is no room to say.
    Ended,
    Hopeless,
}

fn lines_from(window: &[u8], mark: usize, spans: &mut [HeaderSpan]) -> Lines
    requires { mark ≤ length window.now }
    ensures { ReadsLines window.now mark result }
{
    match parse_headers_from(window, mark, spans) {
        Ok(Status::Complete(_)) => Lines::Ended,
        Ok(Status::Partial) => Lines::Open,
        Err(Error::TooManyHeaders) => Lines::Ended,
        Err(_) => Lines::Hopeless,
    }
}

/// `parse_window`, with the lines before the mark not read again while the head is open.
pub(crate) fn parse_from(window: &[u8], mark: usize, spans: &mut [HeaderSpan]) -> Parsed
    requires short { length window.now ≤ 16384 }
    requires room { length spans.old ≡ 5461 }
    requires marked { IsMarked window.now mark }
    ensures { Parses window.now spans.new result }
{
    if mark == 0 || mark > window.len() {
        return parse_window(window, spans);
    }
    match lines_from(window, mark, spans) {
        Lines::Open => Parsed::Unfinished,
        Lines::Ended => parse_window(window, spans),
        Lines::Hopeless => Parsed::Hopeless,
    }
}

fn is_newline(b: u8) -> bool
    ensures { result ≡ is_newline b }
{
    b == b'\r' || b == b'\n'
}

fn first_text(bytes: &[u8]) -> Option<usize>
    ensures { IfSome result (λ at. (at < length bytes.now) × (is_newline (slice_index bytes.now at) ≡ false)) }
{
    for (i, b) in bytes.iter().enumerate() {
        if !is_newline(*b) {
            return Some(i);
        }
    }
    None
}

fn last_feed(bytes: &[u8], from: usize) -> Option<usize>
    ensures { IfSome result (λ at. (at < length bytes.now) × (slice_index bytes.now at ≡ 10)) }
{
    for i in (from..bytes.len()).rev() {
        if bytes[i] == b'\n' {
            return Some(i);
        }
    }
    None
}

/// The mark behind the last whole line that ends at `seen` or later, or else the old one.
pub(crate) fn mark_of(window: &[u8], mark: usize, seen: usize) -> usize
    requires short { length window.now ≤ 16384 }
    requires begins { BeginsHead window.now }
    requires marked { IsMarked window.now mark }
    ensures { IsMarked window.now result }
{
    let Some(feed) = last_feed(window, seen) else {
        return mark;
    };
    let Some(first) = first_text(window) else {
        return mark;
    };
    if first <= feed { feed + 1 } else { mark }
}
