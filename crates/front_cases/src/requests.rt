//! Requests from bytes, at once and in pieces.
ghost use Rattle.std.specs.Prelude.{◌≡◌, Ok};
ghost use Rattle.http_front.specs.Reader.{Wants};
ghost use Rattle.http_front.specs.declared.stream.End.TheVariants.{More};

use asp_job::Request;
use case_files::{Answer, CaseStop, Subject, read_text};
use http_front::{End, Reader, take_requests};
use std::alloc::Global;
use vb_value::{Bytes, List};

/// Bytes, each with the requests that they give in turn, and with what the rest gives. They are fed at once, in two
/// pieces that are cut at each place, and byte by byte: all must give the same.
pub struct Requests;

impl Subject for Requests {
    fn answer(&self, case: &str, out: &mut Answer) {
        let bytes = read_bytes(out, case);
        match came(out.alloc(), bytes.as_slice(), b"", PIECE).end() {
            Ok(whole) => write_compared(out, bytes.as_slice(), whole.as_str()),
            Err(stop) => out.stop(stop),
        }
    }
}

/// The most bytes that a reader is fed at once.
pub const PIECE: usize = 65_536;

/// What bytes give: the requests, what comes behind them, and how many bytes then wait for more.
#[derive(Drop)]
pub struct Given {
    pub requests: List<Request>,
    end: End,
    rest: u32,
}

/// The bytes of a case: its text, in which `{ff}` is the byte of that hexadecimal number.
pub fn read_bytes(out: &mut Answer, written: &str) -> Bytes {
    let mut bytes = Bytes::new(out.alloc());
    match read_text(out.alloc(), written) {
        Ok(text) => push_parts(out, &mut bytes, text.as_str()),
        Err(stop) => out.stop(stop),
    }
    bytes
}

fn push_parts(out: &mut Answer, bytes: &mut Bytes, text: &str) {
    for (at, part) in text.split('{').enumerate() {
        if at == 0 {
            push_plain(out, bytes, part);
        } else {
            push_number(out, bytes, part);
        }
    }
}

fn push_plain(out: &mut Answer, bytes: &mut Bytes, plain: &str) {
    if bytes.append_slice(plain.as_bytes()).is_err() {
        out.stop(CaseStop::Memory);
    }
}

/// Adds the byte whose number stands before a `}`, and what stands behind that.
fn push_number(out: &mut Answer, bytes: &mut Bytes, part: &str) {
    let (number, plain) = part.split_once('}').unwrap_or(("", part));
    match u8::from_str_radix(number, 16) {
        Ok(byte) => {
            if bytes.push(byte).is_err() {
                out.stop(CaseStop::Memory);
            }
        }
        Err(_) => out.stop(CaseStop::Unreadable),
    }
    push_plain(out, bytes, plain);
}

/// Feeds a part of the bytes in pieces of this size, until they are refused.
fn feed(
    reader: &mut Reader,
    requests: &mut List<Request>,
    part: &[u8],
    size: usize,
) -> Result<End, CaseStop>
    requires { Wants reader.old }
    ensures { result ≡ Ok More → Wants reader.new }
{
    for piece in part.chunks(size.max(1)) {
        if piece.len() > PIECE {
            return Err(CaseStop::Unreadable);
        }
        reader.feed(piece)?;
        match take_requests(reader, requests)? {
            End::More => {}
            End::Refused(status) => return Ok(End::Refused(status)),
        }
    }
    Ok(End::More)
}

/// What bytes give that come in two parts, each of them in pieces of this size.
pub fn read_parts(out: &mut Answer, first: &[u8], rest: &[u8], size: usize) -> Given {
    let mut reader = Reader::new(out.alloc());
    let mut requests = List::new(out.alloc());
    let mut end = feed(&mut reader, &mut requests, first, size);
    if matches!(end, Ok(End::More)) {
        end = feed(&mut reader, &mut requests, rest, size);
    }
    let end = match end {
        Ok(end) => end,
        Err(stop) => {
            out.stop(stop);
            End::More
        }
    };
    let rest = reader.rest();
    Given {
        requests,
        end,
        rest,
    }
}

/// Writes bytes as a text.
pub fn write_bytes(out: &mut Answer, bytes: &[u8]) {
    match String::from_utf8_lossy(out.alloc(), bytes) {
        Ok(text) => out.put(text.as_str()),
        Err(_) => out.stop(CaseStop::Memory),
    }
}

fn write_request(out: &mut Answer, request: &Request) {
    out.debug(&request.verb);
    out.put(" ");
    out.text(request.path.as_slice());
    out.put(" ?");
    write_bytes(out, request.query.as_slice());
    out.put(" 1.");
    out.show(&request.minor);
    out.put(" ");
    out.show(&request.headers.len());
    out.put(" [");
    write_bytes(out, request.body.as_slice());
    out.put("] ");
    out.show(&request.close);
    out.put(", ");
}

fn write_given(out: &mut Answer, given: &Given) {
    for request in given.requests.as_slice() {
        write_request(out, request);
    }
    match given.end {
        End::More if given.rest == 0 => out.put("More"),
        End::More => {
            out.put("More ");
            out.show(&given.rest);
        }
        End::Refused(status) => out.show(&status),
    }
}

/// What is written of bytes that come in two parts, each of them in pieces of this size.
fn came(alloc: Global, first: &[u8], rest: &[u8], size: usize) -> Answer {
    let mut out = Answer::new(alloc);
    let given = read_parts(&mut out, first, rest, size);
    write_given(&mut out, &given);
    out
}

/// Writes what came where it is not what came of the whole. Whether that is so.
pub fn write_differing(out: &mut Answer, whole: &str, came: Answer) -> bool {
    match came.end() {
        Ok(came) if came.as_str() == whole => false,
        Ok(came) => {
            out.put(came.as_str());
            true
        }
        Err(stop) => {
            out.stop(stop);
            true
        }
    }
}

/// Writes what the bytes give at once, or what they give otherwise where that is something else. Up to 1,023 bytes are
/// cut at each place, more at some sixteen places.
fn write_compared(out: &mut Answer, bytes: &[u8], whole: &str) {
    let singly = came(out.alloc(), bytes, b"", 1);
    if write_differing(out, whole, singly) {
        return out.put(" byte by byte");
    }
    let step = bytes.len() / 1024 * 64 + 1;
    for at in 0..bytes.len() {
        if at % step == 0 {
            let (first, rest) = bytes.split_at(at);
            let cut = came(out.alloc(), first, rest, PIECE);
            if write_differing(out, whole, cut) {
                out.put(" where it is cut at ");
                return out.show(&at);
            }
        }
    }
    out.put(whole);
}
