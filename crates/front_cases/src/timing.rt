//! Times requests and answers. What was done goes to standard output, and the time that it took to standard error.

ghost use Rattle.std.specs.Prelude.{◌≤◌, length};
ghost use Rattle.http_front.specs.Reader.{Wants};

use asp_job::Request;
use asp_response::{Draft, answer_bytes};
use http_front::{End, Reader, take_requests};
use std::alloc::Global;
use std::io;
use std::io::ErrorKind;
use std::rt::Runtime;
use std::time::Instant;
use vb_value::{List, Memory, Text};

/// How many requests without a body are read.
const HEADS: u32 = 20_000;
/// How many requests with a body of 1 MiB are read, and in how many pieces of 64 KiB each body comes.
const BODIES: u32 = 64;

const PIECES: u32 = 16;
/// How many answers are made.
const ANSWERS: u32 = 20_000;

const HEAD: &[u8] =
    b"GET /shop/list.asp?page=2 HTTP/1.1\r\nHost: localhost\r\nUser-Agent: curl/8.5.0\r\n\
    Accept: */*\r\n\r\n";

const QUARTER: &[u8] = b"POST /f HTTP/1.1\r\nHost: x\r\nContent-Length: 262144\r\n\r\n";

const WHOLE: &[u8] = b"POST /f HTTP/1.1\r\nHost: x\r\nContent-Length: 1048576\r\n\r\n";

/// Feeds a connection one piece, and then another so many times. Whether all of them were wanted.
fn feed_times(
    reader: &mut Reader,
    requests: &mut List<Request>,
    first: &[u8],
    piece: &[u8],
    times: u32,
) -> Result<bool, Memory>
    requires wants { Wants reader.old }
    requires first { length first.now ≤ 65536 }
    requires piece { length piece.now ≤ 65536 }
{
    reader.feed(first)?;
    for _ in 0..times {
        match take_requests(reader, requests)? {
            End::More => reader.feed(piece)?,
            End::Refused(_) => return Ok(false),
        }
    }
    take_requests(reader, requests)?;
    Ok(true)
}

/// How many requests a connection gives on which one piece comes, and then another so many times.
fn count_requests(alloc: Global, first: &[u8], piece: &[u8], times: u32) -> Option<usize>
    requires first { length first.now ≤ 65536 }
    requires piece { length piece.now ≤ 65536 }
{
    let mut reader = Reader::new(alloc);
    let mut requests = List::new(alloc);
    match feed_times(&mut reader, &mut requests, first, piece, times) {
        Ok(true) => Some(requests.len()),
        Ok(false) => Some(0),
        Err(_) => None,
    }
}

fn count_bodies(alloc: Global) -> Option<usize> {
    let piece = [b'a'; 65_536];
    let mut count = 0usize;
    for _ in 0..BODIES {
        count = count.saturating_add(count_requests(alloc, WHOLE, &piece, PIECES)?);
    }
    Some(count)
}

/// The length of an answer's bytes.
fn answer_length(alloc: Global, text: &Text) -> Option<usize> {
    let mut draft = Draft::new(alloc);
    let is_written = draft.write(text).is_ok();
    match draft.finish(None, None, false, false) {
        Ok(answer) if is_written => match answer_bytes(alloc, &answer, 784_111_777) {
            Ok(bytes) => Some(bytes.len()),
            Err(_) => None,
        },
        _ => None,
    }
}

fn count_of_answers(alloc: Global, text: &Text) -> Option<usize> {
    let mut count = 0usize;
    for _ in 0..ANSWERS {
        count = count.saturating_add(answer_length(alloc, text)?);
    }
    Some(count)
}

fn count_answered(alloc: Global) -> Option<usize> {
    match Text::from_str(alloc, "<html><body><h1>18 bottles</h1></body></html>") {
        Ok(text) => count_of_answers(alloc, &text),
        Err(_) => None,
    }
}

/// What is counted in the trial of this name, and how many there were, if memory lasted.
fn counted(alloc: Global, name: &str) -> Option<(&'static str, Option<usize>)> {
    match name {
        "heads" => Some((
            "requests without a body",
            count_requests(alloc, b"", HEAD, HEADS),
        )),
        "bodies" => Some(("requests with a body of 1 MiB", count_bodies(alloc))),
        "quarter" => Some((
            "requests with a body of 256 KiB, byte by byte",
            count_requests(alloc, QUARTER, b"a", 262_144),
        )),
        "whole" => Some((
            "requests with a body of 1 MiB, byte by byte",
            count_requests(alloc, WHOLE, b"a", 1_048_576),
        )),
        "answers" => Some(("bytes of 20,000 answers", count_answered(alloc))),
        _ => None,
    }
}

/// Runs the trial of this name, and prints how many of what came of it and the time that it took.
fn run<R: Runtime + AllocGlobal>(rt: &R, name: &str) -> io::Result<()> {
    let start = Instant::now(rt)?;
    match counted(rt.alloc(), name) {
        Some((what, Some(came))) => {
            let time = start.elapsed(rt)?;
            println!(rt; "{what}: {came}")?;
            eprintln!(rt; "{} microseconds", time.as_micros())
        }
        Some((_, None)) => Err(ErrorKind::Other.into()),
        None => Err(ErrorKind::InvalidInput.into()),
    }
}

/// Runs the trial of this name, or all of them in turn for `time`.
pub fn time<R: Runtime + AllocGlobal>(rt: &R, name: &str) -> io::Result<()> {
    if name != "time" {
        return run(rt, name);
    }
    run(rt, "heads")?;
    run(rt, "bodies")?;
    run(rt, "quarter")?;
    run(rt, "whole")?;
    run(rt, "answers")
}
