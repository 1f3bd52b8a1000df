//! What stands at the front of a connection's bytes.
ghost use Rattle.std.specs.Prelude.{◌≡◌, length, IfOk};
ghost use Rattle.http_front.specs.Front.{window};
ghost use Rattle.http_front.specs.Mark.{IsMarked};
ghost use Rattle.http_front.specs.Parsed.{Parses};
ghost use Rattle.httparse.specs.Spans.{IsRequestWithin};
ghost use Rattle.http_front.specs.Found.{Finds, HasRequest, IsFirstRequest, IsJudgedAt};

use crate::fields::Fields;
use crate::opening::{Parsed, mark_of, parse_from};
use crate::request::copy_headers;
use crate::status::{judge, verb_of};
use crate::target::{path_of, query_of};
use asp_job::Request;
use httparse::spans::{HeaderSpan, RequestSpans};
use std::alloc::Global;
use vb_value::{List, Memory, Text};

/// The greatest length of a head.
const MAX_HEAD: usize = 16_384;

/// A head that no status refuses, whose body is there.
#[derive(Debug, Drop)]
pub(crate) struct Accepted {
    pub head: RequestSpans,
    /// The normal path that its target names.
    pub path: Text,
    pub close: bool,
    /// Where its body ends.
    pub end: usize,
}

/// What the bytes give first.
#[derive(Debug, Drop)]
pub(crate) enum Found {
    More {
        /// Nothing can come before there are so many bytes.
        need: usize,
        /// Where reading can go on, or 0.
        mark: usize,
    },
    Refused(u16),
    Request(Accepted),
}

/// The first 16,384 bytes, in which a head has to end.
pub(crate) fn window(bytes: &[u8]) -> &[u8]
    ensures { result.now ≡ window bytes.now }
{
    &bytes[..bytes.len().min(MAX_HEAD)]
}

/// What a head comes to.
#[derive(Debug, Drop)]
enum Judged {
    Taken {
        /// The normal path that its target names.
        path: Text,
        close: bool,
        /// The length of its body.
        size: u32,
    },
    Refused(u16),
}

fn judge_head(
    alloc: Global,
    buf: &[u8],
    spans: &[HeaderSpan],
    head: RequestSpans,
) -> Result<Judged, Memory>
    requires { IsRequestWithin buf.now spans.now head }
    ensures { IfOk result (IsJudgedAt buf.now spans.now head) }
{
    let fields = Fields::from_spans(buf, &spans[..head.headers]);
    let verb = verb_of(head.method.of(buf));
    let named = path_of(alloc, head.path.of(buf))?;
    match judge(verb, named, head.version, head.headers, &fields) {
        Ok(path) => Ok(Judged::Taken {
            path,
            close: head.version == 0 || fields.close,
            size: fields.length.bytes(),
        }),
        Err(status) => Ok(Judged::Refused(status)),
    }
}

fn answer(
    alloc: Global,
    bytes: &[u8],
    spans: &[HeaderSpan],
    head: RequestSpans,
) -> Result<Found, Memory>
    requires { Parses (window bytes.now) spans.now (Parsed.Whole head) }
    ensures { IfOk result (Finds bytes.now spans.now) }
{
    match judge_head(alloc, window(bytes), spans, head)? {
        Judged::Refused(status) => Ok(Found::Refused(status)),
        Judged::Taken { path, close, size } => {
            let end = head.len + size as usize;
            if end > bytes.len() {
                return Ok(Found::More { need: end, mark: 0 });
            }
            Ok(Found::Request(Accepted {
                head,
                path,
                close,
                end,
            }))
        }
    }
}

/// What the bytes give first. There is room for each field that they can have. Before `seen` no line
/// has ended since the mark; a wrong `seen` costs time alone.
pub(crate) fn find(
    alloc: Global,
    bytes: &[u8],
    spans: &mut [HeaderSpan],
    mark: usize,
    seen: usize,
) -> Result<Found, Memory>
    requires room { length spans.old ≡ 5461 }
    requires marked { IsMarked bytes.now mark }
    ensures { IfOk result (Finds bytes.now spans.new) }
{
    let window = window(bytes);
    match parse_from(window, mark, spans) {
        Parsed::Unfinished if bytes.len() > MAX_HEAD => Ok(Found::Refused(431)),
        Parsed::Unfinished => Ok(Found::More {
            need: bytes.len() + 1,
            mark: mark_of(window, mark, seen),
        }),
        Parsed::Hopeless => Ok(Found::Refused(400)),
        Parsed::Whole(head) => answer(alloc, bytes, spans, head),
    }
}

/// The request that was found at the front.
pub(crate) fn copy_request(
    alloc: Global,
    bytes: &[u8],
    spans: &[HeaderSpan],
    accepted: Accepted,
) -> Result<Request, Memory>
    requires { HasRequest bytes.now spans.now accepted }
    ensures { IfOk result (IsFirstRequest bytes.now accepted.end) }
{
    let Accepted {
        head,
        path,
        close,
        end,
    } = accepted;
    let window = window(bytes);
    Ok(Request {
        verb: verb_of(head.method.of(window)),
        path,
        query: List::from_slice(alloc, query_of(head.path.of(window)))?,
        minor: head.version,
        headers: copy_headers(alloc, window, &spans[..head.headers])?,
        body: List::from_slice(alloc, &bytes[head.len..end])?,
        close,
    })
}
