//! Requests, copied from the bytes of a connection.
ghost use Rattle.std.specs.Prelude.{◌≡◌, IfOk, length, map, All};
ghost use Rattle.httparse.specs.Spans.{IsHeaderWithin, header_bytes};
ghost use Rattle.vb_value.specs.Outcome.{Gives};
ghost use Rattle.http_front.specs.Request.{header_parts};

use asp_job::Header;
use httparse::spans::HeaderSpan;
use std::alloc::Global;
use vb_value::{List, Memory, Text};

/// The characters with the numbers of the bytes.
fn characters(alloc: Global, bytes: &[u8]) -> Result<Text, Memory>
    ensures { Gives result bytes.now }
{
    let mut text = Text::with_capacity(alloc, bytes.len())?;
    for byte in bytes {
        text.push(char::from(*byte))?;
    }
    Ok(text)
}

/// Copies the headers that stand at these places of `buf`.
pub(crate) fn copy_headers(
    alloc: Global,
    buf: &[u8],
    spans: &[HeaderSpan],
) -> Result<List<Header>, Memory>
    requires { All (IsHeaderWithin (length buf.now)) spans.now }
    ensures { IfOk result (λ headers. map header_parts headers ≡ map (header_bytes buf.now) spans.now) }
{
    let mut headers = List::with_capacity(alloc, spans.len())?;
    for span in spans {
        let name = characters(alloc, span.name.of(buf))?;
        let value = List::from_slice(alloc, span.value.of(buf))?;
        headers.push(Header { name, value })?;
    }
    Ok(headers)
}
