//! All that the bytes of a connection give, in pieces.
ghost use Rattle.std.specs.Prelude.{◌≤◌, IfOk, All, length};
ghost use Rattle.http_front.specs.Reader.{IsStreamOf, TakesAll, joined};

use crate::reader::{Next, Reader};
use asp_job::Request;
use std::alloc::Global;
use vb_value::{List, Memory};

/// What comes after the last request.
#[derive(Clone, Copy, Debug, PartialEq, Eq)]
pub enum End {
    /// More bytes are wanted.
    More,
    /// The status that refuses what follows.
    Refused(u16),
}

/// Takes each request that is whole, and puts it behind those before.
pub fn take_requests(reader: &mut Reader, requests: &mut List<Request>) -> Result<End, Memory>
    ensures { IfOk result (TakesAll reader.old reader.new requests.old requests.new) }
{
    loop {
        match reader.next()? {
            Next::Request(request) => requests.push(request)?,
            Next::More => return Ok(End::More),
            Next::Refused(status) => return Ok(End::Refused(status)),
        }
    }
}

/// Feeds the pieces in turn. The requests are those of their join, however it is cut.
pub fn read_pieces(alloc: Global, pieces: &[&[u8]]) -> Result<(List<Request>, End), Memory>
    requires { All (λ piece. length piece.now ≤ 65536) pieces.now }
    ensures { IfOk result (λ read. IsStreamOf (joined pieces.now) read.0 read.1) }
{
    let mut reader = Reader::new(alloc);
    let mut requests = List::new(alloc);
    for piece in pieces {
        reader.feed(piece)?;
        match take_requests(&mut reader, &mut requests)? {
            End::More => {}
            End::Refused(status) => return Ok((requests, End::Refused(status))),
        }
    }
    Ok((requests, End::More))
}
