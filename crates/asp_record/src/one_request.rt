//! Whether bytes are one request.
ghost use Rattle.std.specs.Prelude.{◌≡◌, ◌+◌, [], length, IfOk, IsTrue};
ghost use Rattle.std.specs.Bool.{Decides};
ghost use Rattle.http_front.specs.Reader.{Wants};
ghost use Rattle.asp_record.specs.Recorded.{IsOneRequest};

use http_front::{Next, Reader, front_stays, one_front};
use vb_value::Memory;

/// How many bytes a reader takes at once.
const PIECE: usize = 65_536;

/// Whether neither a reader nor what is not fed yet has bytes.
fn is_all_taken(reader: &Reader, rest: &[u8]) -> bool
    ensures { Decides result (length reader.now + length rest.now ≡ 0) }
{
    reader.rest() as usize + rest.len() == 0
}

/// Whether bytes are one request, and nothing more. A reader that has nothing reads them, and has nothing again where
/// they are.
pub fn is_one_request(reader: &mut Reader, bytes: &[u8]) -> Result<bool, Memory>
    requires empty { reader.old ≡ [] }
    requires wants { Wants reader.old }
    ensures tells { IfOk result (λ yes. Decides yes (IsOneRequest bytes.now)) }
    ensures kept { IfOk result (λ yes. IsTrue yes → reader.new ≡ []) }
{
    one_front();
    front_stays();
    let mut rest = bytes;
    while 0 < rest.len() {
        let (piece, later) = rest.split_at(rest.len().min(PIECE));
        rest = later;
        reader.feed(piece)?;
        match reader.next()? {
            Next::Request(_) => return Ok(is_all_taken(reader, rest)),
            Next::Refused(_) => return Ok(false),
            Next::More => {}
        }
    }
    Ok(false)
}
