//! Reads and writes over std's streams.
ghost use Rattle.std.specs.Prelude.{◌≡◌, ◌≤◌, ◌<◌, Ok, IfOk, IfSome, OnOk, false, length, take};
ghost use Rattle.std.specs.Io.{StartsWith, appended_bytes};
ghost use Rattle.std.specs.Io.KnownBytes.{Appends, Consumes, IsAtEnd};

use crate::fault::{Failed, IoStop};
use std::alloc::Global;
use std::io::{ErrorKind, Read, Write};
use vb_value::{Bytes, List};

/// How many bytes a read asks for at most.
const CHUNK: usize = 4096;

/// The first `most` bytes that `from` gives. A read that was interrupted is tried again.
#[tactic(auto, using(crate::proofs::Streams::consumes_more, crate::proofs::Streams::read_is_start))]
pub fn read_start<S: Read>(alloc: Global, from: &mut S, most: u32) -> Result<Bytes, IoStop>
    ensures within { IfOk result (λ bytes. length bytes ≤ most) }
    ensures bytes { IfOk result (λ bytes. IfSome (S.remaining from.old) (λ all. bytes ≡ take most all)) }
{
    let mut bytes = List::new(alloc);
    for _ in 0..u64::MAX {
        if !read_more(from, most, &mut bytes)? {
            return Ok(bytes);
        }
    }
    Err(IoStop::Failed)
}

/// Adds the bytes of one read to `bytes`, which are to be `most` at the most. Whether there may be more.
fn read_more<S: Read>(from: &mut S, most: u32, bytes: &mut Bytes) -> Result<bool, IoStop>
    requires { length bytes.old ≤ most }
    ensures within { length bytes.new ≤ most }
    ensures kept { StartsWith bytes.new bytes.old }
    ensures taken { OnOk result (Consumes (S.remaining from.old) (S.remaining from.new)
        (appended_bytes bytes.old bytes.new)) }
    ensures end { result ≡ Ok false → length bytes.new < most → IsAtEnd (S.remaining from.new) }
{
    let mut chunk = [0u8; CHUNK];
    let room = CHUNK.min(most as usize - bytes.len());
    match from.read(&mut chunk[..room]) {
        Ok(0) => Ok(false),
        Ok(count) => {
            bytes.append_slice(&chunk[..count])?;
            Ok(true)
        }
        Err(error) if error.kind() == ErrorKind::Interrupted => Ok(true),
        Err(error) => Err(error.into()),
    }
}

/// Writes some first bytes of `piece` by one call, at least one where there is one.
pub fn write_start<W: Write>(to: &mut W, piece: &[u8]) -> Result<u32, Failed>
    ensures within { IfOk result (λ count. count ≤ length piece.now) }
    ensures some { IfOk result (λ count. 0 < length piece.now → 0 < count) }
    ensures bytes { IfOk result (λ count. Appends (W.contents to.old) (W.contents to.new) (take count piece.now)) }
{
    let piece = &piece[..piece.len().min(u32::MAX as usize)];
    match to.write(piece) {
        Ok(0) if !piece.is_empty() => Err(Failed),
        Ok(count) => Ok(count as u32),
        Err(_) => Err(Failed),
    }
}
