//! What a source has.
ghost use Rattle.std.specs.Prelude.{◌≡◌, ◌≤◌, ◌<◌, Ok, IfOk, IfSome, OnOk, [], true, false, length};
ghost use Rattle.asp_io.specs.Faults.{HasCause};
ghost use Rattle.asp_host.specs.Input.{AreRead, Comes, most_read};

use asp_io::{IoStop, Source};
use std::alloc::Global;
use vb_value::{Bytes, List};

/// So many bytes are read of a source at the most: 66 MiB. They have all of each line that begins within 64.
const MOST_READ: usize = 69_206_016;

/// So many bytes are asked for at a time.
const PIECE: usize = 65_536;

/// All bytes of the source, or the first of them where there are more.
pub fn read_source<S: Source>(alloc: Global, source: &mut S) -> Result<Bytes, IoStop>
    ensures read { IfOk result (AreRead (S.left source.old) (S.left source.new)) }
    ensures cause { HasCause IoStop.Failed (S.faults source.old) (S.faults source.new) result }
{
    let mut bytes = List::new(alloc);
    while bytes.len() < MOST_READ {
        if !read_more(source, &mut bytes)? {
            return Ok(bytes);
        }
    }
    Ok(bytes)
}

/// Adds the bytes of one read. Whether some came.
fn read_more<S: Source>(source: &mut S, bytes: &mut Bytes) -> Result<bool, IoStop>
    requires { length bytes.old < most_read }
    ensures within { length bytes.new ≤ most_read }
    ensures came { OnOk result (Comes (S.left source.old) (S.left source.new) bytes.old bytes.new) }
    ensures some { result ≡ Ok true → length bytes.old < length bytes.new }
    ensures ends { result ≡ Ok false → IfSome (S.left source.new) (λ rest. rest ≡ []) }
    ensures cause { HasCause IoStop.Failed (S.faults source.old) (S.faults source.new) result }
{
    let mut piece = [0u8; PIECE];
    let room = PIECE.min(MOST_READ - bytes.len());
    let count = source.read(&mut piece[..room])? as usize;
    bytes.append_slice(&piece[..count])?;
    Ok(count > 0)
}
