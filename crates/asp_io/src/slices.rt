//! Bytes from one slice to another.
ghost use Rattle.std.specs.Prelude.{◌≡◌, ◌++◌, drop, length, take};
ghost use Rattle.asp_io.specs.Source.{moved};

/// Puts the first bytes of `from` at the front of `into`, as many as there are and fit, and says how many.
pub fn copy_start(from: &[u8], into: &mut [u8]) -> u32
    ensures count { result ≡ moved (length from.now) (length into.old) }
    ensures into { into.new ≡ take result from.now ++ drop result into.old }
{
    let count = from.len().min(into.len()).min(u32::MAX as usize);
    into[..count].copy_from_slice(&from[..count]);
    count as u32
}
