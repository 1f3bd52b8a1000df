//! Standard input as a source.
ghost use Rattle.std.specs.Prelude.{◌≡◌, ◌≤◌, ◌++◌, None, IfOk, drop, length, take};

use crate::fault::Failed;
use crate::slices::copy_start;
use crate::source::Source;
use std::io::{ErrorKind, Read};
use std::marker::Model;

/// How many bytes a read asks for at most.
const CHUNK: usize = 4096;

/// Standard input, or another reader of std, which contracts see as its count of faults. A read that was interrupted is
/// tried again.
#[derive(Drop)]
pub struct StdIn<S> {
    reader: S,
    faults: u64,
}

impl<S> Model for StdIn<S> {
    ghost use Rattle.std.specs.Prelude.{ℕ};

    ghost Value = { ℕ };

    ghost view = { λ source. source.faults };
}

/// How many next bytes a reader has put at the front of `chunk`.
fn read_chunk<S: Read>(from: &mut S, chunk: &mut [u8]) -> Result<usize, Failed>
    ensures { IfOk result (λ count. count ≤ length chunk.old) }
{
    for _ in 0..u64::MAX {
        match from.read(chunk) {
            Ok(count) => return Ok(count),
            Err(error) if error.kind() == ErrorKind::Interrupted => {}
            Err(_) => return Err(Failed),
        }
    }
    Err(Failed)
}

/// Puts the next bytes of a reader at the front of `into`, and says how many.
pub(crate) fn read_some<S: Read>(from: &mut S, into: &mut [u8]) -> Result<u32, Failed>
    ensures within { IfOk result (λ count. count ≤ length into.old) }
    ensures kept { IfOk result (λ count. into.new ≡ take count into.new ++ drop count into.old) }
{
    let mut chunk = [0u8; CHUNK];
    let room = CHUNK.min(into.len());
    let count = read_chunk(from, &mut chunk[..room])?;
    Ok(copy_start(&chunk[..count], into))
}

impl<S> StdIn<S> {
    /// What `reader` gives, as the `reader()` of a runtime.
    pub fn new(reader: S) -> StdIn<S>
        ensures { result ≡ 0 }
    {
        StdIn { reader, faults: 0 }
    }

    /// How many reads have failed, at most 2^64 - 1.
    pub fn faults(&self) -> u64
        ensures { result ≡ self.now }
    {
        self.faults
    }
}

impl<S: Read> Source for StdIn<S> {
    ghost left = { λ _. None };

    ghost faults = { λ source. source };

    fn read(&mut self, into: &mut [u8]) -> Result<u32, Failed> {
        let count = read_some(&mut self.reader, into);
        if count.is_err() {
            self.faults = self.faults.saturating_add(1);
        }
        count
    }
}
