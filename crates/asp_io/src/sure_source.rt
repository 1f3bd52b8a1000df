//! A source in memory that never fails.
ghost use Rattle.std.specs.Prelude.{◌≡◌, ◌++◌, Some, Ok, IfOk, drop, length, take};
ghost use Rattle.asp_io.specs.Source.{Reads, moved};

use crate::fault::Failed;
use crate::slices::copy_start;
use crate::source::Source;
use std::marker::Model;
use vb_value::Bytes;

/// A source in memory, which contracts see as the bytes left.
#[derive(Debug, Drop)]
pub struct SureSource {
    bytes: Bytes,
    place: usize,
}

impl Model for SureSource {
    ghost use Rattle.std.specs.Prelude.{ℕ, ◌≤◌, List, drop, length};

    ghost Value = { List ℕ };

    ghost view = { λ source. drop source.place source.bytes };

    ghost invariant = { λ source. source.place ≤ length source.bytes };
}

impl SureSource {
    /// The source of these bytes.
    pub fn new(bytes: Bytes) -> SureSource
        ensures { result ≡ bytes }
    {
        SureSource { bytes, place: 0 }
    }
}

impl Source for SureSource {
    ghost left = { λ source. Some source };

    ghost faults = { λ _. 0 };

    fn read(&mut self, into: &mut [u8]) -> Result<u32, Failed>
        ensures count { result ≡ Ok (moved (length self.old) (length into.old)) }
        ensures ok { IfOk result (Reads (Some self.old) (Some self.new) into.old into.new) }
    {
        let count = copy_start(&self.bytes.as_slice()[self.place..], into);
        self.place += count as usize;
        Ok(count)
    }
}
