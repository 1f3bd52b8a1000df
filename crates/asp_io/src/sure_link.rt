//! A connection in memory that never fails.
ghost use Rattle.std.specs.Prelude.{◌≡◌, ◌-◌, ◌^◌, None, Some, Ok, IfOk, length, min};
ghost use Rattle.asp_io.specs.Source.{Reads, moved};

use crate::fault::Failed;
use crate::link::Link;
use crate::sink::Sink;
use crate::source::Source;
use crate::sure_sink::SureSink;
use crate::sure_source::SureSource;
use std::marker::Model;
use vb_value::Bytes;

/// A connection in memory, which contracts see as the bytes left. It keeps nothing of what is written.
#[derive(Debug, Drop)]
pub struct SureLink {
    source: SureSource,
}

impl Model for SureLink {
    ghost use Rattle.std.specs.Prelude.{ℕ, List};

    ghost Value = { List ℕ };

    ghost view = { λ link. link.source };
}

impl SureLink {
    /// The connection on which these bytes come.
    pub fn new(bytes: Bytes) -> SureLink
        ensures { result ≡ bytes }
    {
        SureLink {
            source: SureSource::new(bytes),
        }
    }
}

impl Link for SureLink {
    ghost left = { λ link. Some link };

    ghost held = { λ _. None };

    ghost faults = { λ _. 0 };

    fn read(&mut self, into: &mut [u8]) -> Result<u32, Failed>
        ensures count { result ≡ Ok (moved (length self.old) (length into.old)) }
        ensures ok { IfOk result (Reads (Some self.old) (Some self.new) into.old into.new) }
    {
        self.source.read(into)
    }

    fn write(&mut self, piece: &[u8]) -> Result<u32, Failed>
        ensures count { result ≡ Ok (min (length piece.now) (2 ^ 32 - 1)) }
        ensures same { self.new ≡ self.old }
    {
        SureSink.write(piece)
    }
}
