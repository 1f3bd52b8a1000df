//! A connection in memory with calls that fail.
ghost use Rattle.std.specs.Prelude.{◌≡◌, ◌↔◌, Some, [], IfOk, IsErr, IsTrue, OnErr, length};
ghost use Rattle.vb_value.specs.Outcome.{Gives};
ghost use Rattle.asp_io.specs.FaultPlan.{after_call, fails_next};
ghost use Rattle.asp_io.specs.Faults.{HasCause, failure};
ghost use Rattle.asp_io.specs.MemSink.{after_write, write_answer};
ghost use Rattle.asp_io.specs.Sink.{Writes};
ghost use Rattle.asp_io.specs.Source.{Reads, moved};

use crate::fault::Failed;
use crate::link::Link;
use crate::mem_sink::MemSink;
use crate::sink::Sink;
use crate::source::Source;
use crate::sure_source::SureSource;
use std::alloc::Global;
use vb_value::{Bytes, List, Memory};

/// A connection in memory with calls that fail. Reads and writes are counted together, by the plan of its sink.
#[derive(Debug, Drop)]
pub struct MemLink {
    /// The bytes that come.
    pub source: SureSource,
    /// What is written, with the plan of both.
    pub sink: MemSink,
}

impl MemLink {
    /// The connection on which these bytes come and that has room for `room` bytes, before the first call; its calls with
    /// a number of `fails` are to fail.
    pub fn new(
        alloc: Global,
        bytes: Bytes,
        room: usize,
        fails: List<u64>,
    ) -> Result<MemLink, Memory>
        ensures { Gives result (record {
          source = bytes;
          sink = record { held = []; room = room; plan = record { fails = fails; calls = 0; faults = 0 } };
        }) }
    {
        Ok(MemLink {
            source: SureSource::new(bytes),
            sink: MemSink::new(alloc, room, fails)?,
        })
    }
}

impl Link for MemLink {
    ghost left = { λ link. Some link.source };

    ghost held = { λ link. Some link.sink.held };

    ghost faults = { λ link. link.sink.plan.faults };

    fn read(&mut self, into: &mut [u8]) -> Result<u32, Failed>
        ensures count { IfOk result (λ count. count ≡ moved (length self.old.source) (length into.old)) }
        ensures ok { IfOk result (Reads (Some self.old.source) (Some self.new.source) into.old into.new) }
        ensures err { OnErr result (self.new.source ≡ self.old.source) }

        // The calls that the plan lists fail, and no other read.
        ensures fails { IsErr result ↔ IsTrue (fails_next self.old.sink.plan) }
        ensures after { self.new.sink ≡ record self.old.sink { plan = after_call self.old.sink.plan } }
        ensures cause { HasCause failure self.old.sink.plan.faults self.new.sink.plan.faults result }
    {
        self.sink.next_call()?;
        self.source.read(into)
    }

    fn write(&mut self, piece: &[u8]) -> Result<u32, Failed>
        ensures answer { result ≡ write_answer self.old.sink piece.now }
        ensures after { self.new ≡ record self.old { sink = after_write self.old.sink piece.now result } }

        // The same in a connection's own words.
        ensures ok { IfOk result (Writes (Some self.old.sink.held) (Some self.new.sink.held) piece.now) }
        ensures err { OnErr result (self.new.sink.held ≡ self.old.sink.held) }
        ensures cause { HasCause failure self.old.sink.plan.faults self.new.sink.plan.faults result }
    {
        self.sink.write(piece)
    }
}
