//! A sink in memory with room for so many bytes and with calls that fail.
ghost use Rattle.std.specs.Prelude.{◌≡◌, ◌≤◌, ◌↔◌, Some, [], IfOk, IsErr, IsTrue, OnErr};
ghost use Rattle.vb_value.specs.Outcome.{Gives};
ghost use Rattle.asp_io.specs.FaultPlan.{after_call, fails_next};
ghost use Rattle.asp_io.specs.Faults.{HasCause, failure};
ghost use Rattle.asp_io.specs.MemSink.{after_write, write_answer};
ghost use Rattle.asp_io.specs.Sink.{Writes};

use crate::fault::Failed;
use crate::fault_plan::FaultPlan;
use crate::sink::Sink;
use crate::slices::copy_start;
use std::alloc::Global;
use std::marker::Model;
use vb_value::{List, Memory};

/// A sink in memory. Its room is made once, so a write takes no memory.
///
/// A write takes as many bytes as there is room for, so it may take less than the piece.
#[derive(Debug, Drop)]
pub struct MemSink {
    bytes: Vec<u8>,
    used: usize,
    plan: FaultPlan,
}

impl Model for MemSink {
    ghost use Rattle.std.specs.Prelude.{◌-◌, ◌≤◌, take, vec_len};
    ghost use Rattle.asp_io.specs.MemSink.{SinkState};

    ghost Value = { SinkState };

    ghost view = { λ sink. record {
      held = take sink.used sink.bytes.items;
      room = vec_len sink.bytes - sink.used;
      plan = sink.plan;
    } };

    ghost invariant = { λ sink. sink.used ≤ vec_len sink.bytes };
}

impl MemSink {
    /// A sink that holds nothing and has room for `room` bytes, whose calls with a number of `fails` are
    /// to fail.
    pub fn new(alloc: Global, room: usize, fails: List<u64>) -> Result<MemSink, Memory>
        ensures { Gives result (record {
          held = [];
          room = room;
          plan = record { fails = fails; calls = 0; faults = 0 };
        }) }
    {
        Ok(MemSink {
            bytes: vec![in alloc; 0u8; room]?,
            used: 0,
            plan: FaultPlan::new(fails),
        })
    }

    /// Counts a call, and a fault where that call is to fail.
    pub(crate) fn next_call(&mut self) -> Result<(), Failed>
        ensures fails { IsErr result ↔ IsTrue (fails_next self.old.plan) }
        ensures after { self.new ≡ record self.old { plan = after_call self.old.plan } }
        ensures cause { HasCause failure self.old.plan.faults self.new.plan.faults result }
    {
        self.plan.next_call()
    }

    /// The bytes that it holds.
    pub fn held(&self) -> &[u8]
        ensures { result.now ≡ self.now.held }
    {
        &self.bytes[..self.used]
    }
}

impl Sink for MemSink {
    ghost held = { λ sink. Some sink.held };

    ghost faults = { λ sink. sink.plan.faults };

    fn write(&mut self, piece: &[u8]) -> Result<u32, Failed>
        ensures answer { result ≡ write_answer self.old piece.now }
        ensures after { self.new ≡ after_write self.old piece.now result }

        // The same in a sink's own words.
        ensures ok { IfOk result (Writes (Some self.old.held) (Some self.new.held) piece.now) }
        ensures err { OnErr result (self.new.held ≡ self.old.held) }
        ensures cause { HasCause failure self.old.plan.faults self.new.plan.faults result }
    {
        self.plan.next_call()?;
        if self.bytes.len() == self.used && !piece.is_empty() {
            return Err(self.plan.count_fault());
        }
        let count = copy_start(piece, &mut self.bytes[self.used..]);
        self.used += count as usize;
        Ok(count)
    }
}
