//! A connection in memory that gives and takes few bytes at a time, and of which a read or a write may fail.
ghost use Rattle.std.specs.Prelude.{◌≡◌, ◌≤◌, ◌<◌, ◌++◌, None, drop, length, take};
ghost use Rattle.asp_io.specs.Faults.{counted};
ghost use Rattle.asp_io.specs.Source.{moved};

use crate::plan::Plan;
use asp_io::{Failed, Link};
use std::mem::replace;
use vb_value::Bytes;

/// A connection in memory. Contracts see no more of it than its count of faults.
#[derive(Drop)]
pub struct Disturbed {
    coming: Bytes,
    /// How many of these bytes were read.
    place: usize,
    plan: Plan,
    reads: u32,
    writes: u32,
    written: Bytes,
    faults: u64,
}

impl Disturbed {
    /// The connection on which these bytes come, before the first call.
    pub fn new(coming: Bytes, plan: Plan) -> Disturbed {
        let written = Bytes::new(*coming.allocator());
        Disturbed {
            coming,
            place: 0,
            plan,
            reads: 0,
            writes: 0,
            written,
            faults: 0,
        }
    }

    /// What was written since this was last asked.
    pub fn take_written(&mut self) -> Bytes {
        let none = Bytes::new(*self.written.allocator());
        replace(&mut self.written, none)
    }

    fn fail(&mut self) -> Failed
        ensures faults { self.new.faults ≡ counted self.old.faults }
        ensures later { self.old.faults ≤ self.new.faults }
    {
        self.faults = self.faults.saturating_add(1);
        Failed
    }
}

/// Puts the first bytes of `from` at the front of `into`, as many as there are and fit, and says how many.
fn copy_start(from: &[u8], into: &mut [u8]) -> u32
    ensures count { result ≡ moved (length from.now) (length into.old) }
    ensures into { into.new ≡ take result from.now ++ drop result into.old }
{
    let count = from.len().min(into.len()).min(u32::MAX as usize);
    into[..count].copy_from_slice(&from[..count]);
    count as u32
}

/// The same of at most so many bytes.
fn copy_most(from: &[u8], into: &mut [u8], most: usize) -> u32
    ensures within { result ≤ length into.old }
    ensures kept { into.new ≡ take result into.new ++ drop result into.old }
{
    copy_start(&from[..from.len().min(most)], into)
}

/// How many bytes of a piece are taken, where at most so many are: at least one where there is one.
fn count_taken(piece: &[u8], most: usize) -> u32
    ensures within { result ≤ length piece.now }
    ensures some { 0 < length piece.now → 0 < result }
{
    piece.len().min(most.max(1)).min(u32::MAX as usize) as u32
}

impl Link for Disturbed {
    ghost left = { λ _. None };

    ghost held = { λ _. None };

    ghost faults = { λ link. link.faults };

    fn read(&mut self, into: &mut [u8]) -> Result<u32, Failed> {
        self.reads = self.reads.saturating_add(1);
        if self.reads == self.plan.failing_read {
            return Err(self.fail());
        }
        let most = if self.reads == 1 {
            self.plan.first
        } else {
            self.plan.later
        };
        let left = self.coming.as_slice().get(self.place..).unwrap_or(&[]);
        let count = copy_most(left, into, most);
        self.place = self.place.saturating_add(count as usize);
        Ok(count)
    }

    fn write(&mut self, piece: &[u8]) -> Result<u32, Failed> {
        self.writes = self.writes.saturating_add(1);
        if self.writes == self.plan.failing_write {
            return Err(self.fail());
        }
        let count = count_taken(piece, self.plan.most_write);
        if self.written.append_slice(&piece[..count as usize]).is_err() {
            return Err(self.fail());
        }
        Ok(count)
    }
}
