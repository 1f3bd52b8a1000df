//! Answers onto a connection.
#![tactic(auto)]

ghost use Rattle.std.specs.Prelude.{◌≡◌, ◌<◌, ◌≤◌, false, true, OnErr, OnOk};
ghost use Rattle.asp_io.specs.Faults.{HasCause, failure};
ghost use Rattle.asp_io.specs.Copying.{AddsPart};
ghost use Rattle.asp_io.specs.Sink.{with_bytes};
ghost use Rattle.asp_response.specs.AnswerText.{IsAnswerText};
ghost use Rattle.asp_response.specs.Fixed.{status_answer_of};
ghost use Rattle.asp_serve.specs.Steps as spec;

use asp_io::{Failed, Link};
use asp_job::Answer;
use asp_response::{answer_bytes, refusal};
use std::alloc::Global;

/// How far a text was written.
#[derive(Clone, Copy, Debug, PartialEq, Eq)]
pub enum Sent {
    Whole,
    /// A write failed.
    Fault,
    /// Memory ran out before the first write.
    Memory,
}

/// Writes the whole of `piece`, by as many calls as the connection needs.
fn send_all<L: Link>(link: &mut L, piece: &[u8]) -> Result<(), Failed>
    ensures ok { OnOk result (L.held link.new ≡ with_bytes (L.held link.old) piece.now) }
    ensures err { OnErr result (AddsPart (L.held link.old) (L.held link.new) piece.now) }
    ensures same { L.left link.new ≡ L.left link.old }
    ensures cause { HasCause failure (L.faults link.old) (L.faults link.new) result }
{
    let mut taken = 0;
    while taken < piece.len() {
        taken += link.write(&piece[taken..])? as usize;
    }
    Ok(())
}

/// Writes the bytes of an answer at a moment.
pub fn send_answer<L: Link>(alloc: Global, link: &mut L, answer: &Answer, moment: u64) -> Sent
    ensures { spec.Sends
        (record { left = L.left link.old; held = L.held link.old; faults = L.faults link.old })
        (record { left = L.left link.new; held = L.held link.new; faults = L.faults link.new })
        (IsAnswerText answer.now moment) result }
{
    let Ok(bytes) = answer_bytes(alloc, answer, moment) else {
        return Sent::Memory;
    };
    match send_all(link, bytes.as_slice()) {
        Ok(()) => Sent::Whole,
        Err(Failed) => Sent::Fault,
    }
}

/// Writes the fixed answer of a status that refuses what came.
pub fn send_refusal<L: Link>(alloc: Global, link: &mut L, status: u16, second: u64) -> Sent
    requires most { status < 1000 }
    requires least { 100 ≤ status }
    ensures { spec.Sends
        (record { left = L.left link.old; held = L.held link.old; faults = L.faults link.old })
        (record { left = L.left link.new; held = L.held link.new; faults = L.faults link.new })
        (IsAnswerText (status_answer_of status false true) second) result }
{
    match refusal(alloc, status) {
        Ok(answer) => send_answer(alloc, link, &answer, second),
        Err(_) => Sent::Memory,
    }
}
