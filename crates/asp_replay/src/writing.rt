//! What a replay writes.
#![tactic(auto)]

ghost use Rattle.std.specs.Prelude.{◌≡◌, IfOk};
ghost use Rattle.std.specs.List.{flat_map};
ghost use Rattle.std.specs.Result.{OnOk};
ghost use Rattle.std.specs.String.{string_bytes};
ghost use Rattle.asp_io.specs.Faults.{HasCause};
ghost use Rattle.asp_record.specs.Entries.{entry_text};
ghost use Rattle.asp_record.specs.Ranged.{AreRanged};
ghost use Rattle.asp_feed.specs.Shown as spec;
ghost use Rattle.asp_replay.specs.Underway as way;

use crate::stop::FeedStop;
use asp_io::{Failed, Sink, write_all};
use asp_job::{Answer, Entry};
use asp_record::entry_line;
use asp_response::answer_bytes;
use std::alloc::Global;
use vb_value::{Bytes, Memory};

/// Writes a piece whole.
fn write_piece<K: Sink>(sink: &mut K, piece: &[u8]) -> Result<(), FeedStop>
    ensures wrote { way.HasWritten result (K.held sink.old) (K.held sink.new) piece.now }
    ensures cause { HasCause FeedStop.WriteFault (K.faults sink.old) (K.faults sink.new) result }
{
    match write_all(sink, piece) {
        Ok(()) => Ok(()),
        Err(Failed) => Err(FeedStop::WriteFault),
    }
}

/// The line before an answer of that length.
fn head_of(alloc: Global, run: u32, length: usize) -> Result<String, Memory>
    ensures { IfOk result (λ head. string_bytes head ≡ spec.head_line run length) }
{
    Ok(format!(in alloc; "answer {run} {length}\n")?)
}

/// The record of an answer.
fn record_of(alloc: Global, run: u32, moment: u64, answer: &Answer) -> Result<Bytes, Memory>
    ensures { IfOk result (spec.IsRecord (record { run = run; moment = moment; answer = answer.now })) }
{
    let text = answer_bytes(alloc, answer, moment)?;
    let head = head_of(alloc, run, text.len())?;
    let mut bytes = Bytes::from_slice(alloc, head.as_bytes())?;
    bytes.append_slice(text.as_slice())?;
    bytes.append_slice(b"\n")?;
    Ok(bytes)
}

/// Writes the record of an answer, as one piece.
pub fn write_record<K: Sink>(
    alloc: Global,
    sink: &mut K,
    run: u32,
    moment: u64,
    answer: &Answer,
) -> Result<(), FeedStop>
    ensures wrote { way.WritesRecord (record { run = run; moment = moment; answer = answer.now })
        result (K.held sink.old) (K.held sink.new) }
    ensures cause { HasCause FeedStop.WriteFault (K.faults sink.old) (K.faults sink.new) result }
{
    let bytes = record_of(alloc, run, moment, answer)?;
    write_piece(sink, bytes.as_slice())
}

/// Writes the lines of the entries, each as one piece.
pub fn write_lines<K: Sink>(alloc: Global, sink: &mut K, journal: &[Entry]) -> Result<(), FeedStop>
    ensures wrote { way.WritesText (flat_map entry_text journal.now) result (K.held sink.old) (K.held sink.new) }
    ensures cause { HasCause FeedStop.WriteFault (K.faults sink.old) (K.faults sink.new) result }
    ensures ranged { OnOk result (AreRanged journal.now) }
{
    for entry in journal {
        let line = entry_line(alloc, entry)?;
        write_piece(sink, line.as_slice())?;
    }
    Ok(())
}

/// How many answers there were, as a line.
fn done_string(alloc: Global, count: u32) -> Result<String, Memory>
    ensures { IfOk result (λ line. string_bytes line ≡ spec.done_line count) }
{
    Ok(format!(in alloc; "done {count}\n")?)
}

/// Writes how many answers there were.
pub fn write_done<K: Sink>(alloc: Global, sink: &mut K, count: u32) -> Result<(), FeedStop>
    ensures wrote { way.WritesText (spec.done_line count) result (K.held sink.old) (K.held sink.new) }
    ensures cause { HasCause FeedStop.WriteFault (K.faults sink.old) (K.faults sink.new) result }
{
    let line = done_string(alloc, count)?;
    write_piece(sink, line.as_bytes())
}
