//! The entries of a journal, line by line.
ghost use Rattle.std.specs.Prelude.{◌≡◌, ◌++◌, IsTrue};
ghost use Rattle.std.specs.Result.{OnOk};
ghost use Rattle.vb_value.specs.Outcome.{Adds, Gives};
ghost use Rattle.asp_record.specs.Entries as spec;
ghost use Rattle.asp_record.specs.Journal as journal;
ghost use Rattle.asp_record.specs.Lines as lines;
ghost use Rattle.asp_record.specs.Ranged.{IsRanged, IsRangedWhat};

use crate::call::{push_call, push_reply};
use crate::fields::{push_field, push_number};
use asp_job::{EndKind, Entry, What, Work};
use std::alloc::Global;
use vb_value::{AppCall, AppReply, Bytes, Memory};

/// Adds the letter of an entry, its lane, and a number.
fn push_numbered(bytes: &mut Bytes, letter: &[u8], lane: u32, number: u64) -> Result<(), Memory>
    ensures { Adds result bytes.old bytes.new (letter.now ++ lines.number lane ++ lines.number number) }
{
    bytes.append_slice(letter)?;
    push_number(bytes, u64::from(lane))?;
    push_number(bytes, number)
}

/// Adds what a run of the host's own does.
fn push_work(bytes: &mut Bytes, work: &Work, key: u32) -> Result<(), Memory>
    ensures { Adds result bytes.old bytes.new (spec.queued work.now key) }
{
    match work {
        Work::Start => bytes.append_slice(b"start"),
        Work::SessionEnd => {
            bytes.append_slice(b"end")?;
            push_number(bytes, u64::from(key))
        }
        Work::Stop => bytes.append_slice(b"stop"),
        Work::Page(_) => Ok(()),
    }
}

fn kind_word(kind: EndKind) -> &'static [u8]
    ensures { result.now ≡ spec.kind_text kind }
{
    match kind {
        EndKind::Done => b"done",
        EndKind::Memory => b"memory",
        EndKind::JournalFull => b"journal",
    }
}

fn push_queue(bytes: &mut Bytes, lane: u32, run: u32, work: &Work, key: u32) -> Result<(), Memory>
    ensures { Adds result bytes.old bytes.new (spec.queue_text lane run work.now key) }
{
    push_numbered(bytes, b"Q", lane, u64::from(run))?;
    bytes.append_slice(b" ")?;
    push_work(bytes, work, key)
}

fn push_app(
    bytes: &mut Bytes,
    lane: u32,
    run: u32,
    call: &AppCall,
    reply: &AppReply,
) -> Result<(), Memory>
    ensures text { Adds result bytes.old bytes.new (spec.app_text lane run call.now reply.now) }
    ensures ranged { OnOk result (IsTrue (journal.call_ranged call.now) × IsTrue (journal.reply_ranged reply.now)) }
{
    push_numbered(bytes, b"P", lane, u64::from(run))?;
    bytes.append_slice(b" ")?;
    push_call(bytes, call)?;
    bytes.append_slice(b" ")?;
    push_reply(bytes, reply)
}

/// Adds a number and another behind it.
fn push_two(bytes: &mut Bytes, first: u64, second: u64) -> Result<(), Memory>
    ensures { Adds result bytes.old bytes.new (lines.number first ++ lines.number second) }
{
    push_number(bytes, first)?;
    push_number(bytes, second)
}

/// Adds what a lane did, without the end of its line.
fn push_what(bytes: &mut Bytes, lane: u32, what: &What) -> Result<(), Memory>
    ensures text { Adds result bytes.old bytes.new (spec.what_text lane what.now) }
    ensures ranged { OnOk result (IsRangedWhat what.now) }
{
    match what {
        What::Queue { run, work, key } => push_queue(bytes, lane, *run, work, *key),
        What::Admit { run, key, job, .. } => {
            push_numbered(bytes, b"A", lane, u64::from(*run))?;
            push_two(bytes, u64::from(*key), job.moment)
        }
        What::Refuse { run, job } => {
            push_numbered(bytes, b"X", lane, u64::from(*run))?;
            push_number(bytes, job.moment)
        }
        What::Tick { moment } => push_numbered(bytes, b"T", lane, *moment),
        What::Begin { run, serial } => {
            push_numbered(bytes, b"B", lane, u64::from(*run))?;
            push_number(bytes, u64::from(*serial))
        }
        What::App { run, call, reply } => push_app(bytes, lane, *run, call, reply),
        What::End {
            run,
            kind,
            status,
            length,
            made,
            finished,
        } => {
            push_numbered(bytes, b"E", lane, u64::from(*run))?;
            push_field(bytes, kind_word(*kind))?;
            push_two(bytes, u64::from(*status), u64::from(*length))?;
            push_two(bytes, u64::from(*made), u64::from(*finished))
        }
        What::Stop => {
            bytes.append_slice(b"S")?;
            push_number(bytes, u64::from(lane))
        }
        What::Take { .. } | What::Halt => Ok(()),
    }
}

fn has_line(what: &What) -> bool
    ensures { result ≡ spec.has_line what.now }
{
    !matches!(what, What::Take { .. } | What::Halt)
}

/// The line of an entry of a journal, with its line feed. An answer that was handed out, and a halt, have none.
pub fn entry_line(alloc: Global, entry: &Entry) -> Result<Bytes, Memory>
    ensures text { Gives result (spec.entry_text entry.now) }
    ensures ranged { OnOk result (IsRanged entry.now) }
{
    let lane = entry.lane;
    let mut bytes = Bytes::new(alloc);
    if has_line(&entry.what) {
        push_what(&mut bytes, lane, &entry.what)?;
        bytes.append_slice(b"\n")?;
    }
    Ok(bytes)
}
