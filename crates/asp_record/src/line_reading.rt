//! The lines of a journal, read from the front of bytes.
ghost use Rattle.std.specs.Prelude.{IfOk};
ghost use Rattle.asp_record.specs.Fields.{Reads};
ghost use Rattle.asp_record.specs.ReadingLines as spec;

use crate::call_reading::{call_at, reply_at};
use crate::journal::{Line, LineWhat};
use crate::scanning::{behind, marked_at};
use asp_job::{EndKind, Work};
use std::alloc::Global;
use vb_value::Memory;

/// The number of 32 bits at the front of bytes, with a word behind it.
#[tactic(auto, unfolding(crate::specs::ReadingLines::narrow_at))]
fn narrow_at<'a>(word: &[u8], bytes: &'a [u8]) -> Option<(u32, &'a [u8])>
    ensures { Reads (λ read. (read.0, read.1.now)) result (spec.narrow_at word.now bytes.now) }
{
    let (number, rest) = marked_at(word, bytes)?;
    if number < 4294967296 {
        Some((number as u32, rest))
    } else {
        None
    }
}

/// One of 16 bits.
#[tactic(auto, unfolding(crate::specs::ReadingLines::short_at))]
fn short_at<'a>(word: &[u8], bytes: &'a [u8]) -> Option<(u16, &'a [u8])>
    ensures { Reads (λ read. (read.0, read.1.now)) result (spec.short_at word.now bytes.now) }
{
    let (number, rest) = marked_at(word, bytes)?;
    if number < 65536 {
        Some((number as u16, rest))
    } else {
        None
    }
}

/// The key of a session at the front of bytes, with the end of the line behind it.
#[tactic(auto, unfolding(crate::specs::ReadingLines::session_key_at))]
fn session_key_at(bytes: &[u8]) -> Option<(u32, &[u8])>
    ensures { Reads (λ read. (read.0, read.1.now)) result (spec.session_key_at bytes.now) }
{
    let (key, rest) = narrow_at(b"\n", bytes)?;
    if 0 < key { Some((key, rest)) } else { None }
}

#[tactic(auto, unfolding(crate::specs::ReadingLines::queue_at))]
fn queue_at(run: u32, bytes: &[u8]) -> Option<(LineWhat, &[u8])>
    ensures { Reads (λ read. (read.0, read.1.now)) result (spec.queue_at run bytes.now) }
{
    if let Some(rest) = behind(b"start\n", bytes) {
        let what = LineWhat::Queue {
            run,
            work: Work::Start,
            key: 0,
        };
        return Some((what, rest));
    }
    if let Some(rest) = behind(b"stop\n", bytes) {
        let what = LineWhat::Queue {
            run,
            work: Work::Stop,
            key: 0,
        };
        return Some((what, rest));
    }
    let rest = behind(b"end ", bytes)?;
    let (key, rest) = session_key_at(rest)?;
    let what = LineWhat::Queue {
        run,
        work: Work::SessionEnd,
        key,
    };
    Some((what, rest))
}

#[tactic(auto, unfolding(crate::specs::ReadingLines::admit_at))]
fn admit_at(run: u32, bytes: &[u8]) -> Option<(LineWhat, &[u8])>
    ensures { Reads (λ read. (read.0, read.1.now)) result (spec.admit_at run bytes.now) }
{
    let (key, rest) = narrow_at(b" ", bytes)?;
    let (moment, rest) = marked_at(b"\n", rest)?;
    Some((LineWhat::Admit { run, key, moment }, rest))
}

#[tactic(auto, unfolding(crate::specs::ReadingLines::refuse_at))]
fn refuse_at(run: u32, bytes: &[u8]) -> Option<(LineWhat, &[u8])>
    ensures { Reads (λ read. (read.0, read.1.now)) result (spec.refuse_at run bytes.now) }
{
    let (moment, rest) = marked_at(b"\n", bytes)?;
    Some((LineWhat::Refuse { run, moment }, rest))
}

#[tactic(auto, unfolding(crate::specs::ReadingLines::begin_at))]
fn begin_at(run: u32, bytes: &[u8]) -> Option<(LineWhat, &[u8])>
    ensures { Reads (λ read. (read.0, read.1.now)) result (spec.begin_at run bytes.now) }
{
    let (serial, rest) = narrow_at(b"\n", bytes)?;
    Some((LineWhat::Begin { run, serial }, rest))
}

#[tactic(auto, unfolding(crate::specs::ReadingLines::app_at))]
fn app_at(alloc: Global, run: u32, bytes: &[u8]) -> Result<Option<(LineWhat, &[u8])>, Memory>
    ensures { IfOk result (λ found. Reads (λ read. (read.0, read.1.now)) found (spec.app_at run bytes.now)) }
{
    let Some((call, rest)) = call_at(alloc, bytes)? else {
        return Ok(None);
    };
    let Some(rest) = behind(b" ", rest) else {
        return Ok(None);
    };
    let Some((reply, rest)) = reply_at(alloc, rest)? else {
        return Ok(None);
    };
    Ok(Some((LineWhat::App { run, call, reply }, rest)))
}

#[tactic(auto, unfolding(crate::specs::ReadingLines::kind_at))]
fn kind_at(bytes: &[u8]) -> Option<(EndKind, &[u8])>
    ensures { Reads (λ read. (read.0, read.1.now)) result (spec.kind_at bytes.now) }
{
    if let Some(rest) = behind(b"done ", bytes) {
        return Some((EndKind::Done, rest));
    }
    if let Some(rest) = behind(b"memory ", bytes) {
        return Some((EndKind::Memory, rest));
    }
    match behind(b"journal ", bytes) {
        Some(rest) => Some((EndKind::JournalFull, rest)),
        None => None,
    }
}

#[tactic(auto, unfolding(crate::specs::ReadingLines::end_at))]
fn end_at(run: u32, bytes: &[u8]) -> Option<(LineWhat, &[u8])>
    ensures { Reads (λ read. (read.0, read.1.now)) result (spec.end_at run bytes.now) }
{
    let (kind, rest) = kind_at(bytes)?;
    let (status, rest) = short_at(b" ", rest)?;
    let (length, rest) = narrow_at(b" ", rest)?;
    let (made, rest) = narrow_at(b" ", rest)?;
    let (finished, rest) = narrow_at(b"\n", rest)?;
    let what = LineWhat::End {
        run,
        kind,
        status,
        length,
        made,
        finished,
    };
    Some((what, rest))
}

/// What stands behind the lane and the run in a line that begins with this letter.
fn run_by(
    alloc: Global,
    letter: u8,
    run: u32,
    bytes: &[u8],
) -> Result<Option<(LineWhat, &[u8])>, Memory>
    ensures { IfOk result (λ found. Reads (λ read. (read.0, read.1.now)) found (spec.run_by letter run bytes.now)) }
{
    match letter {
        b'Q' => Ok(queue_at(run, bytes)),
        b'A' => Ok(admit_at(run, bytes)),
        b'X' => Ok(refuse_at(run, bytes)),
        b'B' => Ok(begin_at(run, bytes)),
        b'P' => app_at(alloc, run, bytes),
        b'E' => Ok(end_at(run, bytes)),
        _ => Ok(None),
    }
}

#[tactic(auto, unfolding(crate::specs::ReadingLines::run_at))]
fn run_at(alloc: Global, letter: u8, bytes: &[u8]) -> Result<Option<(LineWhat, &[u8])>, Memory>
    ensures { IfOk result (λ found. Reads (λ read. (read.0, read.1.now)) found (spec.run_at letter bytes.now)) }
{
    let Some((run, rest)) = narrow_at(b" ", bytes) else {
        return Ok(None);
    };
    run_by(alloc, letter, run, rest)
}

#[tactic(auto, unfolding(crate::specs::ReadingLines::time_at))]
fn time_at(bytes: &[u8]) -> Option<(LineWhat, &[u8])>
    ensures { Reads (λ read. (read.0, read.1.now)) result (spec.time_at bytes.now) }
{
    let (moment, rest) = marked_at(b"\n", bytes)?;
    Some((LineWhat::Tick { moment }, rest))
}

/// What stands behind the lane in a line that begins with this letter.
fn what_by(alloc: Global, letter: u8, bytes: &[u8]) -> Result<Option<(LineWhat, &[u8])>, Memory>
    ensures { IfOk result (λ found. Reads (λ read. (read.0, read.1.now)) found (spec.what_by letter bytes.now)) }
{
    if letter == b'T' {
        Ok(time_at(bytes))
    } else {
        run_at(alloc, letter, bytes)
    }
}

#[tactic(auto, unfolding(crate::specs::ReadingLines::stop_at))]
fn stop_at(bytes: &[u8]) -> Option<(Line, &[u8])>
    ensures { Reads (λ read. (read.0, read.1.now)) result (spec.stop_at bytes.now) }
{
    let (lane, rest) = narrow_at(b"\n", bytes)?;
    let what = LineWhat::Stop;
    Some((Line { lane, what }, rest))
}

#[tactic(auto, unfolding(crate::specs::ReadingLines::laned_at))]
fn laned_at(alloc: Global, letter: u8, bytes: &[u8]) -> Result<Option<(Line, &[u8])>, Memory>
    ensures { IfOk result (λ found. Reads (λ read. (read.0, read.1.now)) found (spec.laned_at letter bytes.now)) }
{
    let Some((lane, rest)) = narrow_at(b" ", bytes) else {
        return Ok(None);
    };
    let Some((what, rest)) = what_by(alloc, letter, rest)? else {
        return Ok(None);
    };
    Ok(Some((Line { lane, what }, rest)))
}

/// The line at the front of bytes, and what follows it.
#[tactic(auto, unfolding(crate::specs::ReadingLines::line_at))]
pub fn line_at(alloc: Global, bytes: &[u8]) -> Result<Option<(Line, &[u8])>, Memory>
    ensures { IfOk result (λ found. Reads (λ read. (read.0, read.1.now)) found (spec.line_at bytes.now)) }
{
    let Some((letter, rest)) = bytes.split_first() else {
        return Ok(None);
    };
    let Some(rest) = behind(b" ", rest) else {
        return Ok(None);
    };
    if *letter == b'S' {
        Ok(stop_at(rest))
    } else {
        laned_at(alloc, *letter, rest)
    }
}
