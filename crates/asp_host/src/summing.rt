//! What `gen` writes: the lines of a journal, and its summary.
ghost use Rattle.std.specs.Prelude.{◌≡◌, ◌++◌, IfErr, IfOk, OnOk, reverse, false, true};
ghost use Rattle.std.specs.String.{string_bytes};
ghost use Rattle.asp_core.specs.Kernel.{past_of, rules_by, rules_of, setting_of};
ghost use Rattle.asp_io.specs.Faults.{HasCause};
ghost use Rattle.asp_job.specs.Journal.{IsValidJournal};
ghost use Rattle.asp_record.specs.EntryLines.{lines_in};
ghost use Rattle.asp_record.specs.Journal.{AreLines};
ghost use Rattle.asp_record.specs.Recorded.{IsSound};
ghost use Rattle.asp_feed.specs.Shown.{lines_of};
ghost use Rattle.asp_replay.specs.Underway.{WritesText};
ghost use Rattle.asp_summary.specs.Counted.{summary_of as summary};
ghost use Rattle.asp_summary.specs.Lines.{summary_lines};
ghost use Rattle.asp_host.specs.Gen as spec;

use crate::feeding::feed_by;
use crate::output::write_journal;
use asp_core::Core;
use asp_desk::OpenGate;
use asp_io::{Failed, Sink, SureSink, write_all};
use asp_job::{Entry, Runner};
use asp_record::Recording;
use asp_replay::{FeedStop, journals_have_lines};
use asp_summary::{summary_of, summary_text};
use std::alloc::Global;
use std::sync::Wait;
use std::thread::Threads;
use vb_value::Memory;

/// How many workers there are.
const GEN_WORKERS: u32 = 4;

/// The lines of the summary.
fn summary_string(alloc: Global, count: u32, entries: &[Entry]) -> Result<String, Memory>
    ensures { IfOk result (λ text. string_bytes text ≡ summary_lines (summary count (reverse entries.now))) }
{
    let summary = summary_of(alloc, count, entries)?;
    summary_text(alloc, &summary)
}

/// Writes a text whole.
fn write_text<K: Sink>(sink: &mut K, text: &[u8]) -> Result<(), FeedStop>
    ensures wrote { WritesText text.now result (K.held sink.old) (K.held sink.new) }
    ensures cause { HasCause FeedStop.WriteFault (K.faults sink.old) (K.faults sink.new) result }
{
    match write_all(sink, text) {
        Ok(()) => Ok(()),
        Err(Failed) => Err(FeedStop::WriteFault),
    }
}

/// Writes the lines of the journal, which is valid, where they are asked for, and its summary.
fn write_summary<R: Runner, K: Sink>(
    alloc: Global,
    core: &Core<R>,
    count: u32,
    journal: bool,
    sink: &mut K,
) -> Result<(), FeedStop>
    ensures wrote { WritesText (lines_of journal (past_of core.now)
        ++ summary_lines (summary count (past_of core.now))) result (K.held sink.old) (K.held sink.new) }
    ensures valid { IsValidJournal (rules_of R.meaning core.now) (past_of core.now) }
    ensures lines { OnOk result (journal ≡ true → AreLines (lines_in (past_of core.now))) }
    ensures cause { HasCause FeedStop.WriteFault (K.faults sink.old) (K.faults sink.new) result }
{
    let entries = core.journal();
    let text = summary_string(alloc, count, entries)?;
    write_journal(alloc, journal, entries, sink)?;
    // The lines that were written are such as may stand in a journal.
    journals_have_lines();
    write_text(sink, text.as_bytes())
}

/// Feeds a site with a recording of so many requests, lets the answers go, and writes what `gen` writes.
pub fn write_generated<Rt, R, K>(
    rt: &Rt,
    alloc: Global,
    runner: R,
    site: R::Site,
    recording: &Recording,
    count: u32,
    journal: bool,
    sink: &mut K,
) -> Result<(), FeedStop>
where
    Rt: Threads + Wait + Sync,
    R: Runner + Sync + Drop,
    R::Site: Sync + Drop,
    R::Store: Send + Drop,
    R::State: Send + Drop,
    K: Sink,
    requires sound { IsSound recording.now }
    ensures ok { OnOk result (spec.HasSummedAll (rules_by (R.meaning runner site)
        (setting_of recording.now.seed recording.now.strict)) recording.now.items count journal
        (record { before = K.held sink.old; after = K.held sink.new })) }
    ensures err { IfErr result (spec.IsSumStop (rules_by (R.meaning runner site)
        (setting_of recording.now.seed recording.now.strict))
        recording.now.items count journal (record { before = K.held sink.old; after = K.held sink.new })) }
    ensures cause { HasCause FeedStop.WriteFault (K.faults sink.old) (K.faults sink.new) result }
{
    // The sink of the answers takes all, so none of its faults is handed on.
    let mut nowhere = SureSink;
    let core = feed_by(
        rt,
        alloc,
        runner,
        site,
        recording,
        &OpenGate,
        GEN_WORKERS,
        &mut nowhere,
    )?;
    let written = write_summary(alloc, &core, count, journal, sink);
    drop(core);
    written
}
