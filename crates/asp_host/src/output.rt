//! What a replay writes behind the records of the answers, and in all.
ghost use Rattle.std.specs.Prelude.{◌≡◌, ◌≤◌, ◌++◌, IfErr, OnOk, length, reverse, true, false};
ghost use Rattle.asp_core.specs.Kernel.{past_of, rules_by, rules_of, setting_of};
ghost use Rattle.asp_io.specs.Faults.{HasCause};
ghost use Rattle.asp_job.specs.Journal.{IsValidJournal};
ghost use Rattle.asp_record.specs.EntryLines.{lines_in};
ghost use Rattle.asp_record.specs.Journal.{AreLines};
ghost use Rattle.asp_record.specs.Ranged.{AreRanged};
ghost use Rattle.asp_record.specs.Recorded.{IsSound};
ghost use Rattle.asp_feed.specs.Shown.{done_line, lines_of, shown_of};
ghost use Rattle.asp_replay.specs.Underway.{WritesText};
ghost use Rattle.asp_host.specs.Replayed.{HasReplayed, HasStopped};

use crate::answers::count_answers;
use crate::feeding::feed_by;
use asp_core::Core;
use asp_desk::Gate;
use asp_io::Sink;
use asp_job::{Entry, Runner};
use asp_record::Recording;
use asp_replay::{FeedStop, journals_have_lines, write_done, write_lines};
use std::alloc::Global;
use std::sync::Wait;
use std::thread::Threads;

/// Writes the lines of the entries, where they are asked for.
pub fn write_journal<K: Sink>(
    alloc: Global,
    journal: bool,
    entries: &[Entry],
    sink: &mut K,
) -> Result<(), FeedStop>
    ensures wrote { WritesText (lines_of journal (reverse entries.now)) result (K.held sink.old) (K.held sink.new) }
    ensures ranged { OnOk result (journal ≡ true → AreRanged entries.now) }
    ensures cause { HasCause FeedStop.WriteFault (K.faults sink.old) (K.faults sink.new) result }
{
    if journal {
        write_lines(alloc, sink, entries)
    } else {
        Ok(())
    }
}

/// Writes the lines of the journal, which is valid, where they are asked for, and how many answers there were.
fn write_end<R: Runner, K: Sink>(
    alloc: Global,
    core: &Core<R>,
    journal: bool,
    sink: &mut K,
) -> Result<(), FeedStop>
    ensures wrote { WritesText (lines_of journal (past_of core.now)
        ++ done_line (length (shown_of (rules_of R.meaning core.now) (past_of core.now))))
        result (K.held sink.old) (K.held sink.new) }
    ensures valid { IsValidJournal (rules_of R.meaning core.now) (past_of core.now) }
    ensures lines { OnOk result (journal ≡ true → AreLines (lines_in (past_of core.now))) }
    ensures cause { HasCause FeedStop.WriteFault (K.faults sink.old) (K.faults sink.new) result }
{
    let entries = core.journal();
    let count = count_answers(alloc, entries)?;
    write_journal(alloc, journal, entries, sink)?;
    // The lines that were written are such as may stand in a journal.
    journals_have_lines();
    write_done(alloc, sink, count)
}

/// Feeds a site with a recording by so many workers, whose runs pass the gate, and writes all that a replay writes.
pub fn write_replay<Rt, R, G, K>(
    rt: &Rt,
    alloc: Global,
    runner: R,
    site: R::Site,
    recording: &Recording,
    gate: &G,
    workers: u32,
    journal: bool,
    sink: &mut K,
) -> Result<(), FeedStop>
where
    Rt: Threads + Wait + Sync,
    R: Runner + Sync + Drop,
    R::Site: Sync + Drop,
    R::Store: Send + Drop,
    R::State: Send + Drop,
    G: Gate + Sync,
    K: Sink,
    requires sound { IsSound recording.now }
    requires workers { (1 ≤ workers) × (workers ≤ 32) }
    ensures ok { OnOk result (HasReplayed workers (rules_by (R.meaning runner site)
        (setting_of recording.now.seed recording.now.strict))
        recording.now.items journal (K.held sink.old) (K.held sink.new)) }
    ensures err { IfErr result (HasStopped workers (rules_by (R.meaning runner site)
        (setting_of recording.now.seed recording.now.strict))
        recording.now.items journal (K.held sink.old) (K.held sink.new)) }
    ensures cause { HasCause FeedStop.WriteFault (K.faults sink.old) (K.faults sink.new) result }
{
    let core = feed_by(rt, alloc, runner, site, recording, gate, workers, sink)?;
    let written = write_end(alloc, &core, journal, sink);
    drop(core);
    written
}
