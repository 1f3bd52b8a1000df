//! A recording is fed to a site by as many workers as are asked for.
ghost use Rattle.std.specs.Prelude.{◌≤◌, ◌<◌, ◌↔◌, All, IfErr, IfOk, IsTrue, false};
ghost use Rattle.asp_core.specs.Kernel.{past_of, rules_by, setting_of};
ghost use Rattle.asp_io.specs.Faults.{HasCause};
ghost use Rattle.asp_record.specs.Recorded.{IsSound};
ghost use Rattle.asp_replay.specs.Underway.{IsCoreOf};
ghost use Rattle.asp_host.specs.Replayed as spec;

use asp_core::Core;
use asp_desk::Gate;
use asp_io::Sink;
use asp_job::{Entry, Runner};
use asp_record::Recording;
use asp_replay::{FeedStop, feed, feed_with};
use std::alloc::Global;
use std::sync::Wait;
use std::thread::Threads;

/// Whether each entry is one of lane 0.
fn are_of_first(entries: &[Entry]) -> bool
    ensures { IsTrue result ↔ All (λ entry. entry.lane < 1) entries.now }
{
    entries.iter().all(|entry| entry.lane == 0)
}

/// Feeds a site with a recording by one lane alone. That no entry is one of another lane is looked up in the journal; if
/// one were, the answer would be `Memory`.
fn feed_alone<R, K>(
    alloc: Global,
    runner: R,
    site: R::Site,
    recording: &Recording,
    sink: &mut K,
) -> Result<Core<R>, FeedStop>
where
    R: Runner + Drop,
    R::Site: Drop,
    R::State: Drop,
    R::Store: Drop,
    K: Sink,
    requires sound { IsSound recording.now }
    ensures core { IfOk result (IsCoreOf runner site (setting_of recording.now.seed recording.now.strict)) }
    ensures ok { IfOk result (λ core. spec.HasFedBy 1 (rules_by (R.meaning runner site)
        (setting_of recording.now.seed recording.now.strict))
        recording.now.items (past_of core) (K.held sink.old) (K.held sink.new)) }
    ensures err { IfErr result (λ stop. spec.HasFedUntil 1 (rules_by (R.meaning runner site)
        (setting_of recording.now.seed recording.now.strict))
        recording.now.items stop (K.held sink.old) (K.held sink.new)) }
    ensures cause { HasCause FeedStop.WriteFault (K.faults sink.old) (K.faults sink.new) result }
{
    let fed = feed(alloc, &runner, &site, recording, sink);
    drop(site);
    drop(runner);
    let core = fed?;
    if are_of_first(core.journal()) {
        return Ok(core);
    }
    drop(core);
    Err(FeedStop::Memory)
}

/// Feeds a site with a recording by so many workers, each on a lane of its own, and writes the record of each answer when
/// its run has ended. Each run passes the gate. One worker feeds it by the history of one lane, and asks no gate.
pub fn feed_by<Rt, R, G, K>(
    rt: &Rt,
    alloc: Global,
    runner: R,
    site: R::Site,
    recording: &Recording,
    gate: &G,
    workers: u32,
    sink: &mut K,
) -> Result<Core<R>, FeedStop>
where
    Rt: Threads + Wait + Sync,
    R: Runner + Sync + Drop,
    R::Site: Sync + Drop,
    R::Store: Send + Drop,
    R::State: Send + Drop,
    G: Gate + Sync,
    K: Sink,
    requires sound { IsSound recording.now }
    requires workers { (1 ≤ workers) × (workers ≤ 32) }
    ensures core { IfOk result (IsCoreOf runner site (setting_of recording.now.seed recording.now.strict)) }
    ensures ok { IfOk result (λ core. spec.HasFedBy workers (rules_by (R.meaning runner site)
        (setting_of recording.now.seed recording.now.strict))
        recording.now.items (past_of core) (K.held sink.old) (K.held sink.new)) }
    ensures err { IfErr result (λ stop. spec.HasFedUntil workers (rules_by (R.meaning runner site)
        (setting_of recording.now.seed recording.now.strict))
        recording.now.items stop (K.held sink.old) (K.held sink.new)) }
    ensures cause { HasCause FeedStop.WriteFault (K.faults sink.old) (K.faults sink.new) result }
{
    if workers == 1 {
        return feed_alone(alloc, runner, site, recording, sink);
    }
    feed_with(rt, alloc, runner, site, recording, gate, workers, sink)
}
