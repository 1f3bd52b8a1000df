//! The command `replay`.
ghost use Rattle.std.specs.Prelude.{◌≡◌, ◌≤◌, ◌⊎◌, ◌||◌, ℕ, Bool, List, map};
ghost use Rattle.std.specs.String.{string_bytes};
ghost use Rattle.asp_command.specs.Saying.{AreNoReplay};
ghost use Rattle.asp_command.specs.Words.{SaysReplay};
ghost use Rattle.asp_io.specs.Faults.{HasRisen};
ghost use Rattle.asp_record.specs.Recorded.{IsSound};
ghost use Rattle.asp_host.specs.Loaded.{RecordingWritesOf, ReplayWritesOf};
ghost use Rattle.asp_host.specs.Replay.{ReplayWrites, with_rule};
ghost use Rattle.asp_host.specs.Status.{IsUnsaid};

use crate::output::write_replay;
use crate::recording::source_recording;
use crate::status::Status;
use asp_command::{Command, WordStop, read_words};
use asp_desk::Gate;
use asp_io::{Folder, Sink, Source};
use asp_record::Recording;
use asp_run::PlainRunner;
use asp_site::Site;
use site_load::load;
use std::alloc::Global;
use std::sync::Wait;
use std::thread::Threads;

/// Runs the command `replay` that the words say, without the program's own name; other words are told that they are none.
///
/// The site, the recording and the output are as for `run_host`. Each run of more workers than one passes the gate: before
/// each slice of its work it is asked whether the run goes on.
pub fn replay_with<Rt, F, S, K, G>(
    rt: &Rt,
    alloc: Global,
    words: &[String],
    folder: &mut F,
    source: &mut S,
    sink: &mut K,
    gate: &G,
) -> Status
where
    Rt: Threads + Wait + Sync,
    F: Folder,
    S: Source,
    K: Sink,
    G: Gate + Sync,
    ensures ends { (site : List ℕ) (workers : ℕ) (journal strict : Bool)
        → SaysReplay (map string_bytes words.now) site workers journal strict
        → ReplayWrites workers journal strict (F.files folder.old)
        (record { before = S.left source.old; after = S.left source.new })
        (record { before = K.held sink.old; after = K.held sink.new }) result }
    ensures other { AreNoReplay (map string_bytes words.now)
        → IsUnsaid result × (source.new ≡ source.old) × (K.held sink.new ≡ K.held sink.old) }
    ensures read_fault { result ≡ Status.ReadFault → HasRisen (F.faults folder.old) (F.faults folder.new)
        ⊎ HasRisen (S.faults source.old) (S.faults source.new) }
    ensures write_fault { result ≡ Status.WriteFault → HasRisen (K.faults sink.old) (K.faults sink.new) }
{
    match read_words(alloc, words) {
        Ok(
            Command::Replay {
                site: _,
                workers,
                journal,
                strict,
            },
        ) => replay(
            rt, alloc, workers, journal, strict, folder, source, sink, gate,
        ),
        Ok(_) => Status::Usage,
        Err(WordStop::Usage) => Status::Usage,
        Err(WordStop::Memory) => Status::Memory,
    }
}

/// Replays the recording that the source has by so many workers, whose runs pass the gate, and writes its answers, and its
/// journal where that is asked for. Where `strict` or the recording says so, the lock keeps readers out too.
pub fn replay<Rt, F, S, K, G>(
    rt: &Rt,
    alloc: Global,
    workers: u32,
    journal: bool,
    strict: bool,
    folder: &mut F,
    source: &mut S,
    sink: &mut K,
    gate: &G,
) -> Status
where
    Rt: Threads + Wait + Sync,
    F: Folder,
    S: Source,
    K: Sink,
    G: Gate + Sync,
    requires { (1 ≤ workers) × (workers ≤ 32) }
    ensures writes { ReplayWrites workers journal strict (F.files folder.old)
        (record { before = S.left source.old; after = S.left source.new })
        (record { before = K.held sink.old; after = K.held sink.new }) result }
    ensures read_fault { result ≡ Status.ReadFault → HasRisen (F.faults folder.old) (F.faults folder.new)
        ⊎ HasRisen (S.faults source.old) (S.faults source.new) }
    ensures write_fault { result ≡ Status.WriteFault → HasRisen (K.faults sink.old) (K.faults sink.new) }
{
    match load(alloc, folder) {
        Ok(site) => replay_source(
            rt, alloc, site, workers, journal, strict, source, sink, gate,
        ),
        Err(stop) => Status::from(stop),
    }
}

/// Replays the recording that the source has over the site.
fn replay_source<Rt, S, K, G>(
    rt: &Rt,
    alloc: Global,
    site: Site,
    workers: u32,
    journal: bool,
    strict: bool,
    source: &mut S,
    sink: &mut K,
    gate: &G,
) -> Status
where
    Rt: Threads + Wait + Sync,
    S: Source,
    K: Sink,
    G: Gate + Sync,
    requires { (1 ≤ workers) × (workers ≤ 32) }
    ensures writes { ReplayWritesOf workers journal strict site
        (record { before = S.left source.old; after = S.left source.new })
        (record { before = K.held sink.old; after = K.held sink.new }) result }
    ensures read_fault { result ≡ Status.ReadFault → HasRisen (S.faults source.old) (S.faults source.new) }
    ensures write_fault { result ≡ Status.WriteFault → HasRisen (K.faults sink.old) (K.faults sink.new) }
{
    match source_recording(alloc, source) {
        Ok(recording) => {
            let ruled = ruled(recording, strict);
            replay_recording(rt, alloc, site, &ruled, workers, journal, sink, gate)
        }
        Err(stop) => {
            drop(site);
            Status::from(stop)
        }
    }
}

/// Whether one of two words was said.
fn either(one: bool, other: bool) -> bool
    ensures { result ≡ (one || other) }
{
    one || other
}

/// The recording with the rule of its lock, which the word or the recording says.
fn ruled(recording: Recording, strict: bool) -> Recording
    ensures { result ≡ with_rule strict recording }
{
    let Recording {
        seed,
        strict: said,
        items,
    } = recording;
    Recording {
        seed,
        strict: either(strict, said),
        items,
    }
}

/// Replays the recording over the site, by the rule that it has.
fn replay_recording<Rt, K, G>(
    rt: &Rt,
    alloc: Global,
    site: Site,
    recording: &Recording,
    workers: u32,
    journal: bool,
    sink: &mut K,
    gate: &G,
) -> Status
where
    Rt: Threads + Wait + Sync,
    K: Sink,
    G: Gate + Sync,
    requires sound { IsSound recording.now }
    requires workers { (1 ≤ workers) × (workers ≤ 32) }
    ensures writes { (strict : Bool) → RecordingWritesOf workers journal strict site recording.now
        (record { before = K.held sink.old; after = K.held sink.new }) result }
    ensures no_read { result ≡ Status.ReadFault → ⊥ }
    ensures write_fault { result ≡ Status.WriteFault → HasRisen (K.faults sink.old) (K.faults sink.new) }
{
    match write_replay(
        rt,
        alloc,
        PlainRunner { alloc },
        site,
        recording,
        gate,
        workers,
        journal,
        sink,
    ) {
        Ok(()) => Status::Ok,
        Err(stop) => Status::from(stop),
    }
}
