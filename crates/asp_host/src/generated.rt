//! The command `gen`.
ghost use Rattle.std.specs.Prelude.{◌≡◌, ◌≤◌, IfOk};
ghost use Rattle.asp_io.specs.Faults.{HasRisen};
ghost use Rattle.asp_record.specs.Generated.{count_files, generated};
ghost use Rattle.asp_host.specs.Gen as spec;
ghost use Rattle.site_load.specs.Accepted.{IsAccepted};

use crate::status::Status;
use crate::summing::write_generated;
use asp_io::{Sink, SureFolder};
use asp_record::{Recording, generate, generated_sound};
use asp_run::PlainRunner;
use asp_site::Site;
use site_load::load;
use std::alloc::Global;
use std::sync::Wait;
use std::thread::Threads;
use vb_value::{List, Memory, SiteFile};

/// Makes a site of one page and a recording of so many requests for it, replays that, and writes the summary of its
/// journal, behind its lines where they are asked for. The answers are let go.
pub fn replay_generated<Rt, K>(
    rt: &Rt,
    alloc: Global,
    count: u32,
    journal: bool,
    sink: &mut K,
) -> Status
where
    Rt: Threads + Wait + Sync,
    K: Sink,
    requires { count ≤ 10000 }
    ensures writes { spec.GenWrites count journal
        (record { before = K.held sink.old; after = K.held sink.new }) result }
    ensures write_fault { result ≡ Status.WriteFault → HasRisen (K.faults sink.old) (K.faults sink.new) }
{
    match generate(alloc, count) {
        Ok((files, recording)) => replay_made(rt, alloc, files, &recording, count, journal, sink),
        Err(Memory) => Status::Memory,
    }
}

/// Replays the recording that was made, over the site of the one page.
fn replay_made<Rt, K>(
    rt: &Rt,
    alloc: Global,
    files: List<SiteFile>,
    recording: &Recording,
    count: u32,
    journal: bool,
    sink: &mut K,
) -> Status
where
    Rt: Threads + Wait + Sync,
    K: Sink,
    requires few { count ≤ 10000 }
    requires page { files ≡ count_files }
    requires requests { recording.now ≡ generated count }
    ensures writes { spec.GenWrites count journal
        (record { before = K.held sink.old; after = K.held sink.new }) result }
    ensures write_fault { result ≡ Status.WriteFault → HasRisen (K.faults sink.old) (K.faults sink.new) }
{
    match count_site(alloc, files) {
        Ok(site) => write_made(rt, alloc, site, recording, count, journal, sink),
        Err(Memory) => Status::Memory,
    }
}

/// Replays it over the site, and writes what `gen` writes.
fn write_made<Rt, K>(
    rt: &Rt,
    alloc: Global,
    site: Site,
    recording: &Recording,
    count: u32,
    journal: bool,
    sink: &mut K,
) -> Status
where
    Rt: Threads + Wait + Sync,
    K: Sink,
    requires few { count ≤ 10000 }
    requires accepted { IsAccepted count_files site }
    requires requests { recording.now ≡ generated count }
    ensures writes { spec.GenWrites count journal
        (record { before = K.held sink.old; after = K.held sink.new }) result }
    ensures write_fault { result ≡ Status.WriteFault → HasRisen (K.faults sink.old) (K.faults sink.new) }
{
    // What is generated is sound.
    generated_sound();
    match write_generated(
        rt,
        alloc,
        PlainRunner { alloc },
        site,
        recording,
        count,
        journal,
        sink,
    ) {
        Ok(()) => Status::Ok,
        Err(stop) => Status::from(stop),
    }
}

/// The site of the files. A folder in memory does not fail, and the one page is not refused: a refusal would be told as
/// memory that ran out.
fn count_site(alloc: Global, files: List<SiteFile>) -> Result<Site, Memory>
    ensures { IfOk result (IsAccepted files) }
{
    let mut folder = SureFolder::new(files).ok_or(Memory)?;
    match load(alloc, &mut folder) {
        Ok(site) => Ok(site),
        Err(_) => Err(Memory),
    }
}
