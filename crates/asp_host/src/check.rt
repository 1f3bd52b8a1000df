//! The command `check`.
ghost use Rattle.std.specs.Prelude.{◌≡◌, IfOk};
ghost use Rattle.std.specs.String.{string_bytes};
ghost use Rattle.asp_io.specs.Faults.{HasRisen};
ghost use Rattle.asp_host.specs.Check.{CheckWrites, count_line};
ghost use Rattle.asp_host.specs.Loaded.{CheckWritesOf};

use crate::status::Status;
use asp_io::{Failed, Folder, Sink, write_all};
use asp_site::Site;
use site_load::load;
use std::alloc::Global;
use vb_value::Memory;

/// Reads all of the site, and writes how many pages and static files it has. It runs no page.
pub fn check<F: Folder, K: Sink>(alloc: Global, folder: &mut F, sink: &mut K) -> Status
    ensures writes { CheckWrites (F.files folder.old) (record { before = K.held sink.old; after = K.held sink.new })
        result }
    ensures read_fault { result ≡ Status.ReadFault → HasRisen (F.faults folder.old) (F.faults folder.new) }
    ensures write_fault { result ≡ Status.WriteFault → HasRisen (K.faults sink.old) (K.faults sink.new) }
{
    match load(alloc, folder) {
        Ok(site) => {
            let status = write_count(alloc, &site, sink);
            drop(site);
            status
        }
        Err(stop) => Status::from(stop),
    }
}

/// Writes how many pages and static files the site has.
fn write_count<K: Sink>(alloc: Global, site: &Site, sink: &mut K) -> Status
    ensures writes { CheckWritesOf site.now (record { before = K.held sink.old; after = K.held sink.new }) result }
    ensures no_read { result ≡ Status.ReadFault → ⊥ }
    ensures write_fault { result ≡ Status.WriteFault → HasRisen (K.faults sink.old) (K.faults sink.new) }
{
    let line = match count_string(alloc, site) {
        Ok(line) => line,
        Err(Memory) => return Status::Memory,
    };
    match write_all(sink, line.as_bytes()) {
        Ok(()) => Status::Ok,
        Err(Failed) => Status::WriteFault,
    }
}

/// How many pages and static files the site has, as a line.
fn count_string(alloc: Global, site: &Site) -> Result<String, Memory>
    ensures { IfOk result (λ line. string_bytes line ≡ count_line site.now) }
{
    let (pages, files) = (site.pages.len(), site.statics.len());
    Ok(format!(in alloc; "accepted {pages} pages, {files} files\n")?)
}
