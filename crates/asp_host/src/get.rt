//! The command `get`.
ghost use Rattle.std.specs.Prelude.{◌≡◌, ◌+◌, ◌^◌, ◌<◌, IfErr, IfOk, length};
ghost use Rattle.asp_get.specs.Answered.{HasAnswered, IsGetStop};
ghost use Rattle.asp_io.specs.Faults.{HasRisen};
ghost use Rattle.asp_host.specs.Get.{GetWrites, site_rules};
ghost use Rattle.asp_host.specs.Loaded.{GetWritesOf};
ghost use Rattle.asp_host.specs.Request.{job_of};

use crate::request::get_job;
use crate::status::Status;
use asp_get::{GetStop, answer_one};
use asp_io::{Failed, Folder, Sink, write_all};
use asp_job::Answer;
use asp_run::PlainRunner;
use asp_site::Site;
use site_load::load;
use std::alloc::Global;
use vb_value::{Bytes, Memory, Text};

/// Writes the body of the answer to a request for the path with the query. It waits for nothing, and starts no thread.
pub fn get<F: Folder, K: Sink>(
    alloc: Global,
    path: &Text,
    query: &Bytes,
    folder: &mut F,
    sink: &mut K,
) -> Status
    requires { length path.now + length query.now < 2 ^ 24 }
    ensures writes { GetWrites path.now query.now (F.files folder.old)
        (record { before = K.held sink.old; after = K.held sink.new }) result }
    ensures read_fault { result ≡ Status.ReadFault → HasRisen (F.faults folder.old) (F.faults folder.new) }
    ensures write_fault { result ≡ Status.WriteFault → HasRisen (K.faults sink.old) (K.faults sink.new) }
{
    match load(alloc, folder) {
        Ok(site) => {
            let status = write_answer(alloc, &site, path, query, sink);
            drop(site);
            status
        }
        Err(stop) => Status::from(stop),
    }
}

/// Writes the body of the site's answer to the request.
fn write_answer<K: Sink>(
    alloc: Global,
    site: &Site,
    path: &Text,
    query: &Bytes,
    sink: &mut K,
) -> Status
    requires { length path.now + length query.now < 2 ^ 24 }
    ensures writes { GetWritesOf path.now query.now site.now
        (record { before = K.held sink.old; after = K.held sink.new }) result }
    ensures no_read { result ≡ Status.ReadFault → ⊥ }
    ensures write_fault { result ≡ Status.WriteFault → HasRisen (K.faults sink.old) (K.faults sink.new) }
{
    let answer = match answer(alloc, site, path, query) {
        Ok(answer) => answer,
        Err(stop) => return Status::from(stop),
    };
    match write_all(sink, answer.body.as_slice()) {
        Ok(()) => Status::Ok,
        Err(Failed) => Status::WriteFault,
    }
}

/// The answer of the site to the request.
fn answer(alloc: Global, site: &Site, path: &Text, query: &Bytes) -> Result<Answer, GetStop>
    requires { length path.now + length query.now < 2 ^ 24 }
    ensures ok { IfOk result (HasAnswered (site_rules site.now) (job_of path.now query.now)) }
    ensures err { IfErr result (IsGetStop (site_rules site.now) (job_of path.now query.now)) }
{
    match get_job(alloc, path, query) {
        Ok(job) => answer_one(alloc, &PlainRunner { alloc }, site, [0; 32], &job),
        Err(Memory) => Err(GetStop::Memory),
    }
}
