//! The command `serve`.
ghost use Rattle.std.specs.Prelude.{◌≡◌, ◌≤◌};
ghost use Rattle.asp_io.specs.Faults.{HasRisen};
ghost use Rattle.asp_serve.specs.Visits.{MayFail};
ghost use Rattle.asp_host.specs.Loaded.{ServeMeetsOf};
ghost use Rattle.asp_host.specs.Serve.{ServeMeets};

use crate::status::Status;
use asp_desk::OpenGate;
use asp_io::{Clock, Folder, Wire};
use asp_run::PlainRunner;
use asp_serve::Terms;
use asp_site::Site;
use site_load::load;
use std::alloc::Global;
use std::sync::Wait;
use std::thread::Threads;

/// Serves the site that the folder holds to those who come on the wire, by the terms.
pub fn serve<Rt, F, W, C>(
    rt: &Rt,
    alloc: Global,
    terms: &Terms,
    folder: &mut F,
    wire: W,
    clock: &C,
) -> Status
where
    Rt: Threads + Wait + Sync,
    F: Folder,
    W: Wire + Send + Drop,
    W::L: Send + Drop,
    C: Clock + Sync,
    requires { (1 ≤ terms.now.workers) × (terms.now.workers ≤ 32) }
    ensures meets { ServeMeets terms.now.requests (F.files folder.old) terms.now.seed terms.now.strict W.ENDS result }
    ensures read_fault { result ≡ Status.ReadFault → HasRisen (F.faults folder.old) (F.faults folder.new) }
    ensures accept_fault { result ≡ Status.AcceptFault → MayFail W.faults }
{
    match load(alloc, folder) {
        Ok(site) => serve_site(rt, alloc, terms, site, wire, clock),
        Err(stop) => Status::from(stop),
    }
}

/// Serves the site.
fn serve_site<Rt, W, C>(
    rt: &Rt,
    alloc: Global,
    terms: &Terms,
    site: Site,
    wire: W,
    clock: &C,
) -> Status
where
    Rt: Threads + Wait + Sync,
    W: Wire + Send + Drop,
    W::L: Send + Drop,
    C: Clock + Sync,
    requires { (1 ≤ terms.now.workers) × (terms.now.workers ≤ 32) }
    ensures meets { ServeMeetsOf terms.now.requests site terms.now.seed terms.now.strict W.ENDS result }
    ensures no_read { result ≡ Status.ReadFault → ⊥ }
    ensures accept_fault { result ≡ Status.AcceptFault → MayFail W.faults }
{
    let runner = PlainRunner { alloc };
    match asp_serve::serve(rt, alloc, runner, site, terms, wire, clock, &OpenGate) {
        Ok(()) => Status::Ok,
        Err(stop) => Status::from(stop),
    }
}
