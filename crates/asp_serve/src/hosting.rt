//! A host that serves: its first run, then its workers, and how it ended.
#![tactic(auto)]

ghost use Rattle.std.specs.Prelude.{◌≡◌, ◌≤◌, All, IfErr, IfOk, IfSome, None, false};
ghost use Rattle.std.specs.List.{AllZip};
ghost use Rattle.asp_core.specs.Kernel.{past_of, rules_by, rules_of, setting_of};
ghost use Rattle.asp_core.specs.Start.{start_fail};
ghost use Rattle.asp_desk.specs.Hands.{rules_at};
ghost use Rattle.asp_job.specs.Journal.{IsValidJournal};
ghost use Rattle.asp_serve.specs.Hosts as spec;
ghost use Rattle.asp_serve.specs.Visits.{IsEarly, IsFreeHand, MayFail};

use crate::starting::start;
use crate::visits::{Early, Visits};
use crate::whole::is_whole;
use asp_core::Core;
use asp_desk::{Crew, Gate, Hand, Host};
use asp_io::{Clock, Wire};
use asp_job::{Fail, Runner};
use asp_journal::Full;
use std::alloc::Global;
use std::sync::{Mutex, Wait};
use std::thread::Threads;
use vb_value::List;

/// What a host is to do.
#[derive(Clone, Copy, Debug)]
pub struct Terms {
    /// Whence the letters of session keys are drawn.
    pub seed: [u8; 32],
    /// After how many requests the host stops.
    pub requests: u32,
    /// How many workers there are, from 1 to 32.
    pub workers: u32,
    /// Whether the lock of the Application object keeps readers out too.
    pub strict: bool,
}

/// Why a host did not serve to its end.
#[derive(Clone, Copy, Debug, PartialEq, Eq)]
pub enum ServeStop {
    /// Application_OnStart failed, for this cause. No connection was taken.
    StartFailed(Fail),
    /// An entry did not fit into the journal.
    JournalFull(Full),
    /// The wire failed.
    AcceptFault,
    /// Memory ran out.
    Memory,
}

/// What the host ended for where a worker ended so.
impl From<Early> for ServeStop {
    ghost use Rattle.asp_serve.specs.Hosts.{stop_of};

    ghost from_gives = { λ early stop. stop ≡ stop_of early };

    fn from(early: Early) -> ServeStop {
        match early {
            Early::JournalFull(full) => ServeStop::JournalFull(full),
            Early::AcceptFault => ServeStop::AcceptFault,
            Early::Memory => ServeStop::Memory,
        }
    }
}

/// Why the first of the workers ended that ended early.
fn first_early(mut made: &[Option<Early>]) -> Option<Early>
    ensures { result ≡ spec.first_early made.entry.now }
{
    while let [early, rest @ ..] = made {
        if let Some(early) = early {
            return Some(*early);
        }
        made = rest;
    }
    None
}

/// How a host ended whose first run did not fail, and none of whose workers ended early.
fn ended_late<W: Wire, R: Runner>(core: &Core<R>, requests: u32) -> Result<(), ServeStop>
    requires account { IsValidJournal (rules_of R.meaning core.now) (past_of core.now) }
    requires started { start_fail (rules_of R.meaning core.now) (past_of core.now) ≡ None }
    ensures { spec.HasServed (MayFail W.faults) (rules_of R.meaning core.now) W.ENDS requests result }
{
    if !is_whole(core) {
        return Err(ServeStop::Memory);
    }
    if W::ENDS {
        return Ok(());
    }
    if core.admitted() < requests {
        return Err(ServeStop::Memory);
    }
    Ok(())
}

/// How a host ended whose first run did not fail, and whose workers came to this.
fn ended_well<W: Wire, R: Runner>(
    core: &Core<R>,
    made: &[Option<Early>],
    requests: u32,
) -> Result<(), ServeStop>
    requires account { IsValidJournal (rules_of R.meaning core.now) (past_of core.now) }
    requires started { start_fail (rules_of R.meaning core.now) (past_of core.now) ≡ None }
    requires causes { All (λ early. IfSome early
        (IsEarly (MayFail W.faults) (rules_of R.meaning core.now) (past_of core.now))) made.now }
    ensures { spec.HasServed (MayFail W.faults) (rules_of R.meaning core.now) W.ENDS requests result }
{
    match first_early(made) {
        Some(early) => Err(ServeStop::from(early)),
        None => ended_late::<W, R>(core, requests),
    }
}

/// How a host ended whose workers came to this.
fn ended<W: Wire, R: Runner>(
    core: &Core<R>,
    made: &[Option<Early>],
    requests: u32,
) -> Result<(), ServeStop>
    requires { All (λ early. IfSome early
        (IsEarly (MayFail W.faults) (rules_of R.meaning core.now) (past_of core.now))) made.now }
    ensures { spec.HasServed (MayFail W.faults) (rules_of R.meaning core.now) W.ENDS requests result }
{
    // The journal is valid.
    let _ = core.journal();
    match core.start_fail() {
        Some(fail) => Err(ServeStop::StartFailed(fail)),
        None => ended_well::<W, R>(core, made, requests),
    }
}

/// Each worker takes connections until the host stops, and works until nothing is left. The hands, and why each ended.
fn work<Rt, R, W, C, G>(
    rt: &Rt,
    host: &Host<R>,
    mut crew: Crew<R, Option<Early>>,
    task: &Visits<'_, W, C, G>,
) -> (List<Hand<R>>, List<Option<Early>>)
where
    Rt: Threads + Wait + Sync,
    R: Runner + Sync,
    R::Site: Sync,
    R::Store: Send + Drop,
    R::State: Send + Drop,
    W: Wire + Send,
    W::L: Send + Drop,
    C: Clock + Sync,
    G: Gate + Sync,
    requires { All (λ worker. IsFreeHand R.meaning R.stands host.now worker.hand) crew }
    ensures { AllZip (spec.HasWorked R.meaning R.stands host.now (MayFail W.faults)) result.0 result.1 }
{
    host.work_all(rt, task, &mut crew);
    crew.part()
}

/// Takes the first run to its end, with the last of the hands.
fn begin<Rt: Wait, R: Runner, G: Gate>(
    rt: &Rt,
    host: &Host<R>,
    mut hands: Vec<Hand<R>>,
    gate: &G,
) -> Result<Vec<Hand<R>>, ServeStop>
where
    R::Store: Drop,
    R::State: Drop,
    requires { All (IsFreeHand R.meaning R.stands host.now) hands.items }
    ensures hands { IfOk result (λ hands. All (IsFreeHand R.meaning R.stands host.now) hands.items) }
    ensures stop { IfErr result (spec.IsStop ⊥ (rules_at R.meaning host.now)) }
{
    let Some(mut hand) = hands.pop() else {
        return Ok(hands);
    };
    start(rt, host, &mut hand, gate)?;
    hands.push_reserved(hand);
    Ok(hands)
}

/// Serves with a host that was just made: its first run, and where that ended well its workers.
fn run<Rt, R, W, C, G>(
    rt: &Rt,
    host: Host<R>,
    hands: List<Hand<R>>,
    task: &Visits<'_, W, C, G>,
) -> Result<(), ServeStop>
where
    Rt: Threads + Wait + Sync,
    R: Runner + Sync + Drop,
    R::Site: Sync + Drop,
    R::Store: Send + Drop,
    R::State: Send + Drop,
    W: Wire + Send,
    W::L: Send + Drop,
    C: Clock + Sync,
    G: Gate + Sync,
    requires { All (IsFreeHand R.meaning R.stands host) hands }
    ensures { spec.HasServed (MayFail W.faults) (rules_at R.meaning host) W.ENDS task.now.requests result }
{
    let hands = begin(rt, &host, hands.into_vec(), task.gate)?;
    let Ok(crew) = Crew::new(task.alloc, List::from_vec(hands), None) else {
        return Err(ServeStop::Memory);
    };
    let (hands, made) = work(rt, &host, crew, task);
    match host.close(hands) {
        Ok((core, _runner, _site)) => ended::<W, R>(&core, made.as_slice(), task.requests),
        Err(_back) => Err(ServeStop::Memory),
    }
}

/// Serves the site: its first run, and where that ended well the connections of the wire, by so many workers, until so
/// many requests came or no connection comes any more.
///
/// The calling thread is one of the workers. A worker that waits for a connection when the host stops waits for one more.
/// Whether nothing is left undone is looked up in the journal at the end; if something were, the answer would be `Memory`.
pub fn serve<Rt, R, W, C, G>(
    rt: &Rt,
    alloc: Global,
    runner: R,
    site: R::Site,
    terms: &Terms,
    wire: W,
    clock: &C,
    gate: &G,
) -> Result<(), ServeStop>
where
    Rt: Threads + Wait + Sync,
    R: Runner + Sync + Drop,
    R::Site: Sync + Drop,
    R::Store: Send + Drop,
    R::State: Send + Drop,
    W: Wire + Send + Drop,
    W::L: Send + Drop,
    C: Clock + Sync,
    G: Gate + Sync,
    requires { (1 ≤ terms.now.workers) × (terms.now.workers ≤ 32) }
    ensures { spec.HasServed (MayFail W.faults) (rules_by (R.meaning runner site) (setting_of terms.now.seed terms.now.strict))
        W.ENDS terms.now.requests result }
{
    let wire = Mutex::new(wire);
    let task = Visits {
        alloc,
        wire: &wire,
        clock,
        gate,
        requests: terms.requests,
    };
    match Host::new(alloc, runner, site, terms.seed, terms.strict, terms.workers) {
        Ok((host, hands)) => run(rt, host, hands, &task),
        Err(_back) => Err(ServeStop::Memory),
    }
}
