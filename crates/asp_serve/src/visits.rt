//! What each worker does: it takes connections one after another and serves them, and at the end works until nothing is
//! left.
#![tactic(auto)]

ghost use Rattle.std.specs.Prelude.{◌≡◌, ℕ, IfSome, None, reverse};
ghost use Rattle.asp_desk.specs.Hands.{IsHandOf, rules_at};
ghost use Rattle.asp_serve.specs.Visits as spec;

use crate::ending::LinkEnd;
use crate::serving::serve_link;
use asp_core::EventStop;
use asp_desk::{Gate, Hand, Host, Slice, Task, Worker};
use asp_io::{Clock, Wire};
use asp_job::Runner;
use asp_journal::Full;
use std::alloc::Global;
use std::sync::{Mutex, Wait};

/// Why a worker ended before the host stopped for having admitted enough.
#[derive(Clone, Copy, Debug, PartialEq, Eq)]
pub enum Early {
    /// An entry did not fit into the journal.
    JournalFull(Full),
    /// Memory ran out.
    Memory,
    /// The wire failed.
    AcceptFault,
}

/// What a worker finds at the wire.
enum Next<L> {
    /// A connection.
    Link(L),
    /// The host stops or is halted, and no connection was taken.
    Over,
    /// No connection comes any more.
    None,
    /// The wire failed.
    Failed,
}

/// The task of each worker: connections, one after another.
#[derive(Drop)]
pub struct Visits<'a, W, C, G> {
    pub alloc: Global,
    pub wire: &'a Mutex<W>,
    pub clock: &'a C,
    pub gate: &'a G,
    /// After how many requests the host stops.
    pub requests: u32,
}

/// Whether the worker ends where its connection ended so, and then why, if early.
fn link_end(ended: LinkEnd) -> Option<Option<Early>>
    ensures { result ≡ spec.link_end ended }
{
    match ended {
        LinkEnd::JournalFull(full) => Some(Some(Early::JournalFull(full))),
        LinkEnd::Memory => Some(Some(Early::Memory)),
        LinkEnd::Drained => Some(None),
        _ => None,
    }
}

/// What ended early where a loop of slices came to this.
pub fn early_slice(came_to: Slice) -> Option<Early>
    ensures { result ≡ spec.early_slice came_to }
{
    match came_to {
        Slice::JournalFull(full) => Some(Early::JournalFull(full)),
        Slice::Memory => Some(Early::Memory),
        _ => None,
    }
}

/// What ended early where the host could not be stopped.
impl From<EventStop> for Early {
    ghost use Rattle.asp_serve.specs.Visits.{early_stop};

    ghost from_gives = { λ stop given. given ≡ early_stop stop };

    fn from(stop: EventStop) -> Early {
        match stop {
            EventStop::JournalFull(full) => Early::JournalFull(full),
            EventStop::Memory => Early::Memory,
        }
    }
}

impl<'a, W: Wire, C: Clock, G: Gate> Visits<'a, W, C, G> {
    /// The next connection, where the host neither stops nor is halted. The other workers wait meanwhile.
    fn next<Rt: Wait, R: Runner>(&self, rt: &Rt, host: &Host<R>, hand: &mut Hand<R>) -> Next<W::L>
        requires { IsHandOf R.meaning R.stands host.now hand.old }
        ensures hand { IsHandOf R.meaning R.stands host.now hand.new }
        ensures run { hand.new.run ≡ hand.old.run }
        ensures later { spec.IsLater hand.old.lane hand.new.lane }
        ensures finds { spec.Finds (spec.MayFail W.faults) result }
    {
        let mut wire = self.wire.lock(rt);
        let looked = host.look(rt, hand);
        if looked.stopping || looked.halted {
            return Next::Over;
        }
        match wire.accept() {
            Ok(Some(link)) => Next::Link(link),
            Ok(None) => Next::None,
            Err(_) => Next::Failed,
        }
    }

    /// Stops the host, or halts it where it can't be stopped, and gives why this worker ends.
    fn stop<Rt: Wait, R: Runner>(
        &self,
        rt: &Rt,
        host: &Host<R>,
        hand: &mut Hand<R>,
        early: Option<Early>,
    ) -> Option<Early>
        requires hand { IsHandOf R.meaning R.stands host.now hand.old }
        requires cause { IfSome early (spec.IsEarly (spec.MayFail W.faults) (rules_at R.meaning host.now)
            (reverse hand.old.lane.seen)) }
        ensures hand { IsHandOf R.meaning R.stands host.now hand.new }
        ensures run { hand.new.run ≡ hand.old.run }
        ensures ends { spec.Ends (spec.MayFail W.faults) (rules_at R.meaning host.now) hand.old.lane result
            hand.new.lane }
    {
        match host.stop(rt, hand) {
            Ok(()) => early,
            Err(stop) => {
                host.halt(rt, hand);
                Some(early.unwrap_or(Early::from(stop)))
            }
        }
    }

    /// Stops the host where enough requests came, and tells why this worker ends, where it does.
    fn stop_after_enough<Rt: Wait, R: Runner>(
        &self,
        rt: &Rt,
        host: &Host<R>,
        hand: &mut Hand<R>,
    ) -> Option<Option<Early>>
        requires hand { IsHandOf R.meaning R.stands host.now hand.old }
        ensures hand { IsHandOf R.meaning R.stands host.now hand.new }
        ensures run { hand.new.run ≡ hand.old.run }
        ensures comes { spec.Comes (spec.MayFail W.faults) (rules_at R.meaning host.now) hand.old.lane result
            hand.new.lane }
    {
        if host.look(rt, hand).admitted < self.requests {
            None
        } else {
            Some(self.stop(rt, host, hand, None))
        }
    }

    /// Serves a connection. Tells why the worker ends, where it ends.
    fn serve<Rt: Wait, R: Runner>(
        &self,
        rt: &Rt,
        host: &Host<R>,
        hand: &mut Hand<R>,
        mut link: W::L,
    ) -> Option<Option<Early>>
    where
        W::L: Drop,
        requires hand { IsHandOf R.meaning R.stands host.now hand.old }
        requires free { hand.old.run ≡ None }
        ensures hand { IsHandOf R.meaning R.stands host.now hand.new }
        ensures free { result ≡ None → hand.new.run ≡ None }
        ensures comes { spec.Comes (spec.MayFail W.faults) (rules_at R.meaning host.now) hand.old.lane result
            hand.new.lane }
    {
        let ended = serve_link(rt, self.alloc, host, hand, &mut link, self.clock, self.gate);
        link_end(ended)
    }

    /// Takes one connection and serves it, and stops the host where enough requests came or no connection will come.
    /// Tells why the worker ends, where it ends.
    fn visit<Rt: Wait, R: Runner>(
        &self,
        rt: &Rt,
        host: &Host<R>,
        hand: &mut Hand<R>,
    ) -> Option<Option<Early>>
    where
        W::L: Drop,
        requires hand { IsHandOf R.meaning R.stands host.now hand.old }
        requires free { hand.old.run ≡ None }
        ensures hand { IsHandOf R.meaning R.stands host.now hand.new }
        ensures free { result ≡ None → hand.new.run ≡ None }
        ensures comes { spec.Comes (spec.MayFail W.faults) (rules_at R.meaning host.now) hand.old.lane result
            hand.new.lane }
    {
        match self.next(rt, host, hand) {
            Next::Over => Some(None),
            Next::None => Some(self.stop(rt, host, hand, None)),
            Next::Failed => Some(self.stop(rt, host, hand, Some(Early::AcceptFault))),
            Next::Link(link) => match self.serve(rt, host, hand, link) {
                None => self.stop_after_enough(rt, host, hand),
                Some(None) => Some(None),
                Some(Some(early)) => {
                    host.halt(rt, hand);
                    Some(Some(early))
                }
            },
        }
    }

    /// Takes connections until the host stops or is halted. Why this worker ended, if it ended early.
    fn visits<Rt: Wait, R: Runner>(
        &self,
        rt: &Rt,
        host: &Host<R>,
        hand: &mut Hand<R>,
    ) -> Option<Early>
    where
        W::L: Drop,
        requires hand { IsHandOf R.meaning R.stands host.now hand.old }
        requires free { hand.old.run ≡ None }
        ensures hand { IsHandOf R.meaning R.stands host.now hand.new }
        ensures ends { spec.Ends (spec.MayFail W.faults) (rules_at R.meaning host.now) hand.old.lane result
            hand.new.lane }
    {
        for _ in rt.forever() {
            if let Some(early) = self.visit(rt, host, hand) {
                return early;
            }
        }
        unreachable!()
    }

    /// Works until nothing is left to do. Where something does not fit or memory runs out the host is halted, and the
    /// run in hand goes to its end. Why the worker ended, if it ended early.
    fn finish<Rt: Wait, R: Runner>(
        &self,
        rt: &Rt,
        host: &Host<R>,
        hand: &mut Hand<R>,
        mut early: Option<Early>,
    ) -> Option<Early>
        requires hand { IsHandOf R.meaning R.stands host.now hand.old }
        requires cause { IfSome early (spec.IsEarly (spec.MayFail W.faults) (rules_at R.meaning host.now)
            (reverse hand.old.lane.seen)) }
        ensures hand { IsHandOf R.meaning R.stands host.now hand.new }
        ensures free { hand.new.run ≡ None }
        ensures ends { spec.Ends (spec.MayFail W.faults) (rules_at R.meaning host.now) hand.old.lane result
            hand.new.lane }
    {
        for _ in rt.forever() {
            match early_slice(host.work_loop(rt, hand, self.gate)) {
                Some(met) => {
                    early = Some(early.unwrap_or(met));
                    host.halt(rt, hand);
                }
                // Where nothing is left to do the hand is free, which the loop's clause does not say.
                None if hand.run().is_none() => return early,
                None => {}
            }
        }
        unreachable!()
    }
}

impl<'a, Rt: Wait, R: Runner, W: Wire, C: Clock, G: Gate> Task<
    Rt,
    Host<R>,
    Worker<R, Option<Early>>,
> for Visits<'a, W, C, G>
where
    W::L: Drop,
{
    ghost accepts = { λ task host worker. spec.IsFreeHand R.meaning R.stands host worker.hand };

    ghost does = { λ task host old new. spec.HasVisited R.meaning R.stands host (spec.MayFail W.faults) old new };

    fn work(&self, rt: &Rt, shared: &Host<R>, worker: &mut Worker<R, Option<Early>>) {
        let early = self.visits(rt, shared, &mut worker.hand);
        worker.made = self.finish(rt, shared, &mut worker.hand, early);
    }
}
