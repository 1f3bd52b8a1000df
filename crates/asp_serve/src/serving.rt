//! A whole connection.
#![tactic(auto)]

ghost use Rattle.std.specs.Prelude.{◌≡◌, None};
ghost use Rattle.asp_desk.specs.Hands.{IsHandOf, rules_at};
ghost use Rattle.asp_serve.specs.Served.{IsServed};
ghost use Rattle.asp_serve.specs.Steps.{IsFree};

use crate::answering::serve_one;
use crate::ending::LinkEnd;
use asp_desk::{Gate, Hand, Host};
use asp_io::{Clock, Link};
use asp_job::Runner;
use http_front::Reader;
use std::alloc::Global;
use std::sync::Wait;

/// A connection takes at most so many requests. The last one ends it.
pub const MOST_REQUESTS: u32 = 1000;

/// Serves one connection: reads a request, brings it to the host as a job that asks by its cookie, works until its
/// answer has come and the hand holds no run, writes the answer, and goes on. What came is judged before more is read, so
/// requests that come together are answered in their order. While too many runs wait it works, and where nothing can be
/// done it sleeps. After `Refused` no more is to be read of the connection, and after `JournalFull` and `Memory` the hand
/// may hold a run.
pub fn serve_link<Rt: Wait, R: Runner, L: Link, C: Clock, G: Gate>(
    rt: &Rt,
    alloc: Global,
    host: &Host<R>,
    hand: &mut Hand<R>,
    link: &mut L,
    clock: &C,
    gate: &G,
) -> LinkEnd
    requires hand { IsHandOf R.meaning R.stands host.now hand.old }
    requires free { hand.old.run ≡ None }
    ensures hand { IsHandOf R.meaning R.stands host.now hand.new }
    ensures free { IsFree result hand.new.run }
    ensures served { IsServed (rules_at R.meaning host.now) (C.may_give clock.now) hand.old.lane hand.new.lane
        (record { left = L.left link.old; held = L.held link.old; faults = L.faults link.old })
        (record { left = L.left link.new; held = L.held link.new; faults = L.faults link.new }) result }
{
    let mut reader = Reader::new(alloc);
    for count in 0..MOST_REQUESTS {
        if let Some(ended) = serve_one(
            rt,
            alloc,
            host,
            hand,
            link,
            clock,
            gate,
            &mut reader,
            count,
        ) {
            return ended;
        }
    }
    unreachable!()
}
