//! What workers do in threads, and what the calling thread does beside them.
#![tactic(auto)]

ghost use Rattle.std.specs.Prelude.{◌≡◌, All};
ghost use Rattle.std.specs.List.{AllZip};
ghost use Rattle.std.specs.Thread.{IsSend, IsSync};

use std::sync::Wait;
use std::thread::{Threads, for_each_mut, join_mut};

/// What each worker does, with what all of them share. It is generic in what is shared and in the worker, since threads
/// are lent values of bare type parameters alone.
pub trait Task<Rt: Wait, C, W> {
    /// With what it may begin.
    ghost accepts: { Self → C → W → Type 0 };

    /// What it does to the worker.
    ghost does: { Self → C → W → W → Type 0 };

    /// Does it.
    fn work(&self, rt: &Rt, shared: &C, worker: &mut W)
        requires { accepts self.now shared.now worker.old }
        ensures { does self.now shared.now worker.old worker.new };
}

/// What the calling thread does with a hand, while others work. What it lends, as a sink, is a `&mut` of the type.
pub trait Lead<H> {
    /// What it tells.
    type Told;

    /// With what it may begin.
    ghost accepts: { Self → H → Type 0 };

    /// What it does: to itself and to the hand, and what it tells of it.
    ghost does: { Self → H → Self.Told → Self → H → Type 0 };

    /// Does it.
    fn lead(&mut self, hand: &mut H) -> Self::Told
        requires { accepts self.old hand.old }
        ensures { does self.old hand.old result self.new hand.new };
}

/// Each worker does the task, in a thread of its own.
pub(crate) fn each<Rt: Threads + Wait + Sync, C: Sync, K: Task<Rt, C, W> + Sync, W: Send>(
    rt: &Rt,
    shared: &C,
    task: &K,
    workers: &mut [W],
)
    requires workers { All (λ worker. K.accepts task.now shared.now worker) workers.old }
    ensures { AllZip (K.does task.now shared.now) workers.old workers.new }
{
    let count = workers.len().max(1);
    for_each_mut(
        rt,
        workers,
        count,
        &|_, worker| task.work(rt, shared, worker),
    );
}

/// The same, while the calling thread leads.
pub(crate) fn beside<
    Rt: Threads + Wait + Sync,
    C: Sync,
    K: Task<Rt, C, W> + Sync,
    W: Send,
    H,
    L: Lead<H>,
>(rt: &Rt, shared: &C, task: &K, workers: &mut [W], hand: &mut H, lead: &mut L) -> L::Told
    requires workers { All (λ worker. K.accepts task.now shared.now worker) workers.old }
    requires lead { L.accepts lead.old hand.old }
    ensures workers { AllZip (K.does task.now shared.now) workers.old workers.new }
    ensures lead { L.does lead.old hand.old result lead.new hand.new }
{
    let (_, told) = join_mut(
        rt,
        &mut ||
            requires { IsSync Rt.row × IsSync C.row × IsSync K.row × IsSend W.row
                × All (λ worker. K.accepts task.now shared.now worker) workers.now }
            ensures { AllZip (K.does task.entry.now shared.entry.now) workers.entry.now workers.exit.now }
        { each(rt, shared, task, workers) },
        &mut || lead.lead(hand),
    );
    told
}
