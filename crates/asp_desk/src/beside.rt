//! Hands that work in threads of their own.
#![tactic(auto)]

ghost use Rattle.std.specs.Prelude.{◌≡◌, All};
ghost use Rattle.std.specs.List.{AllZip};
ghost use Rattle.asp_desk.specs.Crews as spec;
ghost use Rattle.asp_desk.specs.Hands.{IsHandOf};

use crate::crew::CrewOf;
use crate::gate::Gate;
use crate::hand::Hand;
use crate::host::{Host, HostOf};
use crate::slices::Slice;
use crate::stands::Placed;
use crate::task::{Lead, Task, beside, each};
use crate::worker::WorkerOf;
use asp_job::Runner;
use std::sync::Wait;
use std::thread::Threads;

/// A hand of a host, and a place for what comes of the work with it.
pub type Worker<R, T> = WorkerOf<Hand<R>, T>;

/// Hands of a host, each in a thread of its own while they work.
pub type Crew<R, T> = CrewOf<Hand<R>, T>;

/// The task to loop: slices one after another, each run of which passes the gate.
#[derive(Clone, Copy)]
pub struct Looping<'a, G> {
    /// The gate.
    pub gate: &'a G,
}

impl<'a, Rt: Wait, R: Runner, G: Gate> Task<Rt, Host<R>, Worker<R, Slice>> for Looping<'a, G> {
    ghost accepts = { λ task host worker. IsHandOf R.meaning R.stands host worker.hand };

    ghost does = { λ task host old new.
        spec.LoopsOn R.pace R.meaning R.stands (G.may_hold task.gate.now) host old new };

    fn work(&self, rt: &Rt, shared: &Host<R>, worker: &mut Worker<R, Slice>) {
        worker.made = shared.work_loop(rt, &mut worker.hand, self.gate);
    }
}

impl<R: Runner + Sync> HostOf<Placed<R>, R, R::Site> {
    /// Each worker of a crew does the task, in a thread of its own where one can be made.
    pub fn work_all<Rt, T, K>(&self, rt: &Rt, task: &K, crew: &mut Crew<R, T>)
    where
        R::Site: Sync,
        R::Store: Send,
        R::State: Send,
        Rt: Threads + Wait + Sync,
        T: Send,
        K: Task<Rt, Host<R>, Worker<R, T>> + Sync,
        requires { All (λ worker. K.accepts task.now self.now worker) crew.old }
        ensures { AllZip (K.does task.now self.now) crew.old crew.new }
    {
        each(rt, self, task, &mut crew.workers)
    }

    /// The same, while the calling thread leads with a hand of its own.
    pub fn work_beside<Rt, T, K, L>(
        &self,
        rt: &Rt,
        task: &K,
        crew: &mut Crew<R, T>,
        hand: &mut Hand<R>,
        lead: &mut L,
    ) -> L::Told
    where
        R::Site: Sync,
        R::Store: Send,
        R::State: Send,
        Rt: Threads + Wait + Sync,
        T: Send,
        K: Task<Rt, Host<R>, Worker<R, T>> + Sync,
        L: Lead<Hand<R>>,
        requires crew { All (λ worker. K.accepts task.now self.now worker) crew.old }
        requires lead { L.accepts lead.old hand.old }
        ensures crew { AllZip (K.does task.now self.now) crew.old crew.new }
        ensures lead { L.does lead.old hand.old result lead.new hand.new }
    {
        beside(rt, self, task, &mut crew.workers, hand, lead)
    }
}
