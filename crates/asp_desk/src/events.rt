//! The calls of the core that leave runs as they are, as one turn makes them.
#![tactic(auto)]

ghost use Rattle.std.specs.Prelude.{◌≡◌, ◌<◌, ◌^◌, reverse, length, true};
ghost use Rattle.asp_job.specs.Journal.{IsValidJournal};
ghost use Rattle.asp_job.specs.Running.{is_page};
ghost use Rattle.asp_job.specs.Size.{IsSmall};
ghost use Rattle.asp_core.specs.Kernel.{IsHostOf, rules_of};
ghost use Rattle.asp_desk.specs.Calls as spec;
ghost use Rattle.asp_desk.specs.Hands.{IsSameHouse};

use crate::looking::Looked;
use crate::stands::Placed;
use asp_core::{AdmitStop, Admitted, CollectStop, EventStop};
use asp_job::{Answer, Job, Runner};

impl<R: Runner> Placed<R> {
    /// What is known of each core: its journal is valid, and short.
    pub(crate) fn check(&self)
        ensures valid { IsValidJournal (rules_of R.meaning self.now.core) (reverse self.now.core.journal) }
        ensures short { length self.now.core.journal < 2 ^ 32 }
    {
        let _ = self.core.journal();
        let _ = self.core.length();
    }

    pub(crate) fn tick(&mut self, lane: u32, moment: u64) -> Result<u32, EventStop>
        ensures turn { spec.Ticks (rules_of R.meaning self.old.core) lane moment
            self.old.core.journal result self.new.core.journal }
        ensures adds { spec.AddsEvents lane self.old.core.journal self.new.core.journal }
        ensures house { IsSameHouse self.old.core self.new.core }
        ensures valid { IsValidJournal (rules_of R.meaning self.old.core) (reverse self.new.core.journal) }
        ensures short { length self.new.core.journal < 2 ^ 32 }
    {
        let done = self.core.tick(lane, moment);
        self.check();
        done
    }

    pub(crate) fn admit(
        &mut self,
        lane: u32,
        runner: &R,
        site: &R::Site,
        job: &Job,
    ) -> Result<Admitted, AdmitStop>
        requires host { IsHostOf self.old.core runner.now site.now }
        requires page { is_page job.now.work ≡ true }
        requires small { IsSmall job.now }
        ensures turn { spec.Admits (rules_of R.meaning self.old.core) lane job.now
            self.old.core.journal result self.new.core.journal }
        ensures adds { spec.AddsEvents lane self.old.core.journal self.new.core.journal }
        ensures house { IsSameHouse self.old.core self.new.core }
        ensures valid { IsValidJournal (rules_of R.meaning self.old.core) (reverse self.new.core.journal) }
        ensures short { length self.new.core.journal < 2 ^ 32 }
    {
        let done = self.core.admit(lane, runner, site, job);
        self.check();
        done
    }

    pub(crate) fn stop(&mut self, lane: u32) -> Result<(), EventStop>
        ensures turn { spec.Stops (rules_of R.meaning self.old.core) lane
            self.old.core.journal result self.new.core.journal }
        ensures adds { spec.AddsEvents lane self.old.core.journal self.new.core.journal }
        ensures house { IsSameHouse self.old.core self.new.core }
        ensures valid { IsValidJournal (rules_of R.meaning self.old.core) (reverse self.new.core.journal) }
        ensures short { length self.new.core.journal < 2 ^ 32 }
    {
        let done = self.core.stop(lane);
        self.check();
        done
    }

    pub(crate) fn halt(&mut self, lane: u32)
        ensures turn { spec.Halts lane self.old.core.journal tt self.new.core.journal }
        ensures adds { spec.AddsEvents lane self.old.core.journal self.new.core.journal }
        ensures house { IsSameHouse self.old.core self.new.core }
        ensures valid { IsValidJournal (rules_of R.meaning self.old.core) (reverse self.new.core.journal) }
        ensures short { length self.new.core.journal < 2 ^ 32 }
    {
        self.core.halt(lane);
        self.check();
    }

    pub(crate) fn collect(&mut self, lane: u32, run: u32) -> Result<Answer, CollectStop>
        ensures turn { spec.Collects (rules_of R.meaning self.old.core) lane run
            self.old.core.journal result self.new.core.journal }
        ensures adds { spec.AddsEvents lane self.old.core.journal self.new.core.journal }
        ensures house { IsSameHouse self.old.core self.new.core }
        ensures valid { IsValidJournal (rules_of R.meaning self.old.core) (reverse self.new.core.journal) }
        ensures short { length self.new.core.journal < 2 ^ 32 }
    {
        let done = self.core.collect(lane, run);
        self.check();
        done
    }

    pub(crate) fn collect_first(&mut self, lane: u32) -> Option<(u32, Answer)>
        ensures turn { spec.CollectsFirst (rules_of R.meaning self.old.core) lane
            self.old.core.journal result self.new.core.journal }
        ensures adds { spec.AddsEvents lane self.old.core.journal self.new.core.journal }
        ensures house { IsSameHouse self.old.core self.new.core }
        ensures valid { IsValidJournal (rules_of R.meaning self.old.core) (reverse self.new.core.journal) }
        ensures short { length self.new.core.journal < 2 ^ 32 }
    {
        let given = self.core.collect_first(lane);
        self.check();
        given
    }

    /// What the journal says.
    fn looked(&self) -> Looked
        ensures { result ≡ spec.looked_of (rules_of R.meaning self.now.core) (reverse self.now.core.journal) }
    {
        let core = &self.core;
        Looked {
            waiting: core.waiting(),
            waiting_pages: core.waiting_pages(),
            unfinished: core.unfinished(),
            moment: core.moment(),
            admitted: core.admitted(),
            entries: core.entries(),
            stopping: core.stopping(),
            halted: core.halted(),
            start_kind: core.start_kind(),
            start_fail: core.start_fail(),
        }
    }

    pub(crate) fn look(&mut self, lane: u32) -> Looked
        ensures turn { spec.Looks (rules_of R.meaning self.old.core)
            self.old.core.journal result self.new.core.journal }
        ensures adds { spec.AddsEvents lane self.old.core.journal self.new.core.journal }
        ensures house { IsSameHouse self.old.core self.new.core }
        ensures valid { IsValidJournal (rules_of R.meaning self.old.core) (reverse self.new.core.journal) }
        ensures short { length self.new.core.journal < 2 ^ 32 }
    {
        self.check();
        self.looked()
    }
}
