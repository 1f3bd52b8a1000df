//! The calls of a hand that leave its run as it is. Each is one turn.
#![tactic(auto)]

ghost use Rattle.std.specs.Prelude.{◌≡◌, true};
ghost use Rattle.asp_job.specs.Running.{is_page};
ghost use Rattle.asp_job.specs.Size.{IsSmall};
ghost use Rattle.asp_desk.specs.Calls as spec;
ghost use Rattle.asp_desk.specs.Hands.{IsHandOf, rules_at};

use crate::hand::Hand;
use crate::host::HostOf;
use crate::looking::Looked;
use crate::stands::Placed;
use asp_core::{AdmitStop, Admitted, CollectStop, EventStop};
use asp_job::{Answer, Job, Runner};
use std::sync::Wait;

impl<R: Runner> HostOf<Placed<R>, R, R::Site> {
    /// Time goes on to `moment`, in seconds since 1970, and sessions end: it answers how many keys' sessions. An
    /// earlier moment changes nothing.
    pub fn tick<Rt: Wait>(&self, rt: &Rt, hand: &mut Hand<R>, moment: u64) -> Result<u32, EventStop>
        requires { IsHandOf R.meaning R.stands self.now hand.old }
        ensures hand { IsHandOf R.meaning R.stands self.now hand.new }
        ensures run { hand.new.run ≡ hand.old.run }
        ensures turn { spec.IsTurn (spec.Ticks (rules_at R.meaning self.now) hand.old.lane.number moment)
            hand.old.lane result hand.new.lane }
    {
        let (number, mut turn) = self.open(rt, hand);
        let placed = turn.state();
        let done = placed.tick(number, moment);
        self.shut_event(hand, turn);
        self.bell.ring_if(done.is_ok());
        done
    }

    /// The job of a page comes, under the next number. A moment that is greater than the journal's makes a Tick first.
    pub fn admit<Rt: Wait>(
        &self,
        rt: &Rt,
        hand: &mut Hand<R>,
        job: &Job,
    ) -> Result<Admitted, AdmitStop>
        requires hand { IsHandOf R.meaning R.stands self.now hand.old }
        requires page { is_page job.now.work ≡ true }
        requires small { IsSmall job.now }
        ensures hand { IsHandOf R.meaning R.stands self.now hand.new }
        ensures run { hand.new.run ≡ hand.old.run }
        ensures turn { spec.IsTurn (spec.Admits (rules_at R.meaning self.now) hand.old.lane.number job.now)
            hand.old.lane result hand.new.lane }
    {
        let (number, mut turn) = self.open(rt, hand);
        let placed = turn.state();
        let done = placed.admit(number, &self.runner, &self.site, job);
        self.shut_event(hand, turn);
        self.bell.ring_came(done.is_ok());
        done
    }

    /// No job is admitted from now on, and the sessions end. After a Stop it changes nothing.
    pub fn stop<Rt: Wait>(&self, rt: &Rt, hand: &mut Hand<R>) -> Result<(), EventStop>
        requires { IsHandOf R.meaning R.stands self.now hand.old }
        ensures hand { IsHandOf R.meaning R.stands self.now hand.new }
        ensures run { hand.new.run ≡ hand.old.run }
        ensures turn { spec.IsTurn (spec.Stops (rules_at R.meaning self.now) hand.old.lane.number)
            hand.old.lane result hand.new.lane }
    {
        let (number, mut turn) = self.open(rt, hand);
        let placed = turn.state();
        let done = placed.stop(number);
        self.shut_event(hand, turn);
        self.bell.ring_if(done.is_ok());
        done
    }

    /// No run begins from now on. After a Halt it changes nothing. It takes no memory.
    pub fn halt<Rt: Wait>(&self, rt: &Rt, hand: &mut Hand<R>)
        requires { IsHandOf R.meaning R.stands self.now hand.old }
        ensures hand { IsHandOf R.meaning R.stands self.now hand.new }
        ensures run { hand.new.run ≡ hand.old.run }
        ensures turn { spec.IsTurn (spec.Halts hand.old.lane.number) hand.old.lane tt hand.new.lane }
    {
        let (number, mut turn) = self.open(rt, hand);
        let placed = turn.state();
        placed.halt(number);
        self.shut_event(hand, turn);
        self.bell.ring();
    }

    /// Hands the answer of a run out, to the lane that asked for the run. It takes no memory.
    pub fn collect<Rt: Wait>(
        &self,
        rt: &Rt,
        hand: &mut Hand<R>,
        run: u32,
    ) -> Result<Answer, CollectStop>
        requires { IsHandOf R.meaning R.stands self.now hand.old }
        ensures hand { IsHandOf R.meaning R.stands self.now hand.new }
        ensures run { hand.new.run ≡ hand.old.run }
        ensures turn { spec.IsTurn (spec.Collects (rules_at R.meaning self.now) hand.old.lane.number run)
            hand.old.lane result hand.new.lane }
    {
        let (number, mut turn) = self.open(rt, hand);
        let placed = turn.state();
        let done = placed.collect(number, run);
        let left = placed.left(&self.bell, done.is_ok());
        self.shut_event(hand, turn);
        self.bell.ring_left(left);
        done
    }

    /// Hands the first answer out that waits for the lane, with the number of its run, if one does. It takes no memory.
    pub fn collect_first<Rt: Wait>(&self, rt: &Rt, hand: &mut Hand<R>) -> Option<(u32, Answer)>
        requires { IsHandOf R.meaning R.stands self.now hand.old }
        ensures hand { IsHandOf R.meaning R.stands self.now hand.new }
        ensures run { hand.new.run ≡ hand.old.run }
        ensures turn { spec.IsTurn (spec.CollectsFirst (rules_at R.meaning self.now) hand.old.lane.number)
            hand.old.lane result hand.new.lane }
    {
        let (number, mut turn) = self.open(rt, hand);
        let placed = turn.state();
        let given = placed.collect_first(number);
        let left = placed.left(&self.bell, given.is_some());
        self.shut_event(hand, turn);
        self.bell.ring_left(left);
        given
    }

    /// What the journal says at one moment. It takes no memory.
    pub fn look<Rt: Wait>(&self, rt: &Rt, hand: &mut Hand<R>) -> Looked
        requires { IsHandOf R.meaning R.stands self.now hand.old }
        ensures hand { IsHandOf R.meaning R.stands self.now hand.new }
        ensures run { hand.new.run ≡ hand.old.run }
        ensures turn { spec.IsTurn (spec.Looks (rules_at R.meaning self.now)) hand.old.lane result hand.new.lane }
    {
        let (number, mut turn) = self.open(rt, hand);
        let placed = turn.state();
        let looked = placed.look(number);
        self.shut_event(hand, turn);
        looked
    }
}
