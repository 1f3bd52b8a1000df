//! The calls of the core that hand answers out, and the one after which no run begins.
#![tactic(auto)]

ghost use Rattle.std.specs.Prelude.{◌≡◌, ◌∷◌, [], true, false, Some, IfOk, IfNone, IfSome, OnOk, OnErr};
ghost use Rattle.asp_job.specs.History.{with_lane};
ghost use Rattle.asp_job.specs.Runs as runs;
ghost use Rattle.asp_job.specs.Output.{answer_of_run};
ghost use Rattle.asp_core.specs.Kernel.{past_of, rules_of, grown};
ghost use Rattle.asp_core.specs.Ready as spec;

use crate::kernel::Core;
use crate::ready::first_for;
use crate::stop::CollectStop;
use crate::takes::{collect_stop, take_run};
use asp_job::{Answer, Entry, Runner, What};

impl<R: Runner> Core<R> {
    /// Hands the answer of a run out, to the lane that asked for the run. It takes no memory. A refusal changes
    /// nothing.
    pub fn collect(&mut self, lane: u32, run: u32) -> Result<Answer, CollectStop>
        ensures stop { spec.stop_of result ≡ spec.collect_stop (past_of self.old) lane run }
        ensures answer { IfOk result (λ answer.
            answer_of_run (rules_of R.meaning self.old) (past_of self.old) run ≡ Some answer) }
        ensures ok { OnOk result (self.new ≡ grown self.old (with_lane lane (What.Take run) ∷ [])) }
        ensures err { OnErr result (self.new ≡ self.old) }
    {
        if let Some(stop) = collect_stop(self.kept.book.journal(), lane, run) {
            return Err(stop);
        }
        Ok(take_run(&mut self.kept.book, lane, run))
    }

    /// Hands the first answer out that waits for the lane, if one does: that of the run that ended or was refused first
    /// among those for which the lane asked. It takes no memory.
    pub fn collect_first(&mut self, lane: u32) -> Option<(u32, Answer)>
        ensures first { result ≡ spec.first_for (past_of self.old) lane
            (spec.ready (rules_of R.meaning self.old) (past_of self.old)) }
        ensures answer { IfSome result (λ given.
            answer_of_run (rules_of R.meaning self.old) (past_of self.old) given.0 ≡ Some given.1) }
        ensures some { IfSome result (λ given. self.new ≡ grown self.old (with_lane lane (What.Take given.0) ∷ [])) }
        ensures none { IfNone result (self.new ≡ self.old) }
    {
        let Some(run) = first_for(&self.kept.book, lane) else {
            return None;
        };
        let answer = take_run(&mut self.kept.book, lane, run);
        Some((run, answer))
    }

    /// No run begins from now on. After a Halt it changes nothing. It takes no memory.
    pub fn halt(&mut self, lane: u32)
        ensures first { runs.is_halted (past_of self.old) ≡ false →
            self.new ≡ grown self.old (with_lane lane What.Halt ∷ []) }
        ensures again { runs.is_halted (past_of self.old) ≡ true → self.new ≡ self.old }
    {
        if self.kept.book.journal().is_halted() {
            return;
        }
        self.kept.book.push(Entry {
            lane,
            what: What::Halt,
        });
    }
}
