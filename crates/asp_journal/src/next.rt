//! The runs that wait or are unfinished, and which may begin next.
#![tactic(auto)]

ghost use Rattle.std.specs.Prelude.{◌≡◌, ◌≤◌, ◌+◌, ◌-◌, ◌<◌, ◌*◌, ◌^◌, ◌==◌, ◌&&◌, ℕ, false, true, reverse};
ghost use Rattle.std.specs.Prelude.{length, filter, min};
ghost use Rattle.std.specs.Prelude.{IfNone, IfSome};
ghost use Rattle.std.specs.List.{find, list_any};
ghost use Rattle.asp_job.specs.History as history;
ghost use Rattle.asp_job.specs.Runs as runs;
ghost use Rattle.asp_job.specs.Turns as turns;

use crate::journal::Journal;
use asp_job::Stage;

impl Journal {
    /// Whether a run waits.
    pub fn is_waiting(&self, run: u64) -> bool
        ensures { result ≡ runs.is_waiting (reverse self.now.items) run }
    {
        matches!(self.stage_of(run), Stage::Waiting)
    }

    /// Whether a run is unfinished.
    pub fn is_unfinished(&self, run: u64) -> bool
        ensures { result ≡ runs.is_unfinished (reverse self.now.items) run }
    {
        matches!(self.stage_of(run), Stage::Unfinished)
    }

    /// Whether a run has ended.
    pub fn has_ended(&self, run: u64) -> bool
        ensures { result ≡ runs.has_ended (reverse self.now.items) run }
    {
        matches!(self.stage_of(run), Stage::Ended)
    }

    fn is_open(&self, run: u64) -> bool
        ensures { result ≡ runs.is_open (reverse self.now.items) run }
    {
        self.is_waiting(run) || self.is_unfinished(run)
    }

    fn is_waiting_page(&self, run: u64) -> bool
        ensures { result ≡ turns.is_waiting_page (reverse self.now.items) run }
    {
        self.is_waiting(run) && self.is_page_run(run)
    }

    /// How many runs are unfinished.
    #[tactic(auto, using(crate::proofs::Passing::count_take))]
    pub fn unfinished(&self) -> u64
        ensures unfinished { result ≡ length (runs.unfinished (reverse self.now.items)) }
        ensures few { result ≤ history.entries_in (reverse self.now.items) }
        ensures within { result ≤ length self.now.items }
    {
        let listed = self.open_runs();
        let mut unfinished = 0;
        for run in listed {
            if self.is_unfinished(*run as u64) {
                unfinished += 1;
            }
        }
        unfinished
    }

    /// How many runs wait.
    #[tactic(auto, using(crate::proofs::Passing::count_take))]
    pub fn waiting(&self) -> u64
        ensures { result ≡ length (runs.waiting (reverse self.now.items)) }
    {
        let listed = self.open_runs();
        let mut waiting = 0;
        for run in listed {
            if self.is_waiting(*run as u64) {
                waiting += 1;
            }
        }
        waiting
    }

    /// How many page runs wait.
    #[tactic(auto, using(crate::proofs::Passing::count_take))]
    pub fn waiting_pages(&self) -> u64
        ensures { result ≡ length (turns.waiting_pages (reverse self.now.items)) }
    {
        let listed = self.open_runs();
        let mut waiting = 0;
        for run in listed {
            if self.is_waiting_page(*run as u64) {
                waiting += 1;
            }
        }
        waiting
    }

    fn goes_before(&self, run: u64, other: u64) -> bool
        ensures { result ≡ turns.goes_before (reverse self.now.items) run other }
    {
        self.key_of(other) == self.key_of(run)
            && (self.is_unfinished(other) || self.is_waiting(other) && other < run)
    }

    fn any_before(&self, run: u64) -> bool
        ensures { result ≡ list_any (turns.goes_before (reverse self.now.items) run)
            (runs.numbers (runs.drawn (reverse self.now.items))) }
    {
        let listed = self.open_runs();
        for other in listed {
            if self.goes_before(run, *other as u64) {
                return true;
            }
        }
        false
    }

    /// Whether a run with a key has to wait for another of that key.
    pub fn is_behind(&self, run: u64) -> bool
        ensures { result ≡ turns.is_behind (reverse self.now.items) run }
    {
        self.key_of(run) != 0 && self.any_before(run)
    }

    fn is_other_open(&self, run: u64, other: u64) -> bool
        ensures { result ≡ turns.is_other_open (reverse self.now.items) run other }
    {
        other != run && self.is_open(other)
    }

    /// Whether another run waits or is unfinished.
    pub fn has_company(&self, run: u64) -> bool
        ensures { result ≡ turns.has_company (reverse self.now.items) run }
    {
        let listed = self.open_runs();
        for other in listed {
            if self.is_other_open(run, *other as u64) {
                return true;
            }
        }
        false
    }

    fn may_begin(&self, run: u64) -> bool
        ensures { result ≡ turns.may_begin (reverse self.now.items) run }
    {
        self.is_waiting(run)
            && (run == 1 || self.has_ended(1))
            && !self.is_behind(run)
            && !(self.is_last_run(run) && self.has_company(run))
    }

    fn first_run(&self) -> Option<u64>
        ensures { result ≡ find (turns.may_begin (reverse self.now.items))
            (runs.numbers (runs.drawn (reverse self.now.items))) }
    {
        let listed = self.open_runs();
        for run in listed {
            if self.may_begin(*run as u64) {
                return Some(*run as u64);
            }
        }
        None
    }

    /// The least of the runs that may begin.
    pub fn next_run(&self) -> Option<u64>
        ensures none { IfNone result ((run : ℕ) → run < runs.drawn (reverse self.now.items) →
            turns.may_begin (reverse self.now.items) (run + 1) ≡ false) }
        ensures next { IfSome result (λ run. turns.may_begin (reverse self.now.items) run ≡ true) }
        ensures within { IfSome result (λ run. run ≤ runs.drawn (reverse self.now.items)) }
        ensures least { IfSome result (λ run. (other : ℕ) → other + 1 < run →
            turns.may_begin (reverse self.now.items) (other + 1) ≡ false) }
    {
        self.first_run()
    }

    /// How many entries there would be with one End for each unfinished run.
    pub fn load(&self) -> u64
        ensures load { result ≡ history.load (reverse self.now.items) }
        ensures within { result ≤ 2 * length self.now.items }
    {
        self.entries_in() + self.unfinished()
    }

    /// What they would weigh. 2^64 - 1 stands for a greater weight.
    pub fn weight_load(&self) -> u64
        ensures { result ≡ min (history.weight_load (reverse self.now.items)) (2 ^ 64 - 1) }
    {
        self.weight_in()
            .saturating_add(self.unfinished().saturating_mul(64))
    }
}
