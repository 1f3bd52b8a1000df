//! What the core tells of its journal besides.
#![tactic(auto)]

ghost use Rattle.std.specs.Prelude.{◌≡◌, ◌≤◌, reverse, length};
ghost use Rattle.asp_job.specs.Runs as runs;
ghost use Rattle.asp_job.specs.Turns as turns;
ghost use Rattle.asp_core.specs.Kernel.{past_of, rules_of};
ghost use Rattle.asp_core.specs.Start as starts;
ghost use Rattle.asp_journal.specs.Telling as spec;

use crate::kernel::Core;
use asp_job::{EndKind, Fail, Runner};

impl<R: Runner> Core<R> {
    /// How many runs wait, those of pages and those that the host queued.
    #[tactic(auto, using(crate::proofs::Telling::waiting_small))]
    pub fn waiting(&self) -> u32
        ensures { result ≡ length (runs.waiting (past_of self.now)) }
    {
        self.kept.book.journal().waiting() as u32
    }

    /// How many runs of pages wait. From 1,024 on no job is admitted.
    #[tactic(auto, using(crate::proofs::Telling::pages_small))]
    pub fn waiting_pages(&self) -> u32
        ensures { result ≡ length (turns.waiting_pages (past_of self.now)) }
    {
        self.kept.book.journal().waiting_pages() as u32
    }

    /// How many jobs came, those that were refused under a number too.
    #[tactic(auto, using(crate::proofs::Telling::admitted_small))]
    pub fn admitted(&self) -> u32
        ensures { result ≡ spec.admitted (past_of self.now) }
    {
        self.kept.book.journal().jobs() as u32
    }

    /// How the first run ended, once it has.
    pub fn start_kind(&self) -> Option<EndKind>
        ensures { result ≡ spec.end_kind (past_of self.now) 1 }
    {
        self.kept.book.journal().end_kind(1)
    }

    /// Why the first run failed, once it has ended by itself.
    pub fn start_fail(&self) -> Option<Fail>
        ensures { result ≡ starts.start_fail (rules_of R.meaning self.now) (past_of self.now) }
    {
        self.kept.start_fail
    }
}
