//! A journal, and what it tells at once.
#![tactic(auto)]

ghost use Rattle.std.specs.Prelude.{◌≡◌, ◌+◌, ◌-◌, ◌<◌, ◌≤◌, ◌^◌, [], min, reverse, length};
ghost use Rattle.std.specs.Prelude.{IfSome};
ghost use Rattle.vb_value.specs.Outcome.{Gives};
ghost use Rattle.asp_job.specs.History as history;
ghost use Rattle.asp_job.specs.Keys as keys;
ghost use Rattle.asp_job.specs.Running as running;
ghost use Rattle.asp_job.specs.Runs as runs;
ghost use Rattle.asp_job.specs.Turns as turns;
ghost use Rattle.asp_journal.specs.Tables as spec;
ghost use Rattle.asp_journal.specs.Rows as rows;
ghost use Rattle.asp_journal.specs.Telling as telling;

use crate::rows::{Row, look_up};
use crate::tally::Tally;
use crate::told::{job_in, queued};
use asp_job::{EndKind, Entry, Job, Stage, Work};
use std::alloc::Global;
use std::marker::Model;
use vb_value::Memory;

/// A journal, seen as its entries, oldest first.
#[derive(Drop)]
pub struct Journal {
    pub(crate) journal: Vec<Entry>,
    pub(crate) rows: Vec<Row>,
    pub(crate) tally: Tally,
    /// The runs that wait or are unfinished, in order.
    pub(crate) listed: Vec<u32>,
    /// How many entries there may be before one more takes memory.
    pub(crate) capacity: usize,
}

impl Model for Journal {
    ghost use Rattle.std.specs.Prelude.{reverse, length, vec_len, vec_capacity};
    ghost use Rattle.std.specs.Coded.{codes};
    ghost use Rattle.vb_value.specs.contracts.value.Value as contract;
    ghost use Rattle.asp_journal.specs.Tables.{IsIndexed, HasSpare};
    ghost use Rattle.asp_journal.specs.View.{JournalView};

    ghost Value = { JournalView };

    ghost coded = { Prim.hlevel (codes, contract.the_row.coded) };

    ghost view = { λ j. record { items = j.journal.items; capacity = j.capacity } };

    ghost invariant = { λ j.
        IsIndexed (reverse j.journal.items) j.rows.items j.tally j.listed.items
        × HasSpare (vec_len j.journal) (vec_len j.rows) (vec_len j.listed) j.capacity
        (vec_capacity j.journal) (vec_capacity j.rows) (vec_capacity j.listed) };
}

/// The job of the run that was drawn by the entry at the place; of no run a Start.
fn job_by(journal: &[Entry], place: Option<usize>, run: u64) -> Result<Job, Memory>
    requires { IfSome place (λ place. place < length journal.now) }
    ensures { Gives result (rows.job_by journal.now place run) }
{
    match place {
        None => queued(&Work::Start),
        Some(place) => match job_in(run, &journal[place].what)? {
            Some(job) => Ok(job),
            None => queued(&Work::Start),
        },
    }
}

impl Journal {
    /// A journal with no entry.
    pub fn new(alloc: Global) -> Journal
        ensures { result.items ≡ [] }
    {
        Journal {
            journal: Vec::new(alloc),
            rows: Vec::new(alloc),
            tally: Tally {
                made: 0,
                jobs: 0,
                moment: 0,
                entries: 0,
                weight: 0,
                stopping: false,
                halted: false,
            },
            listed: Vec::new(alloc),
            capacity: 0,
        }
    }

    /// Where its memory comes from.
    pub fn alloc(&self) -> Global {
        *self.journal.allocator()
    }

    /// How many entries there are.
    pub fn len(&self) -> usize
        ensures len { result ≡ length self.now.items }
        ensures small { result < 2 ^ 63 }
    {
        self.journal.len()
    }

    /// The entries, oldest first.
    pub fn entries(&self) -> &[Entry]
        ensures { result.now ≡ self.now.items }
    {
        self.journal.as_slice()
    }

    /// The runs that wait or are unfinished, in order.
    pub fn open_runs(&self) -> &[u32]
        ensures { result.now ≡ spec.open_runs (reverse self.now.items) }
    {
        self.listed.as_slice()
    }

    fn row_of(&self, run: u64) -> Row
        ensures { result ≡ rows.row_of (reverse self.now.items) run }
    {
        look_up(self.rows.as_slice(), run)
    }

    #[tactic(auto, using(crate::proofs::Indexing::tally_few))]
    fn tally_of(&self) -> Tally
        ensures small { result.entries < 2 ^ 63 }
        ensures tally { result ≡ spec.tally_of (reverse self.now.items) }
    {
        self.tally
    }

    /// A copy of the job of a run.
    #[tactic(auto, using(crate::proofs::Placing::place_found))]
    pub fn job_of(&self, run: u64) -> Result<Job, Memory>
        ensures { Gives result (runs.job_of (reverse self.now.items) run) }
    {
        job_by(self.journal.as_slice(), self.row_of(run).place, run)
    }

    /// Where a run stands.
    pub fn stage_of(&self, run: u64) -> Stage
        ensures { result ≡ runs.stage_of (reverse self.now.items) run }
    {
        self.row_of(run).stage
    }

    /// The session key of a run, 0 for none.
    pub fn key_of(&self, run: u64) -> u32
        ensures { result ≡ runs.key_of (reverse self.now.items) run }
    {
        self.row_of(run).key
    }

    /// Whether the key of a run was made for it.
    pub fn is_fresh(&self, run: u64) -> bool
        ensures { result ≡ runs.is_fresh (reverse self.now.items) run }
    {
        self.row_of(run).fresh
    }

    /// The lane of a run's Begin.
    pub fn lane_of(&self, run: u64) -> Option<u32>
        ensures { result ≡ runs.lane_of (reverse self.now.items) run }
    {
        self.row_of(run).lane
    }

    /// The lane that asked for a run.
    pub fn asking_lane_of(&self, run: u64) -> Option<u32>
        ensures { result ≡ runs.asking_lane_of (reverse self.now.items) run }
    {
        self.row_of(run).asking
    }

    /// Whether the answer of a run was handed out.
    pub fn is_taken(&self, run: u64) -> bool
        ensures { result ≡ runs.is_taken (reverse self.now.items) run }
    {
        self.row_of(run).taken
    }

    /// How a run ended, once it has.
    pub fn end_kind(&self, run: u64) -> Option<EndKind>
        ensures { result ≡ telling.end_kind (reverse self.now.items) run }
    {
        self.row_of(run).kind
    }

    /// Whether a run is that of a page.
    pub fn is_page_run(&self, run: u64) -> bool
        ensures { result ≡ running.is_page (runs.job_of (reverse self.now.items) run).work }
    {
        self.row_of(run).page
    }

    /// Whether a run is the last one.
    pub fn is_last_run(&self, run: u64) -> bool
        ensures { result ≡ turns.is_last_work (runs.job_of (reverse self.now.items) run).work }
    {
        self.row_of(run).last
    }

    /// How many runs were drawn.
    #[tactic(auto, using(crate::proofs::Indexing::drawn_few))]
    pub fn drawn(&self) -> u64
        ensures drawn { result ≡ runs.drawn (reverse self.now.items) }
        ensures small { result ≤ history.entries_in (reverse self.now.items) }
        ensures within { result ≤ length self.now.items }
    {
        self.rows.len() as u64
    }

    /// How many keys were made.
    #[tactic(auto, using(crate::proofs::Indexing::made_few))]
    pub fn made(&self) -> u64
        ensures made { result ≡ keys.made (reverse self.now.items) }
        ensures small { result ≤ history.entries_in (reverse self.now.items) }
        ensures within { result ≤ length self.now.items }
    {
        self.tally_of().made
    }

    /// How many jobs came, those that were refused too.
    pub fn jobs(&self) -> u64
        ensures { result ≡ telling.admitted (reverse self.now.items) }
    {
        self.tally_of().jobs
    }

    /// The moment of the last Tick, 0 before the first.
    pub fn moment(&self) -> u64
        ensures { result ≡ runs.moment_of (reverse self.now.items) }
    {
        self.tally_of().moment
    }

    /// How many entries count.
    #[tactic(auto, using(crate::proofs::Indexing::entries_within))]
    pub fn entries_in(&self) -> u64
        ensures entries { result ≡ history.entries_in (reverse self.now.items) }
        ensures within { result ≤ length self.now.items }
        ensures small { result < 2 ^ 63 }
    {
        self.tally_of().entries
    }

    /// What the entries weigh. 2^64 - 1 stands for a greater weight.
    pub fn weight_in(&self) -> u64
        ensures { result ≡ min (history.weight_in (reverse self.now.items)) (2 ^ 64 - 1) }
    {
        self.tally_of().weight
    }

    /// Whether a Stop stands.
    pub fn is_stopping(&self) -> bool
        ensures { result ≡ runs.is_stopping (reverse self.now.items) }
    {
        self.tally_of().stopping
    }

    /// Whether a Halt stands.
    pub fn is_halted(&self) -> bool
        ensures { result ≡ runs.is_halted (reverse self.now.items) }
    {
        self.tally_of().halted
    }
}
