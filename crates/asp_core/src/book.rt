//! A journal with the answers that wait to be handed out.
#![tactic(auto)]

ghost use Rattle.std.specs.Prelude.{◌≡◌, ◌+◌, ◌≤◌, ◌<◌, ◌^◌, ◌++◌, ◌∷◌, [], length, nat_eq, Some, IsSome, IfOk, OnOk};
ghost use Rattle.std.specs.Map.{lookup, remove_entry};
ghost use Rattle.asp_job.specs.History as history;
ghost use Rattle.asp_job.specs.Runs.{unfinished};
ghost use Rattle.asp_job.specs.declared.entry.TheConstants.{MOST_ENTRIES};
ghost use Rattle.asp_journal.specs.Tables.{AreFit, IsFit};
ghost use Rattle.asp_core.specs.Book as spec;
ghost use Rattle.asp_core.specs.Calm.{AreCalm};
ghost use Rattle.asp_core.specs.Ready.{with_answer};

use crate::takes::take_answer;
use asp_job::{Answer, Entry, What, Work};
use asp_journal::Journal;
use std::alloc::Global;
use std::marker::Model;
use vb_value::{List, Memory};

/// A journal, and the answers that wait to be handed out, with room for all that is to come for sure: the end of each
/// unfinished run, the hand-out of its answer and of those that wait, and a Halt.
#[derive(Drop)]
pub struct Book {
    journal: Journal,
    answers: Vec<(u32, Answer)>,
}

impl Model for Book {
    ghost use Rattle.std.specs.Prelude.{reverse, length, vec_capacity};
    ghost use Rattle.std.specs.Coded.{codes};
    ghost use Rattle.vb_value.specs.contracts.value.Value as contract;
    ghost use Rattle.asp_core.specs.Book.{BookView, places_of, room_of};
    ghost use Rattle.asp_core.specs.Kernel.{HasAnswerRoom, HasRoom};

    ghost Value = { BookView };

    ghost coded = { Prim.hlevel (codes, contract.the_row.coded) };

    ghost view = { λ b. record {
      items = b.journal.items;
      answers = b.answers.items;
      room = room_of (reverse b.journal.items) (length b.answers.items) b.journal.capacity;
      places = places_of (reverse b.journal.items) (length b.answers.items) (vec_capacity b.answers);
    } };

    ghost invariant = { λ b.
        HasRoom (reverse b.journal.items) (length b.answers.items) b.journal.capacity
        × HasAnswerRoom (reverse b.journal.items) (length b.answers.items) (vec_capacity b.answers) };
}

fn first_journal(alloc: Global, lane: u32) -> Result<Journal, Memory>
    ensures items { IfOk result (λ journal. journal.items ≡ history.with_lane lane (What.Queue 1 Work.Start 0) ∷ []) }
    ensures room { IfOk result (λ journal. 2 ≤ journal.capacity) }
{
    let mut journal = Journal::new(alloc);
    journal.reserve(2)?;
    journal.push_reserved(Entry {
        lane,
        what: What::Queue {
            run: 1,
            work: Work::Start,
            key: 0,
        },
    });
    Ok(journal)
}

impl Book {
    /// A book whose journal queues the first run.
    pub fn new(alloc: Global, lane: u32) -> Result<Book, Memory>
        ensures items { IfOk result (λ book. book.items ≡ history.with_lane lane (What.Queue 1 Work.Start 0) ∷ []) }
        ensures answers { IfOk result (λ book. book.answers ≡ []) }
    {
        Ok(Book {
            journal: first_journal(alloc, lane)?,
            answers: Vec::new(alloc),
        })
    }

    /// The journal.
    pub fn journal(&self) -> &Journal
        ensures { result.now.items ≡ self.now.items }
    {
        &self.journal
    }

    /// The answers that wait.
    pub fn answers(&self) -> &[(u32, Answer)]
        ensures { result.now ≡ self.now.answers }
    {
        self.answers.as_slice()
    }

    /// Makes room for so many entries and for all that is to come for sure, with one run begun and one answer more than
    /// there are.
    pub fn make_room(&mut self, count: usize) -> Result<(), Memory>
        requires few { length (unfinished (spec.past_in self.old)) ≤ MOST_ENTRIES }
        requires count { count < 2 ^ 62 }
        ensures stays { spec.Stays self.old self.new }
        ensures room { OnOk result (spec.IsRoomy self.new count) }
    {
        let open = self.journal.unfinished() as usize;
        let waiting = self.answers.len();
        self.journal.reserve(2 * open + 3 + waiting + count)?;
        Ok(self.answers.reserve(open + 2)?)
    }

    /// Adds an entry. It takes no memory.
    pub fn push(&mut self, entry: Entry)
        requires fit { IsFit (spec.past_in self.old) entry.what }
        requires room { spec.HasRoomFor self.old entry }
        ensures adds { spec.Adds self.old (entry ∷ []) self.new }
        ensures room { spec.LeavesRoom self.old entry self.new }
    {
        self.journal.push_reserved(entry);
    }

    /// Adds entries that begin and end no run. It takes no memory.
    pub fn add(&mut self, more: List<Entry>)
        requires fit { AreFit (spec.past_in self.old) more }
        requires calm { AreCalm more }
        requires room { length more ≤ self.old.room }
        ensures adds { spec.Adds self.old more self.new }
        ensures room { (self.new.room + length more ≡ self.old.room) × (self.new.places ≡ self.old.places) }
    {
        self.journal.append_reserved(more);
    }

    /// Adds the answer of a run, where it has one. It takes no memory.
    pub fn put(&mut self, run: u32, answer: Option<Answer>)
        requires { (0 < self.old.room) × (0 < self.old.places) }
        ensures items { self.new.items ≡ self.old.items }
        ensures answers { self.new.answers ≡ with_answer self.old.answers run answer }
    {
        if let Some(answer) = answer {
            self.answers.push_reserved((run, answer));
        }
    }

    /// Takes the answer of a run out.
    pub fn take(&mut self, run: u32) -> Answer
        requires { IsSome (lookup (nat_eq run) self.old.answers) }
        ensures answer { lookup (nat_eq run) self.old.answers ≡ Some result }
        ensures items { self.new.items ≡ self.old.items }
        ensures answers { self.new.answers ≡ remove_entry (nat_eq run) self.old.answers }
        ensures room { self.new.room ≡ self.old.room + 1 }
    {
        take_answer(&mut self.answers, run)
    }
}
