//! How entries are added.
#![tactic(auto)]

ghost use Rattle.std.specs.Prelude.{◌≡◌, ◌+◌, ◌<◌, ◌≤◌, ◌^◌, ◌++◌, ◌∷◌, [], reverse, length};
ghost use Rattle.std.specs.Prelude.{OnOk, OnErr};
ghost use Rattle.asp_journal.specs.Tables as spec;

use crate::journal::Journal;
use crate::listing::list;
use crate::rows::mark;
use crate::tally::tallied;
use asp_job::Entry;
use vb_value::{List, Memory};

impl Journal {
    /// Takes memory for so many entries more.
    pub fn reserve(&mut self, more: usize) -> Result<(), Memory>
        ensures items { self.new.items ≡ self.old.items }
        ensures capacity { self.old.capacity ≤ self.new.capacity }
        ensures room { OnOk result (length self.old.items + more ≤ self.new.capacity) }
    {
        if self.journal.reserve(more).is_err() {
            return Err(Memory);
        }
        if self.rows.reserve(more).is_err() {
            return Err(Memory);
        }
        if self.listed.reserve(more).is_err() {
            return Err(Memory);
        }
        self.capacity = self.capacity.max(self.journal.len() + more);
        Ok(())
    }

    /// Adds an entry. It takes no memory.
    pub fn push_reserved(&mut self, entry: Entry)
        requires fit { spec.IsFit (reverse self.old.items) entry.what }
        requires room { length self.old.items < self.old.capacity }
        ensures items { self.new.items ≡ self.old.items ++ entry ∷ [] }
        ensures capacity { self.new.capacity ≡ self.old.capacity }
    {
        mark(&mut self.rows, self.journal.len(), &entry);
        self.tally = tallied(self.tally, &entry.what);
        list(&mut self.listed, &entry.what);
        self.journal.push_reserved(entry);
    }

    /// Adds an entry. A refusal leaves the entries.
    pub fn push(&mut self, entry: Entry) -> Result<(), Memory>
        requires { spec.IsFit (reverse self.old.items) entry.what }
        ensures ok { OnOk result (self.new.items ≡ self.old.items ++ entry ∷ []) }
        ensures err { OnErr result (self.new.items ≡ self.old.items) }
        ensures capacity { self.old.capacity ≤ self.new.capacity }
    {
        self.reserve(1)?;
        self.push_reserved(entry);
        Ok(())
    }

    /// Adds entries, one after another. It takes no memory.
    pub fn append_reserved(&mut self, more: List<Entry>)
        requires fit { spec.AreFit (reverse self.old.items) more }
        requires room { length self.old.items + length more ≤ self.old.capacity }
        ensures items { self.new.items ≡ self.old.items ++ more }
        ensures capacity { self.new.capacity ≡ self.old.capacity }
    {
        for entry in more.into_vec() {
            self.push_reserved(entry);
        }
    }
}
