//! Values that expressions hold.
ghost use Rattle.std.specs.Prelude.{◌≡◌, length};
ghost use Rattle.vb_value.specs.Outcome.{Answers, Changes};
ghost use Rattle.vb_heap.specs.Held as spec;

use crate::counts::{lower_all, raise_all};
use crate::fault::HeapStop;
use crate::heap::Heap;
use crate::references::references;
use vb_value::{LimitKind, List, Value};

/// How many references may be held.
const MOST_HELD: usize = 1_048_576;

impl Heap {
    /// Holds a value. Past 1,048,576 references in all it answers the limit Data.
    pub fn hold(&mut self, value: &Value) -> Result<(), HeapStop>
        ensures answer { Answers result HeapStop.Memory (spec.hold_of value.now self.old) }
        ensures data { Changes result self.old self.new (spec.with_held value.now self.old) }
    {
        let found = references(*self.held.allocator(), value)?;
        if MOST_HELD - self.held.len() < found.len() {
            return Err(HeapStop::Limit(LimitKind::Data));
        }
        let mark = self.held.len();
        self.held.append(found)?;
        self.top = raise_all(&mut self.counts, &self.held.as_slice()[mark..], self.top);
        Ok(())
    }

    /// How many references are held: a mark to which `let_go` lets go.
    pub fn mark(&self) -> u32
        ensures { result ≡ length self.now.held }
    {
        self.held.len() as u32
    }

    /// Lets go what was held after a mark.
    pub fn let_go(&mut self, mark: u32)
        ensures { self.new ≡ spec.let_go_to mark self.old }
    {
        if (mark as usize) < self.held.len() {
            lower_all(&mut self.counts, &self.held.as_slice()[mark as usize..]);
            self.held.truncate(mark as usize);
        }
    }
}
