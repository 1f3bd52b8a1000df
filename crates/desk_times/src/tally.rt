//! What stands on the desk, and under the lock: a tally of turns.
ghost use Rattle.std.specs.Prelude.{◌≡◌, ◌<◌, ◌^◌, ◌++◌, ◌∷◌, [], length, IsTrue};
ghost use Rattle.turn_desk.specs.Histories.{GrowsBy};

use std::alloc::Global;
use turn_desk::Stands;
use vb_value::List;

/// A tally: of each turn, the number of its lane.
#[derive(Drop)]
pub struct Tally {
    pub entries: List<u32>,
}

impl Stands for Tally {
    type Entry = u32;

    type Fixed = ();

    ghost lane_of = { λ lane. lane };

    ghost entries = { λ tally. tally.entries };

    ghost fixed = { λ tally. tt };

    fn length(&self) -> u64 {
        self.entries.len() as u64
    }
}

impl Tally {
    /// An empty tally.
    pub fn new(alloc: Global) -> Tally
        ensures { result.entries ≡ [] }
    {
        Tally {
            entries: List::new(alloc),
        }
    }

    /// Adds a turn of a lane, up to 100,000,000 turns and while there is memory: whether it did.
    pub fn add(&mut self, lane: u32) -> bool
        ensures added { IsTrue result → self.new.entries ≡ self.old.entries ++ lane ∷ [] }
        ensures grows { GrowsBy (λ lane. lane) lane self.old.entries self.new.entries }
        ensures short { length self.old.entries < 2 ^ 32 → length self.new.entries < 2 ^ 32 }
    {
        self.entries.len() < 100_000_000 && self.entries.push(lane).is_ok()
    }
}
