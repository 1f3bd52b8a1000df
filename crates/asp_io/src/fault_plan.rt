//! Which calls of a thing in memory are to fail.
ghost use Rattle.std.specs.Prelude.{◌≡◌, ◌≤◌, ◌↔◌, IsErr, IsTrue};
ghost use Rattle.asp_io.specs.FaultPlan.{after_call, after_fault, fails_next};
ghost use Rattle.asp_io.specs.Faults.{HasCause, failure};

use crate::fault::Failed;
use vb_value::List;

/// Which calls are to fail, and how many there were.
#[derive(Debug, Drop)]
pub struct FaultPlan {
    /// The numbers of the calls that are to fail. The first call has the number 1.
    pub fails: List<u64>,
    /// How many calls there were, at most 2^64 - 1.
    pub calls: u64,
    /// How many of them have failed, at most 2^64 - 1.
    pub faults: u64,
}

impl FaultPlan {
    /// The plan before the first call.
    pub fn new(fails: List<u64>) -> FaultPlan
        ensures { result ≡ record { fails = fails; calls = 0; faults = 0 } }
    {
        FaultPlan {
            fails,
            calls: 0,
            faults: 0,
        }
    }

    /// Whether the next call is to fail.
    pub fn fails_next(&self) -> bool
        ensures { result ≡ fails_next self.now }
    {
        let next = self.calls.saturating_add(1);
        self.fails.iter().any(|number| *number == next)
    }

    /// Counts a call, and a fault where that call is to fail.
    pub fn next_call(&mut self) -> Result<(), Failed>
        ensures fails { IsErr result ↔ IsTrue (fails_next self.old) }
        ensures plan { self.new ≡ after_call self.old }
        ensures cause { HasCause failure self.old.faults self.new.faults result }
    {
        let fails = self.fails_next();
        self.calls = self.calls.saturating_add(1);
        if fails {
            Err(self.count_fault())
        } else {
            Ok(())
        }
    }

    /// Counts a fault, which the caller is to answer.
    pub fn count_fault(&mut self) -> Failed
        ensures plan { self.new ≡ after_fault self.old }
        ensures later { self.old.faults ≤ self.new.faults }
    {
        self.faults = self.faults.saturating_add(1);
        Failed
    }
}
