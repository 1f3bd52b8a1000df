//! A source in memory with calls that fail.
ghost use Rattle.std.specs.Prelude.{◌≡◌, ◌↔◌, Some, IfOk, IsErr, IsTrue, OnErr, length};
ghost use Rattle.asp_io.specs.FaultPlan.{after_call, fails_next};
ghost use Rattle.asp_io.specs.Faults.{HasCause, failure};
ghost use Rattle.asp_io.specs.Source.{Reads, moved};

use crate::fault::Failed;
use crate::fault_plan::FaultPlan;
use crate::source::Source;
use crate::sure_source::SureSource;
use vb_value::{Bytes, List};

/// A source in memory with calls that fail.
#[derive(Debug, Drop)]
pub struct MemSource {
    /// Its bytes.
    pub source: SureSource,
    /// Which calls fail.
    pub plan: FaultPlan,
}

impl MemSource {
    /// The source of these bytes before the first call, whose calls with a number of `fails` are to fail.
    pub fn new(bytes: Bytes, fails: List<u64>) -> MemSource
        ensures { result ≡ record { source = bytes; plan = record { fails = fails; calls = 0; faults = 0 } } }
    {
        MemSource {
            source: SureSource::new(bytes),
            plan: FaultPlan::new(fails),
        }
    }
}

impl Source for MemSource {
    ghost left = { λ source. Some source.source };

    ghost faults = { λ source. source.plan.faults };

    fn read(&mut self, into: &mut [u8]) -> Result<u32, Failed>
        ensures count { IfOk result (λ count. count ≡ moved (length self.old.source) (length into.old)) }
        ensures ok { IfOk result (Reads (Some self.old.source) (Some self.new.source) into.old into.new) }
        ensures err { OnErr result (self.new.source ≡ self.old.source) }

        // The calls that the plan lists fail, and no others.
        ensures fails { IsErr result ↔ IsTrue (fails_next self.old.plan) }
        ensures after { self.new.plan ≡ after_call self.old.plan }
        ensures cause { HasCause failure self.old.plan.faults self.new.plan.faults result }
    {
        self.plan.next_call()?;
        self.source.read(into)
    }
}
