//! A wire in memory with calls that fail.
ghost use Rattle.std.specs.Prelude.{◌≡◌, ◌↔◌, Some, IfOk, IsErr, IsTrue, OnErr, true};
ghost use Rattle.asp_io.specs.FaultPlan.{after_call, fails_next};
ghost use Rattle.asp_io.specs.Faults.{HasCause, failure};
ghost use Rattle.asp_io.specs.Wire.{Accepts};

use crate::fault::Failed;
use crate::fault_plan::FaultPlan;
use crate::mem_link::MemLink;
use crate::wire::Wire;
use std::marker::Model;
use vb_value::List;

/// A wire in memory with calls that fail. It ends after its last connection.
#[derive(Debug, Drop)]
pub struct MemWire {
    /// The last one first.
    links: Vec<MemLink>,
    plan: FaultPlan,
}

impl Model for MemWire {
    ghost use Rattle.std.specs.Prelude.{reverse};
    ghost use Rattle.asp_io.specs.MemWire.{WireState};

    ghost Value = { WireState };

    ghost view = { λ wire. record { links = reverse wire.links.items; plan = wire.plan } };
}

impl MemWire {
    /// The wire on which these connections come, before the first call; its calls with a number of `fails` are to fail.
    pub fn new(links: List<MemLink>, fails: List<u64>) -> MemWire
        ensures { result ≡ record { links = links; plan = record { fails = fails; calls = 0; faults = 0 } } }
    {
        let mut links = links.into_vec();
        links.reverse();
        MemWire {
            links,
            plan: FaultPlan::new(fails),
        }
    }
}

impl Wire for MemWire {
    type L = MemLink;

    const ENDS: bool = true;

    ghost ENDS = { true };

    ghost coming = { λ wire. Some wire.links };

    ghost faults = { λ wire. wire.plan.faults };

    fn accept(&mut self) -> Result<Option<MemLink>, Failed>
        ensures ok { IfOk result (Accepts true (Some self.old.links) (Some self.new.links)) }
        ensures err { OnErr result (self.new.links ≡ self.old.links) }

        // The calls that the plan lists fail, and no others.
        ensures fails { IsErr result ↔ IsTrue (fails_next self.old.plan) }
        ensures after { self.new.plan ≡ after_call self.old.plan }
        ensures cause { HasCause failure self.old.plan.faults self.new.plan.faults result }
    {
        self.plan.next_call()?;
        Ok(self.links.pop())
    }
}
