//! A wire in memory that never fails.
ghost use Rattle.std.specs.Prelude.{◌≡◌, Some, IsOk, IfOk, true};
ghost use Rattle.asp_io.specs.Wire.{Accepts};

use crate::fault::Failed;
use crate::sure_link::SureLink;
use crate::wire::Wire;
use std::marker::Model;
use vb_value::List;

/// A wire in memory, which contracts see as the connections that will come. It ends after the last.
#[derive(Debug, Drop)]
pub struct SureWire {
    /// The last one first.
    links: Vec<SureLink>,
}

impl Model for SureWire {
    ghost use Rattle.std.specs.Prelude.{ℕ, List as Items, reverse};

    ghost Value = { Items (Items ℕ) };

    ghost view = { λ wire. reverse wire.links.items };
}

impl SureWire {
    /// The wire on which these connections come.
    pub fn new(links: List<SureLink>) -> SureWire
        ensures { result ≡ links }
    {
        let mut links = links.into_vec();
        links.reverse();
        SureWire { links }
    }
}

impl Wire for SureWire {
    type L = SureLink;

    const ENDS: bool = true;

    ghost ENDS = { true };

    ghost coming = { λ wire. Some wire };

    ghost faults = { λ _. 0 };

    fn accept(&mut self) -> Result<Option<SureLink>, Failed>
        ensures sure { IsOk result }
        ensures ok { IfOk result (Accepts true (Some self.old) (Some self.new)) }
    {
        Ok(self.links.pop())
    }
}
