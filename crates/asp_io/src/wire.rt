//! A place where connections come in.
ghost use Rattle.std.specs.Prelude.{◌≡◌, ℕ, Bool, Option, List, IfOk, OnErr};
ghost use Rattle.asp_io.specs.Faults.{HasCause, failure};
ghost use Rattle.asp_io.specs.Wire.{Accepts};

use crate::fault::Failed;
use crate::link::Link;

/// A place where connections come in.
pub trait Wire {
    /// What it accepts.
    type L: Link;

    /// Whether it may come to an end, after which no connection comes any more.
    const ENDS: bool;

    ghost ENDS: { Bool };

    /// The connections that will come, where it tells them.
    ghost coming: { Self → Option (List Self.L) };

    /// How many calls have failed, at most 2^64 - 1.
    ghost faults: { Self → ℕ };

    /// The next connection, or `None` where none will come any more.
    fn accept(&mut self) -> Result<Option<Self::L>, Failed>
        ensures ok { IfOk result (Accepts ENDS (coming self.old) (coming self.new)) }
        ensures err { OnErr result (coming self.new ≡ coming self.old) }
        ensures cause { HasCause failure (faults self.old) (faults self.new) result };
}
