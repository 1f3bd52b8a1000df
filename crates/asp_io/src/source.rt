//! A stream of bytes that come.
ghost use Rattle.std.specs.Prelude.{◌≡◌, ℕ, Option, List, IfOk, OnErr};
ghost use Rattle.asp_io.specs.Faults.{HasCause, failure};
ghost use Rattle.asp_io.specs.Source.{Reads};

use crate::fault::Failed;

/// A stream of bytes that come.
pub trait Source {
    /// The bytes that have not been read, where it tells them.
    ghost left: { Self → Option (List ℕ) };

    /// How many calls have failed, at most 2^64 - 1.
    ghost faults: { Self → ℕ };

    /// Puts the next bytes at the front of `into`, and says how many. Where `into` is not empty, 0 is the
    /// end of input.
    fn read(&mut self, into: &mut [u8]) -> Result<u32, Failed>
        ensures ok { IfOk result (λ count. Reads (left self.old) (left self.new) into.old into.new count) }
        ensures err { OnErr result (left self.new ≡ left self.old) }
        ensures cause { HasCause failure (faults self.old) (faults self.new) result };
}
