//! A connection, whose bytes come and go.
ghost use Rattle.std.specs.Prelude.{◌≡◌, ℕ, Option, List, IfOk, OnErr};
ghost use Rattle.asp_io.specs.Faults.{HasCause, failure};
ghost use Rattle.asp_io.specs.Sink.{Writes};
ghost use Rattle.asp_io.specs.Source.{Reads};

use crate::fault::Failed;

/// A connection: a source and a sink in one, with one count of faults.
pub trait Link {
    /// The bytes that have not been read, where it tells them.
    ghost left: { Self → Option (List ℕ) };

    /// The bytes that were written, where it tells them.
    ghost held: { Self → Option (List ℕ) };

    /// How many calls have failed, at most 2^64 - 1.
    ghost faults: { Self → ℕ };

    /// Puts the next bytes at the front of `into`, and says how many. Where `into` is not empty, 0 is the
    /// end of input.
    fn read(&mut self, into: &mut [u8]) -> Result<u32, Failed>
        ensures ok { IfOk result (λ count. Reads (left self.old) (left self.new) into.old into.new count) }
        ensures err { OnErr result (left self.new ≡ left self.old) }
        ensures same { held self.new ≡ held self.old }
        ensures cause { HasCause failure (faults self.old) (faults self.new) result };

    /// Takes the first bytes of `piece`, and says how many: at least one, where there is one.
    fn write(&mut self, piece: &[u8]) -> Result<u32, Failed>
        ensures ok { IfOk result (λ count. Writes (held self.old) (held self.new) piece.now count) }
        ensures err { OnErr result (held self.new ≡ held self.old) }
        ensures same { left self.new ≡ left self.old }
        ensures cause { HasCause failure (faults self.old) (faults self.new) result };
}
