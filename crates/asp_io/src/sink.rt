//! A stream of bytes that go.
ghost use Rattle.std.specs.Prelude.{◌≡◌, ℕ, Option, List, IfOk, OnErr};
ghost use Rattle.asp_io.specs.Faults.{HasCause, failure};
ghost use Rattle.asp_io.specs.Sink.{Writes};

use crate::fault::Failed;

/// A stream of bytes that go.
pub trait Sink {
    /// The bytes that were written, where it tells them.
    ghost held: { Self → Option (List ℕ) };

    /// How many calls have failed, at most 2^64 - 1.
    ghost faults: { Self → ℕ };

    /// Takes the first bytes of `piece`, and says how many: at least one, where there is one.
    fn write(&mut self, piece: &[u8]) -> Result<u32, Failed>
        ensures ok { IfOk result (λ count. Writes (held self.old) (held self.new) piece.now count) }
        ensures err { OnErr result (held self.new ≡ held self.old) }
        ensures cause { HasCause failure (faults self.old) (faults self.new) result };
}
