//! What may hold a run back.
#![tactic(auto)]

ghost use Rattle.std.specs.Prelude.{◌≡◌, ℕ};

/// What a gate says of a run.
#[derive(Clone, Copy, Debug, PartialEq, Eq)]
pub enum Verdict {
    /// It may go on.
    Go,
    /// It waits.
    Hold,
}

/// A gate, which each slice of a run passes. Threads share it.
pub trait Gate {
    /// The runs that it may hold back.
    ghost may_hold: { Self → ℕ → Type 0 };

    /// Whether the run of this number goes on now.
    fn pass(&self, run: u32) -> Verdict
        ensures { result ≡ Verdict.Hold → may_hold self.now run };
}

/// A gate that holds no run back.
#[derive(Clone, Copy, Debug)]
pub struct OpenGate;

impl Gate for OpenGate {
    ghost may_hold = { λ gate run. ⊥ };

    fn pass(&self, _run: u32) -> Verdict {
        Verdict::Go
    }
}
