//! Laws on the words of a script.
ghost use Rattle.std.specs.Prelude.{◌≡◌, ◌⊎◌, ℕ};
ghost use Rattle.vb_syntax.specs.grammar.Rules.{Tokens};
ghost use Rattle.vb_syntax.specs.declared.unit.Unit.{Unit as Script};
ghost use Rattle.vb_syntax.specs.grammar.Units.{Derives};
ghost use Rattle.vb_parse.specs.declared.fault.ParseFault.{ParseFault};
ghost use Rattle.vb_parse.specs.Outcome.{HasFault};

/// No list of words spells two scripts.
pub fn one_unit()
    ensures { (tokens : Tokens) (one other : Script) → Derives tokens one → Derives tokens other → one ≡ other }
{}

/// Each list of words spells a script or has a fault.
pub fn unit_or_fault()
    ensures { (tokens : Tokens) → ((unit : Script) × Derives tokens unit)
        ⊎ ((kind : ParseFault) × (line : ℕ) × HasFault tokens kind line) }
{}

/// A list of words that spells a script has no fault.
pub fn unit_faultless()
    ensures { (tokens : Tokens) (unit : Script) (kind : ParseFault) (line : ℕ) → Derives tokens unit
        → HasFault tokens kind line → ⊥ }
{}

/// A list of words has one fault: no two kinds hold at the first word with which no script goes on.
pub fn one_fault()
    ensures { (tokens : Tokens) (kind other : ParseFault) (line number : ℕ) → HasFault tokens kind line
        → HasFault tokens other number → (kind ≡ other) × (line ≡ number) }
{}
