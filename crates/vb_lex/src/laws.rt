//! Laws on the words of a text.
ghost use Rattle.std.specs.Prelude.{◌≡◌, ℕ, List};
ghost use Rattle.vb_value.specs.declared.token.Token.{Token};
ghost use Rattle.vb_lex.specs.declared.fault.LexFault.{LexFault};
ghost use Rattle.vb_lex.specs.Tokens.{FaultsAt, Tokenizes};

/// A text has at most one list of tokens.
pub fn one_token_list()
    ensures { (text : List ℕ) (tokens others : List Token) → Tokenizes text tokens → Tokenizes text others
        → tokens ≡ others }
{}

/// A text has at most one first fault, on one line.
pub fn one_fault()
    ensures { (text : List ℕ) (fault other : LexFault) (line number : ℕ) → FaultsAt text fault line
        → FaultsAt text other number → (fault ≡ other) × (line ≡ number) }
{}

/// A text that has tokens has no fault.
pub fn tokens_or_fault()
    ensures { (text : List ℕ) (tokens : List Token) (fault : LexFault) (line : ℕ) → Tokenizes text tokens
        → FaultsAt text fault line → ⊥ }
{}
