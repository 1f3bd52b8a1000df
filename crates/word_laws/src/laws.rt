//! Laws on the words of a text. The functions do nothing: their contracts are the laws.
ghost use Rattle.std.specs.Prelude.{ℕ, List};
ghost use Rattle.vb_value.specs.declared.token.Token.{Token};
ghost use Rattle.vb_lex.specs.Tokens.{HasAnswer, Tokenizes};
ghost use Rattle.word_laws.specs.Spelling.{AreLongest, IsLaid};

/// The tokens of a text stand in it one behind another, each with its text from its start to its end.
pub fn tokens_in_order()
    ensures { (text : List ℕ) (tokens : List Token) → Tokenizes text tokens → IsLaid text 0 tokens }
{}

/// Each token is the longest word that stands at its place.
pub fn longest_words()
    ensures { (text : List ℕ) (tokens : List Token) → Tokenizes text tokens → AreLongest text tokens }
{}

/// Each text has tokens or a fault.
pub fn some_answer()
    ensures { (text : List ℕ) → HasAnswer text }
{}
