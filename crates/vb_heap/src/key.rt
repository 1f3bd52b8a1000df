//! What a key of a dictionary says.
ghost use Rattle.std.specs.Prelude.{◌≡◌, nat_eq};
ghost use Rattle.std.specs.Cmp.{partial_equiv_from_equiv};
ghost use Rattle.std.specs.Cmp.Lexicographic.{pointwise, nat_list_eq_equiv};
ghost use Rattle.std.specs.Cmp.Rules.{hashing};
ghost use Rattle.std.specs.Hash as fed;
ghost use Rattle.std.proofs.Common.{rules};

use std::hash::{Hash, Hasher};
use std::marker::Model;
use vb_value::Text;

/// A text as a key: in small letters where case does not count.
#[derive(Drop)]
pub struct KeyText {
    text: Text,
}

impl Model for KeyText {
    ghost use Rattle.std.specs.Prelude.{ℕ, List};
    ghost use Rattle.std.specs.Coded.{coded_list, coded_ℕ};

    ghost Value = { List ℕ };

    ghost coded = { coded_list coded_ℕ };

    ghost view = { λ key. key.text };
}

impl KeyText {
    /// The text as it is.
    pub fn new(text: Text) -> KeyText
        ensures { result ≡ text }
    {
        KeyText { text }
    }
}

impl PartialEq for KeyText {
    ghost eq = { pointwise nat_eq };

    ghost laws = { partial_equiv_from_equiv nat_list_eq_equiv };

    fn eq(&self, other: &KeyText) -> bool {
        self.text.as_slice() == other.text.as_slice()
    }
}

impl Eq for KeyText {
    ghost laws = { nat_list_eq_equiv };
}

impl Hash for KeyText {
    ghost hash_input = { fed.slice fed.char };

    ghost respects_eq = { Prim.search (hashing, rules) };

    fn hash<H: Hasher>(&self, state: &mut H) {
        self.text.as_slice().hash(state);
    }
}

/// What a key says: two keys of a dictionary are equal where they say the same.
#[derive(PartialEq, Eq, Hash, Drop)]
pub enum Key {
    /// A number, in ten-thousandths.
    Number(i64),
    /// A text, in small letters where case does not count.
    Text(KeyText),
}
