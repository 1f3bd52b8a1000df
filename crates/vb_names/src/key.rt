//! Names as keys, by which they are found.
ghost use Rattle.std.specs.Prelude.{◌≡◌, nat_eq};
ghost use Rattle.std.specs.Cmp.Lexicographic.{pointwise};
ghost use Rattle.vb_value.specs.Folding.{folded, same_name};
ghost use Rattle.vb_value.specs.Outcome.{Gives};
ghost use Rattle.vb_names.specs.Names.{hashed};

use std::marker::Model;
use vb_value::{List, Memory, Text};

/// What `hash_of` begins with, and what it multiplies by: those of FNV-1a, for 64 bits.
const HASH_BASIS: u64 = 14_695_981_039_346_656_037;

const HASH_PRIME: u64 = 1_099_511_628_211;

/// A name with its letters made small, and a number that is the same for all names that are so written.
#[derive(Debug, Drop)]
pub struct Key<'a> {
    name: &'a [char],
    hash: u64,
}

impl<'a> Model for Key<'a> {
    ghost use Rattle.std.specs.Prelude.{◌≡◌, ℕ, List};
    ghost use Rattle.std.specs.Coded.{coded_list, coded_ℕ};
    ghost use Rattle.vb_value.specs.Folding.{folded};
    ghost use Rattle.vb_names.specs.Names.{hashed};

    ghost Value = { List ℕ };

    ghost coded = { coded_list coded_ℕ };

    ghost view = { λ key. folded key.name.now };

    ghost invariant = { λ key. key.hash ≡ hashed (folded key.name.now) };
}

/// The number of a name.
fn hash_of(name: &[char]) -> u64
    ensures { result ≡ hashed (folded name.now) }
{
    let mut hash = HASH_BASIS;
    for letter in name {
        hash = (hash ^ letter.to_ascii_lowercase() as u64).wrapping_mul(HASH_PRIME);
    }
    hash
}

/// Whether two names are equal but for the case of letters.
fn is_same(one: &[char], other: &[char]) -> bool
    ensures { result ≡ same_name one.now other.now }
{
    if one.len() != other.len() {
        return false;
    }
    for i in 0..one.len() {
        if one[i].to_ascii_lowercase() != other[i].to_ascii_lowercase() {
            return false;
        }
    }
    true
}

impl<'a> Key<'a> {
    /// The key of a name. It takes no memory.
    pub fn of(name: &'a Text) -> Key<'a>
        ensures { result ≡ folded name.now }
    {
        let name = name.as_slice();
        Key {
            name,
            hash: hash_of(name),
        }
    }

    /// The number of the name.
    pub(crate) fn hash(&self) -> u64
        ensures { result ≡ hashed self.now }
    {
        self.hash
    }

    /// Whether a name has the key.
    pub(crate) fn is_of(&self, name: &Text) -> bool
        ensures { result ≡ pointwise nat_eq self.now (folded name.now) }
    {
        is_same(self.name, name.as_slice())
    }
}

/// A name as it is written.
pub fn copy_name(name: &Text) -> Result<Text, Memory>
    ensures { Gives result name.now }
{
    List::from_slice(*name.allocator(), name.as_slice())
}
