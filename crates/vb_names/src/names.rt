//! Names in an order, which are found by their numbers.
ghost use Rattle.std.specs.Prelude.{◌≡◌, ◌++◌, ◌∷◌, ◌≤◌, ◌<◌, ◌^◌, [], length, ℕ, cond, nat_eq};
ghost use Rattle.std.specs.Prelude.{Ok, Some, None, is_some, true, false, IfOk, OnErr};
ghost use Rattle.std.specs.HashMap.{get, IsUnchanged};
ghost use Rattle.vb_value.specs.Folding.{folded};
ghost use Rattle.vb_value.specs.Outcome.{Changes, Gives};
ghost use Rattle.vb_syntax.specs.scope.Names.{number_of_key, add_name, has_name};
ghost use Rattle.vb_names.specs.Names.{hashed, number_of_hash};

use crate::key::{Key, copy_name};
use std::alloc::Global;
use std::collections::HashMap;
use std::collections::hash_map::Entry;
use std::marker::Model;
use vb_value::{List, Memory, Text};

/// Names in an order. A name is found in it by its key.
#[derive(Debug, Drop)]
pub struct Names {
    written: List<Text>,
    /// For each hash of a key, the number of the first name with such a key.
    numbers: HashMap<u64, u32>,
}

impl Model for Names {
    ghost use Rattle.std.specs.Prelude.{ℕ, List as Items};
    ghost use Rattle.std.specs.Coded.{coded_list, coded_ℕ};
    ghost use Rattle.vb_names.specs.Names.{IsNumbered};

    ghost Value = { Items (Items ℕ) };

    ghost coded = { coded_list (coded_list coded_ℕ) };

    ghost view = { λ names. names.written };

    ghost invariant = { λ names. IsNumbered names.numbers names.written };
}

impl Names {
    /// No names.
    pub fn new(alloc: Global) -> Names
        ensures { result ≡ [] }
    {
        Names {
            written: List::new(alloc),
            numbers: HashMap::new(alloc),
        }
    }

    /// No names, with room for `count` of them.
    pub fn with_capacity(alloc: Global, count: usize) -> Result<Names, Memory>
        ensures { Gives result [] }
    {
        Ok(Names {
            written: List::with_capacity(alloc, count)?,
            numbers: HashMap::with_capacity(alloc, count)?,
        })
    }

    /// How many names there are.
    pub fn len(&self) -> usize
        ensures { result ≡ length self.now }
    {
        self.written.len()
    }

    /// The names as they are written.
    pub fn as_slice(&self) -> &[Text]
        ensures { result.now ≡ self.now }
    {
        self.written.as_slice()
    }

    /// The names as they are written, taken over.
    pub fn into_texts(self) -> List<Text>
        ensures { result ≡ self }
    {
        let Names {
            written,
            numbers: _,
        } = self;
        written
    }

    #[tactic(auto, using(crate::proofs::Numbering::unhashed))]
    /// The number of the first name that has the key.
    pub fn number(&self, key: &Key<'_>) -> Option<u32>
        ensures { result ≡ number_of_key self.now key.now }
    {
        if self.written.is_empty() {
            return None;
        }
        match self.numbers.get(&key.hash()) {
            None => None,
            Some(first) => number_from(self.written.as_slice(), key, *first),
        }
    }

    /// Adds a name at the end, with its key. Memory is the answer too where 4,294,967,296 names are there already.
    pub fn push(&mut self, name: Text, key: Key<'_>) -> Result<(), Memory>
        requires { key ≡ folded name }
        ensures { Changes result self.old self.new (self.old ++ name ∷ []) }
    {
        let number = next_number(self.written.as_slice())?;
        self.written.push(name)?;
        match put_first(&mut self.numbers, key.hash(), number) {
            Ok(_) => Ok(()),
            Err(_) => {
                let _ = self.written.pop();
                Err(Memory)
            }
        }
    }

    /// Adds a name at the end, unless one with its key is there. It answers whether one was.
    pub(crate) fn add(&mut self, name: &Text, key: &Key<'_>) -> Result<bool, Memory>
        requires { key.now ≡ folded name.now }
        ensures was { IfOk result (λ was. was ≡ has_name self.old name.now) }
        ensures added { IfOk result (λ _. self.new ≡ add_name self.old name.now) }
    {
        let number = next_number(self.written.as_slice())?;
        match put_name(
            &mut self.numbers,
            &mut self.written,
            key.hash(),
            number,
            name,
        )? {
            None => Ok(false),
            Some(first) => {
                if number_from(self.written.as_slice(), key, first).is_some() {
                    return Ok(true);
                }
                self.written.push(copy_name(name)?)?;
                Ok(false)
            }
        }
    }
}

/// Whether a name with the key is among some.
pub fn has(names: &Names, key: &Key<'_>) -> bool
    ensures { result ≡ is_some (number_of_key names.now key.now) }
{
    names.number(key).is_some()
}

/// The number of the first name that has the key, where the first whose key has its hash is known.
#[tactic(auto, using(crate::proofs::Numbering::hashed_from))]
fn number_from(names: &[Text], key: &Key<'_>, first: u32) -> Option<u32>
    requires few { length names.now ≤ 2 ^ 32 }
    requires first { number_of_hash names.now (hashed key.now) ≡ Some first }
    ensures { result ≡ number_of_key names.now key.now }
{
    for number in first as usize..names.len() {
        if key.is_of(&names[number]) {
            return Some(number as u32);
        }
    }
    None
}

/// The number that one more name has.
fn next_number(names: &[Text]) -> Result<u32, Memory>
    ensures next { IfOk result (λ number. number ≡ length names.now) }
    ensures few { IfOk result (λ _. length names.now < 2 ^ 32) }
{
    u32::try_from(names.len()).map_err(|_| Memory)
}

/// Puts a number at a hash, if there is none. It answers whether it did.
fn put_first(numbers: &mut HashMap<u64, u32>, hash: u64, number: u32) -> Result<bool, Memory>
    ensures absent { result ≡ Ok true → get nat_eq numbers.old hash ≡ None }
    ensures added { result ≡ Ok true → (other : ℕ) → get nat_eq numbers.new other
        ≡ cond (nat_eq hash other) (Some number) (get nat_eq numbers.old other) }
    ensures there { result ≡ Ok false → is_some (get nat_eq numbers.old hash) ≡ true }
    ensures kept { result ≡ Ok false → IsUnchanged numbers.old numbers.new }
    ensures refused { OnErr result (IsUnchanged numbers.old numbers.new) }
{
    match numbers.entry(hash)? {
        Entry::Occupied(_) => Ok(false),
        Entry::Vacant(place) => {
            let _ = place.insert(number);
            Ok(true)
        }
    }
}

/// Puts a name at the end, and its number at its hash, if there is none. It answers the number that was there.
fn put_name(
    numbers: &mut HashMap<u64, u32>,
    names: &mut List<Text>,
    hash: u64,
    number: u32,
    name: &Text,
) -> Result<Option<u32>, Memory>
    ensures found { IfOk result (λ found. found ≡ get nat_eq numbers.old hash) }
    ensures added { result ≡ Ok None → (other : ℕ) → get nat_eq numbers.new other
        ≡ cond (nat_eq hash other) (Some number) (get nat_eq numbers.old other) }
    ensures pushed { result ≡ Ok None → names.new ≡ names.old ++ name.now ∷ [] }
    ensures kept { IfOk result (λ found. is_some found ≡ true → IsUnchanged numbers.old numbers.new) }
    ensures same { IfOk result (λ found. is_some found ≡ true → names.new ≡ names.old) }
    ensures refused { OnErr result (IsUnchanged numbers.old numbers.new) }
    ensures refused_names { OnErr result (names.new ≡ names.old) }
{
    match numbers.entry(hash)? {
        Entry::Occupied(place) => Ok(Some(*place.get())),
        Entry::Vacant(place) => {
            names.push(copy_name(name)?)?;
            let _ = place.insert(number);
            Ok(None)
        }
    }
}
