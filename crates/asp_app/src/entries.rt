//! The entries of the Application object.
ghost use Rattle.std.specs.Prelude.{◌≡◌, ◌+◌, ◌-◌, ◌<◌, ◌^◌, IfOk, All, [], min, length, map, not, if◌then◌else◌};
ghost use Rattle.std.specs.Map.{keys_of};
ghost use Rattle.vb_value.specs.Outcome.{Changes, Gives};
ghost use Rattle.vb_value.specs.Weight.{weight_of};
ghost use Rattle.asp_job.specs.Application as application;
ghost use Rattle.asp_job.specs.Calls.{IsName, IsReply, IsShared};
ghost use Rattle.asp_app.specs.Held as kept;

use crate::name::Name;
use indexmap::IndexMap;
use std::alloc::Global;
use std::marker::Model;
use vb_value::{AppReply, List, Memory, Text, Value, copy, weight};

/// The most that the entries may weigh: 16 MiB.
const MOST_WEIGHT: u64 = 16_777_216;

/// The entries, each a name and its value, in the order of their first writing.
#[derive(Drop)]
pub struct Entries {
    map: IndexMap<Name, Value>,
    weight: u64,
}

impl Model for Entries {
    ghost use Rattle.std.specs.Prelude.{ℕ, List};
    ghost use Rattle.std.specs.Coded.{codes};
    ghost use Rattle.vb_value.specs.contracts.value.Value as contract;
    ghost use Rattle.vb_value.specs.declared.value.Value.{Value as Shared};

    ghost Value = { List (List ℕ × Shared) };

    ghost coded = { Prim.hlevel (codes, contract.the_row.coded) };

    ghost use Rattle.asp_app.specs.Kept.{IsKept};

    ghost view = { λ entries. entries.map.entries };

    ghost invariant = { IsKept };
}

/// What an entry weighs: 2^64 - 1 stands for more.
fn entry_weight(name: &Text, value: &Value) -> u64
    ensures { result ≡ min (application.weight_of_entry (name.now, value.now)) (2 ^ 64 - 1) }
{
    (name.len() as u64)
        .saturating_mul(4)
        .saturating_add(32)
        .saturating_add(weight(value))
}

/// What the entry of a name weighs: 0 where it is absent, and 2^64 - 1 stands for more.
fn held_weight(map: &IndexMap<Name, Value>, key: &Name, name: &Text) -> u64
    requires { key.now ≡ name.now }
    ensures { result ≡ min (kept.held_weight name.now map.now.entries) (2 ^ 64 - 1) }
{
    match map.get(key) {
        Some(value) => entry_weight(name, value),
        None => 0,
    }
}

fn names_of(map: &IndexMap<Name, Value>) -> Result<List<Text>, Memory>
    ensures { Gives result (keys_of map.now.entries) }
{
    let mut names = List::with_capacity(*map.allocator(), map.len())?;
    for name in map.keys() {
        names.push(name.to_text()?)?;
    }
    Ok(names)
}

impl Entries {
    /// No entries.
    pub fn new(alloc: Global) -> Entries
        ensures { result ≡ [] }
    {
        Entries {
            map: IndexMap::new(alloc),
            weight: 0,
        }
    }

    /// How many entries there are.
    pub fn len(&self) -> usize
        ensures count { result ≡ length self.now }
        ensures few { result < 2 ^ 31 }
    {
        self.map.len()
    }

    /// The value of a name: Empty where it is absent.
    pub fn value(&self, name: &Text) -> Result<Value, Memory>
        ensures value { Gives result (application.value_under name.now self.now) }
        ensures shared { IfOk result IsShared }
    {
        let name = Name::of(name)?;
        match self.map.get(&name) {
            Some(value) => copy(*self.map.allocator(), value),
            None => Ok(Value::Empty),
        }
    }

    /// The name at a place, counted from 1.
    pub fn name_at(&self, place: i32) -> Result<AppReply, Memory>
        ensures reply { Gives result (application.name_at place self.now) }
        ensures shared { IfOk result IsReply }
    {
        if place < 1 {
            return Ok(AppReply::NoName);
        }
        match self.map.get_index((place - 1) as usize) {
            Some((name, _)) => Ok(AppReply::Name(name.to_text()?)),
            None => Ok(AppReply::NoName),
        }
    }

    /// All names.
    pub fn names(&self) -> Result<List<Text>, Memory>
        ensures names { Gives result (keys_of self.now) }
        ensures shared { IfOk result (All IsName) }
    {
        names_of(&self.map)
    }

    /// Gives a name a value, and answers whether there was room for it.
    pub fn put(&mut self, name: &Text, value: &Value) -> Result<bool, Memory>
        requires name { IsName name.now }
        requires value { IsShared value.now }
        ensures room { Gives result (not (application.is_full (application.with_value name.now value.now self.old))) }
        ensures entries { Changes result self.old self.new
            (if application.is_full (application.with_value name.now value.now self.old) then self.old
            else application.with_value name.now value.now self.old) }
    {
        let key = Name::of(name)?;
        let rest = self.weight - held_weight(&self.map, &key, name);
        let weight = rest.saturating_add(entry_weight(name, value));
        if weight > MOST_WEIGHT {
            return Ok(false);
        }
        let value = copy(*self.map.allocator(), value)?;
        self.map.insert(key, value)?;
        self.weight = weight;
        Ok(true)
    }

    /// Takes a name away.
    pub fn remove(&mut self, name: &Text) -> Result<(), Memory>
        ensures { Changes result self.old self.new (application.without name.now self.old) }
    {
        let key = Name::of(name)?;
        self.weight -= held_weight(&self.map, &key, name);
        self.map.shift_remove(&key);
        Ok(())
    }

    /// Takes all names away.
    pub fn clear(&mut self)
        ensures { self.new ≡ [] }
    {
        self.map.clear();
        self.weight = 0;
    }
}
