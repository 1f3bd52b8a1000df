//! The entries of a session.
ghost use Rattle.std.specs.Prelude.{◌≡◌, ◌-◌, ◌^◌, min};
ghost use Rattle.vb_value.specs.Outcome.{Changes, Gives};
ghost use Rattle.asp_job.specs.Session.{entry_weight as entry_weight_of};
ghost use Rattle.asp_objects.specs.Entries as spec;

use asp_job::Named;
use std::alloc::Global;
use std::mem::replace;
use vb_value::{Copied, List, Memory, Text, Value, copy, weight};

/// The place of a name, counted from 0.
pub(crate) fn place_of(entries: &[Named], name: &[char]) -> Option<usize>
    ensures place { result ≡ spec.place_of name.now entries.now }
    ensures within { spec.IsWithin result entries.now }
{
    entries
        .iter()
        .position(|entry| entry.name.as_slice() == name)
}

/// The value of a name: Empty where it is absent.
pub(crate) fn value_under(alloc: Global, entries: &[Named], name: &Text) -> Result<Value, Memory>
    ensures { Gives result (spec.value_under name.now entries.now) }
{
    match place_of(entries, name.as_slice()) {
        Some(at) => copy(alloc, &entries[at].value),
        None => Ok(Value::Empty),
    }
}

/// The names.
pub(crate) fn names_of(alloc: Global, entries: &[Named]) -> Result<List<Text>, Memory>
    ensures { Gives result (spec.names_of entries.now) }
{
    let mut names = List::with_capacity(alloc, entries.len())?;
    for entry in entries {
        names.push(entry.name.copy()?)?;
    }
    Ok(names)
}

/// What an entry weighs: 2^64 - 1 stands for more.
pub(crate) fn entry_weight(name: &Text, value: &Value) -> u64
    ensures { result ≡ min (entry_weight_of (record { name = name.now; value = value.now })) (2 ^ 64 - 1) }
{
    (name.len() as u64)
        .saturating_mul(4)
        .saturating_add(32)
        .saturating_add(weight(value))
}

/// What the entries weigh: 2^64 - 1 stands for more.
pub(crate) fn total_weight(entries: &[Named]) -> u64
    ensures { result ≡ min (spec.weight_of_entries entries.now) (2 ^ 64 - 1) }
{
    let mut total: u64 = 0;
    for entry in entries {
        total = total.saturating_add(entry_weight(&entry.name, &entry.value));
    }
    total
}

/// What the entry at a place weighs, 0 without a place. 2^64 - 1 stands for more.
pub(crate) fn held_weight(entries: &[Named], at: Option<usize>) -> u64
    requires { spec.IsWithin at entries.now }
    ensures { result ≡ min (spec.held_weight at entries.now) (2 ^ 64 - 1) }
{
    match at {
        Some(at) => entry_weight(&entries[at].name, &entries[at].value),
        None => 0,
    }
}

/// Puts an entry at the place of its name, or last where there is none.
pub(crate) fn put_at(
    entries: &mut List<Named>,
    at: Option<usize>,
    entry: Named,
) -> Result<(), Memory>
    requires { spec.IsWithin at entries.old }
    ensures { Changes result entries.old entries.new (spec.put_at at entry entries.old) }
{
    match at {
        Some(at) => {
            entries.set(at, entry);
            Ok(())
        }
        None => entries.push(entry),
    }
}

/// Takes the entry at a place away.
pub(crate) fn remove_at(entries: &mut List<Named>, at: Option<usize>)
    requires { spec.IsWithin at entries.old }
    ensures { entries.new ≡ spec.removed_at at entries.old }
{
    if let Some(at) = at {
        let empty = List::new(*entries.allocator());
        let mut items = replace(entries, empty).into_vec();
        items.remove(at);
        *entries = List::from_vec(items);
    }
}
