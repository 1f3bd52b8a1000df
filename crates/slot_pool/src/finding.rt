//! How a value is found by its number.
ghost use Rattle.std.specs.Prelude.{◌≡◌, ◌≢◌, ◌<◌, ◌≤◌, All, Contains, IfSome, IsSome, None, is_some, true, length, slice_index_or, ℕ};
ghost use Rattle.std.specs.Option.{MatchOption, option_map};
ghost use Rattle.std.specs.List.Sorted.{IsNonDecreasingBy};
ghost use Rattle.slab.specs.Slab.{get};
ghost use Rattle.slot_pool.specs.Inside.{IsRising, IsListed, entries_of, held};
ghost use Rattle.slot_pool.specs.Pool.{found_in};

use crate::key::SlotKey;
use crate::slot::Slot;
use slab::Slab;

/// The place of a number among keys that rise, or that of the first greater one.
fn place(keys: &[SlotKey], number: u64) -> usize
    requires { IsNonDecreasingBy (λ (key : SlotKey). key.number) keys.now }
    ensures within { result ≤ length keys.now }
    ensures before { (k : ℕ) (d : SlotKey) → k < result → (slice_index_or keys.now k d).number < number }
    ensures behind { (k : ℕ) (d : SlotKey) → result ≤ k → k < length keys.now
        → number ≤ (slice_index_or keys.now k d).number }
{
    keys.partition_point(|key| key.number < number)
}

/// The key of a number, by halving.
fn halved(keys: &[SlotKey], next: u64, number: u64) -> Option<SlotKey>
    requires { IsRising keys.now next }
    ensures { MatchOption result (All (λ key. key.number ≢ number) keys.now)
        (λ key. (key.number ≡ number) × Contains keys.now key) }
{
    let at = place(keys, number);
    if at >= keys.len() {
        return None;
    }
    let key = keys[at];
    if key.number == number {
        Some(key)
    } else {
        None
    }
}

/// The key of a number, from the newest one backwards where no number between them is missing, and else by halving.
pub fn listed_key(keys: &[SlotKey], next: u64, number: u64) -> Option<SlotKey>
    requires { IsRising keys.now next }
    ensures { MatchOption result (All (λ key. key.number ≢ number) keys.now)
        (λ key. (key.number ≡ number) × Contains keys.now key) }
{
    if number >= next {
        return None;
    }
    let back = next - number;
    if back <= keys.len() as u64 {
        let key = keys[keys.len() - back as usize];
        if key.number == number {
            return Some(key);
        }
    }
    halved(keys, next, number)
}

/// The key of a number whose value is there.
pub fn key_of<T>(slots: &Slab<Slot<T>>, keys: &[SlotKey], next: u64, number: u64) -> Option<SlotKey>
    requires { IsRising keys.now next }
    ensures found { MatchOption result (found_in number (entries_of slots.now keys.now) ≡ None)
        (λ key. (key.number ≡ number) × IsSome (found_in number (entries_of slots.now keys.now))) }
    ensures there { IfSome result (λ key. is_some (held slots.now key) ≡ true) }
{
    match listed_key(keys, next, number) {
        Some(key) => { if holds(slots, key) { Some(key) } else { None } }
        None => None,
    }
}

/// The slot of a key's value. Where the value isn't there, it is some slot that holds nothing.
pub fn slot_of<T>(slots: &Slab<Slot<T>>, keys: &[SlotKey], next: u64, key: SlotKey) -> usize
    requires rising { IsRising keys.now next }
    requires listed { IsListed slots.now keys.now }
    ensures value { found_in key.number (entries_of slots.now keys.now)
        ≡ option_map (λ slot. slot.value) (get slots.now result) }
    ensures number { IfSome (get slots.now result) (λ slot. slot.number ≡ key.number) }
{
    if holds(slots, key) {
        return key.slot;
    }
    match key_of(slots, keys, next, key.number) {
        Some(there) => there.slot,
        None => slots.vacant_key(),
    }
}

/// Whether the slot of a key holds the value with its number.
pub fn holds<T>(slots: &Slab<Slot<T>>, key: SlotKey) -> bool
    ensures { result ≡ is_some (held slots.now key) }
{
    match slots.get(key.slot) {
        Some(slot) => slot.number == key.number,
        None => false,
    }
}
