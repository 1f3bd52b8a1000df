//! The live keys, and what is kept of each.
ghost use Rattle.std.specs.Prelude.{◌≡◌, filter};
ghost use Rattle.std.specs.Map.{keys_of};
ghost use Rattle.std.specs.Option.{option_copied};
ghost use Rattle.indexmap.specs.IndexMap.{KeepsRoom};
ghost use Rattle.vb_value.specs.Outcome.{Gives};
ghost use Rattle.asp_session.specs.Account as account;
ghost use Rattle.asp_session.specs.Reading.{session_in};
ghost use Rattle.asp_session.specs.Steps as step;

use crate::after::After;
use crate::key::{KeyState, Waiter};
use crate::waiting::waits;
use asp_job::SessionState;
use indexmap::IndexMap;
use std::alloc::Global;
use vb_value::{List, Memory};

/// The live keys by their numbers, in the order in which they were made.
pub type Keys = IndexMap<u32, KeyState>;

/// The session of a key, if it has one.
pub fn session_of(keys: &Keys, key: u32) -> Option<&SessionState>
    ensures { option_copied result ≡ session_in key keys.now.entries }
{
    match keys.get(&key) {
        Some(state) => state.session.as_ref(),
        None => None,
    }
}

/// A job was admitted for a key at a moment.
pub fn touch(keys: &mut Keys, key: u32, moment: u64)
    ensures keys { keys.new.entries ≡ step.changed (step.asked_at moment) key keys.old.entries }
    ensures room { KeepsRoom keys.old keys.new }
{
    if let Some(state) = keys.get_mut(&key) {
        state.asked = moment;
    }
}

/// A run for a key is queued: one for the end of its session bars it.
pub fn bar(keys: &mut Keys, key: u32, last: bool)
    ensures keys { keys.new.entries ≡ step.changed (step.barred last) key keys.old.entries }
    ensures room { KeepsRoom keys.old keys.new }
{
    if let Some(state) = keys.get_mut(&key) {
        state.closing |= last;
    }
}

/// A run of a key begins.
pub fn begin(keys: &mut Keys, key: u32)
    ensures keys { keys.new.entries ≡ step.changed step.begun key keys.old.entries }
    ensures room { KeepsRoom keys.old keys.new }
{
    if let Some(state) = keys.get_mut(&key) {
        state.running = true;
    }
}

/// The session that a run leaves of what there was before.
fn left(after: After, before: Option<SessionState>) -> Option<SessionState>
    ensures { result ≡ step.left_by after before }
{
    match after {
        After::Kept => before,
        After::Now(session) => session,
    }
}

/// A run of a key ends.
pub fn finish(keys: &mut Keys, key: u32, after: After)
    ensures keys { keys.new.entries ≡ step.changed (step.finished after) key keys.old.entries }
    ensures room { KeepsRoom keys.old keys.new }
{
    if let Some(state) = keys.get_mut(&key) {
        let before = state.session.take();
        state.session = left(after, before);
        state.running = false;
    }
}

/// Forgets a key, if it has no session and no run waits for it.
pub fn forget(keys: &mut Keys, key: u32, waiting: &[Waiter])
    ensures keys { keys.new.entries ≡ step.forgotten key waiting.now keys.old.entries }
    ensures room { KeepsRoom keys.old keys.new }
{
    if session_of(keys, key).is_some() || waits(waiting, key) {
        return;
    }
    keys.shift_remove(&key);
}

/// Whether the key has a session that is over at a moment.
pub fn is_over(state: &KeyState, moment: u64) -> bool
    ensures { result ≡ account.is_over moment state.now.asked state.now.session }
{
    match &state.session {
        Some(session) => {
            moment >= state.asked && moment - state.asked >= session.timeout as u64 * 60
        }
        None => false,
    }
}

/// The live keys, in order.
pub fn live(alloc: Global, keys: &Keys) -> Result<List<u32>, Memory>
    ensures { Gives result (keys_of keys.now.entries) }
{
    let mut live = List::with_capacity(alloc, keys.len())?;
    for key in keys.keys() {
        live.push(*key)?;
    }
    Ok(live)
}

/// The keys whose sessions are to end at a moment, in order.
pub fn due(alloc: Global, keys: &Keys, waiting: &[Waiter], moment: u64) -> Result<List<u32>, Memory>
    ensures { Gives result (keys_of (filter (account.is_due moment waiting.now) keys.now.entries)) }
{
    let mut due = List::new(alloc);
    for (key, state) in keys {
        if is_over(state, moment) && !state.running && !waits(waiting, *key) {
            due.push(*key)?;
        }
    }
    Ok(due)
}
