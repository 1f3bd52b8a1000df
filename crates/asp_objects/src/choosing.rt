//! Which entry of Session or Application is meant, and which values they keep.
ghost use Rattle.std.specs.Prelude.{◌≡◌, ◌==◌, ◌-◌, ◌^◌, IfOk, length, min};
ghost use Rattle.std.specs.List.{list_all};
ghost use Rattle.vb_value.specs.Outcome.{Answers};
ghost use Rattle.vb_value.specs.Sound.{is_sound as is_sound_value, item_count as item_count_of, places as places_of};
ghost use Rattle.vb_value.specs.Sound.{product as product_of};
ghost use Rattle.asp_job.specs.Calls.{IsShared};
ghost use Rattle.asp_objects.specs.Choosing as spec;

use crate::given::{failed, long_in, text_in};
use std::alloc::Global;
use vb_syntax::AskStop;
use vb_value::{Array, Text, Value, VbError, copy, fold, is_plain};

/// Which entry is meant.
#[derive(Debug, Drop)]
pub enum Chosen {
    /// That of this name, which is folded.
    Name(Text),
    /// That at this place, counted from 1.
    Place(i32),
}

/// The entry of the name that a value is made.
#[tactic(auto, using(crate::proofs::Sharing::folded_twice))]
fn named(alloc: Global, key: &Value) -> Result<Chosen, AskStop>
    ensures named { Answers result AskStop.Memory (spec.named key.now) }
    ensures folded { IfOk result spec.IsChosen }
{
    let name = text_in(alloc, key)?;
    let name = fold(alloc, &name)?;
    Ok(Chosen::Name(name))
}

/// The entry that a value means.
pub(crate) fn choose(alloc: Global, key: &Value) -> Result<Chosen, AskStop>
    ensures chosen { Answers result AskStop.Memory (spec.chosen key.now) }
    ensures folded { IfOk result spec.IsChosen }
{
    match key {
        Value::Int(_) | Value::Long(_) | Value::Cur(_) => Ok(Chosen::Place(long_in(key)?)),
        Value::Empty
        | Value::Null
        | Value::Bool(_)
        | Value::Str(_)
        | Value::Arr(_)
        | Value::Obj(_)
        | Value::Nothing => named(alloc, key),
    }
}

fn is_bound(bound: i32) -> bool
    ensures { result ≡ spec.is_bound bound }
{
    -1 <= bound
}

fn fit(bounds: &[i32]) -> bool
    ensures { result ≡ list_all spec.is_bound bounds.now }
{
    bounds.iter().all(|bound| is_bound(*bound))
}

fn are_bounds(bounds: &[i32]) -> bool
    ensures { result ≡ spec.are_bounds bounds.now }
{
    bounds.len() <= 60 && fit(bounds)
}

fn places(bound: i32) -> u64
    ensures { result ≡ places_of bound }
{
    if bound < 0 { 0 } else { bound as u64 + 1 }
}

/// How many items the dimensions have together: 2^64 - 1 stands for more. It recurses once for each.
#[tactic(auto, using(crate::proofs::Sharing::capped_product))]
fn product(bounds: &[i32]) -> u64
    ensures { result ≡ min (product_of bounds.now) (2 ^ 64 - 1) }
{
    match bounds {
        [] => 1,
        [bound, rest @ ..] => places(*bound).saturating_mul(product(rest)),
    }
}

fn has_items(bounds: &[i32], items: &[Value]) -> bool
    ensures { result ≡ (length items.now == item_count_of bounds.now) }
{
    if bounds.is_empty() {
        return items.is_empty();
    }
    product(bounds) == items.len() as u64
}

fn has_shape(array: &Array) -> bool
    ensures { result ≡ spec.has_shape array.now }
{
    let bounds = array.bounds.as_slice();
    are_bounds(bounds) && has_items(bounds, array.items.as_slice())
}

#[cycle(sounding)]
#[tactic(auto, using(crate::proofs::Sharing::all_more))]
fn are_sound(items: &[Value]) -> bool
    ensures { result ≡ list_all is_sound_value items.now }
{
    let mut sound = true;
    for item in items {
        sound = sound && is_sound(item);
    }
    sound
}

/// Whether a value is sound. It recurses once for each array inside another.
#[cycle(sounding)]
#[tactic(auto, using(crate::proofs::Sharing::sound_array))]
fn is_sound(value: &Value) -> bool
    ensures { result ≡ is_sound_value value.now }
{
    match value {
        Value::Str(text) => text.len() < 2_147_483_648,
        Value::Arr(array) => has_shape(array) && are_sound(array.items.as_slice()),
        _ => true,
    }
}

/// Whether runs may share a value.
#[tactic(auto, using(crate::proofs::Sharing::plain_test))]
pub(crate) fn is_shared(value: &Value) -> bool
    ensures { result ≡ spec.is_shared value.now }
{
    is_plain(value) && is_sound(value)
}

/// A value that is to be kept, once more.
#[tactic(auto, using(crate::proofs::Sharing::shared_may))]
pub(crate) fn shared(alloc: Global, value: &Value) -> Result<Value, AskStop>
    ensures shared { Answers result AskStop.Memory (spec.shared value.now) }
    ensures may { IfOk result IsShared }
{
    if is_shared(value) {
        Ok(copy(alloc, value)?)
    } else {
        Err(failed(VbError::TYPE_MISMATCH))
    }
}
