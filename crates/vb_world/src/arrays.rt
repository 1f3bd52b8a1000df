//! Arrays of Empty items, and whether the page has room for them.
ghost use Rattle.std.specs.Prelude.{◌≡◌, ◌+◌, ◌*◌, ◌-◌, ◌^◌, min, nat_lt, replicate};
ghost use Rattle.std.specs.List.{list_any};
ghost use Rattle.vb_value.specs.Outcome.{Gives};
ghost use Rattle.vb_value.specs.Sound as sound;
ghost use Rattle.vb_value.specs.declared.value.Value.{Empty as EmptyItem};
ghost use Rattle.vb_heap.specs.Limits.{most_weight};
ghost use Rattle.vb_heap.specs.PageWeight.{weight_of_page};
ghost use Rattle.vb_meaning.specs.Values as spec;
ghost use Rattle.vb_meaning.specs.Shown.{shown};

use std::alloc::Global;
use vb_heap::MOST_WEIGHT;
use vb_meaning::World;
use vb_value::{Array, List, Memory, Value};

/// How many places a dimension has.
fn places(bound: &i32) -> u64
    ensures { result ≡ sound.places bound.now }
{
    if *bound < 0 { 0 } else { *bound as u64 + 1 }
}

/// The product of the places of dimensions. 2^64 - 1 stands for a greater one.
fn product(mut bounds: &[i32]) -> u64
    ensures { result ≡ min (sound.product bounds.entry.now) (2 ^ 64 - 1) }
{
    let mut product: u64 = 1;
    while let [first, others @ ..] = bounds {
        product = product.saturating_mul(places(first));
        bounds = others;
    }
    product
}

/// How many items an array of these bounds has. 2^64 - 1 stands for more.
pub fn item_count(bounds: &[i32]) -> u64
    ensures { result ≡ min (sound.item_count bounds.now) (2 ^ 64 - 1) }
{
    match bounds {
        [] => 0,
        _ => product(bounds),
    }
}

/// Whether a bound is below -1.
pub fn has_bad_bound(bounds: &[i32]) -> bool
    ensures { result ≡ list_any spec.is_bad_bound bounds.now }
{
    bounds.iter().any(|bound| *bound < -1)
}

/// Whether a cell more would weigh too much that holds an array of so many Empty items.
pub fn is_too_heavy(world: &World, count: u64) -> bool
    ensures { result ≡ nat_lt most_weight (weight_of_page (shown world.now).store + (32 + 32 * count)) }
{
    let weight = count.saturating_mul(32).saturating_add(32);
    MOST_WEIGHT < weight.saturating_add(world.heap.page_weight())
}

/// The value Empty so many times.
pub fn empty_items(alloc: Global, count: usize) -> Result<List<Value>, Memory>
    ensures { Gives result (replicate count EmptyItem) }
{
    let mut items = List::with_capacity(alloc, count)?;
    for _made in 0..count {
        items.push(Value::Empty)?;
    }
    Ok(items)
}

/// An array of these bounds, with Empty items.
pub fn empty_array(alloc: Global, fixed: bool, bounds: List<i32>) -> Result<Array, Memory>
    ensures { Gives result (spec.empty_array fixed bounds) }
{
    let count = item_count(bounds.as_slice());
    if count == u64::MAX {
        return Err(Memory);
    }
    Ok(Array {
        items: empty_items(alloc, count as usize)?,
        bounds,
        fixed,
    })
}
