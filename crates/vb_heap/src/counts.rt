//! How many references there are to each object, kept by the objects' numbers. The numbers of objects that may have no
//! reference stand in a heap besides, each once.
ghost use Rattle.std.specs.Prelude.{◌≡◌, ◌≤◌, ◌<◌, ◌+◌, ◌++◌, ◌∷◌, ◌^◌, [], true, false, length, IfOk, OnOk};
ghost use Rattle.std.specs.BinaryHeap.{KeepsHeap, heap_capacity, heap_items, heap_len};
ghost use Rattle.std.specs.List.Sorted.{IsPermutation};
ghost use Rattle.std.specs.Option.{option_map_or};
ghost use Rattle.std.specs.Ordering.{nat_cmp};
ghost use Rattle.vb_heap.specs.Counted.{HaveRoom, counts_less, counts_more, reaching};
ghost use Rattle.vb_heap.specs.Pooled.{IsPooled};
ghost use Rattle.vb_heap.specs.References as spec;
ghost use Rattle.vb_heap.specs.Store.{numbered, replaced, without};
ghost use Rattle.vb_heap.specs.Tally.{IsTallied, oldest_waiting, with_end};
ghost use Rattle.vb_heap.specs.Waiting.{StandRight, apart, changed, counts_of, ended, ends_of, falls, is_free, lowered};
ghost use Rattle.vb_heap.specs.Waiting.{raised, settled, turned};

use crate::pooled::by_number;
use slot_pool::{Pool, numbers_rise};
use std::alloc::Global;
use std::collections::BinaryHeap;
use std::marker::Model;
use vb_value::{Memory, Value};

/// How many references there are to an object, and where its number stands.
#[derive(Clone, Copy)]
pub struct Count {
    /// How many references there are.
    pub count: u32,
    /// Whether the number stands in the heap.
    pub waits: bool,
    /// Whether the terminator of the object has begun.
    pub ends: bool,
}

/// Counts of references by the objects' numbers. A contract sees them as the record `Tally`.
#[derive(Drop)]
pub struct Counts {
    pool: Pool<Count>,
    loose: BinaryHeap<u32>,
}

impl Model for Counts {
    ghost use Rattle.std.specs.Coded.{codes};
    ghost use Rattle.vb_heap.specs.Tally.{Tally};

    ghost Value = { Tally };

    ghost coded = { Prim.hlevel codes };

    ghost use Rattle.vb_heap.specs.Waiting.{AreKept, tally_of};

    ghost view = { tally_of };

    ghost invariant = { AreKept };
}

impl Count {
    /// One reference more, 2^32 - 1 at most.
    fn raise(&mut self)
        ensures { self.new ≡ raised self.old }
    {
        self.count = self.count.saturating_add(1);
    }

    /// One reference less. It says whether the number has to be put into the heap.
    fn lower(&mut self) -> bool
        ensures count { self.new ≡ lowered self.old }
        ensures falls { result ≡ falls self.old }
    {
        self.count = self.count.saturating_sub(1);
        if self.count == 0 && !self.waits {
            self.waits = true;
            return true;
        }
        false
    }

    /// The number was taken out of the heap. It says whether the object ends now.
    fn settle(&mut self) -> bool
        ensures count { self.new ≡ settled self.old }
        ensures free { result ≡ is_free self.old }
    {
        self.waits = false;
        if self.count == 0 && !self.ends {
            self.ends = true;
            return true;
        }
        false
    }
}

/// Changes the count of an object, if it is there: one reference more.
fn raise_one(pool: &mut Pool<Count>, number: u32)
    ensures counts { pool.new.entries ≡ changed number raised pool.old.entries }
    ensures pooled { IsPooled pool.old pool.new }
{
    if let Some(count) = pool.get_mut(by_number(number as u64)) {
        count.raise();
    }
}

/// The same for one reference less. It says whether the number has to be put into the heap.
fn lower_one(pool: &mut Pool<Count>, number: u32) -> bool
    ensures counts { pool.new.entries ≡ changed number lowered pool.old.entries }
    ensures pooled { IsPooled pool.old pool.new }
    ensures falls { result ≡ option_map_or falls (numbered number pool.old.entries) false }
{
    match pool.get_mut(by_number(number as u64)) {
        Some(count) => count.lower(),
        None => false,
    }
}

/// The same for a number that was taken out of the heap. It says whether the object ends now.
fn settle_one(pool: &mut Pool<Count>, number: u32) -> bool
    ensures counts { pool.new.entries ≡ changed number settled pool.old.entries }
    ensures pooled { IsPooled pool.old pool.new }
    ensures free { result ≡ option_map_or is_free (numbered number pool.old.entries) false }
{
    match pool.get_mut(by_number(number as u64)) {
        Some(count) => count.settle(),
        None => false,
    }
}

/// Says of an object, if it is there, that its terminator has begun.
fn end_one(pool: &mut Pool<Count>, number: u32)
    ensures counts { pool.new.entries ≡ changed number ended pool.old.entries }
    ensures pooled { IsPooled pool.old pool.new }
{
    if let Some(count) = pool.get_mut(by_number(number as u64)) {
        count.ends = true;
    }
}

/// Takes numbers out of the heap until one is that of a live object without references. That object ends.
fn settle(pool: &mut Pool<Count>, loose: &mut BinaryHeap<u32>) -> Option<u32>
    requires stand { StandRight (heap_items loose.old) pool.old.entries }
    requires room { heap_len loose.old + apart pool.old.entries ≤ heap_capacity loose.old }
    ensures stand { StandRight (heap_items loose.new) pool.new.entries }
    ensures room { heap_len loose.new + apart pool.new.entries ≤ heap_capacity loose.new }
    ensures oldest { result ≡ oldest_waiting (counts_of pool.old.entries) (ends_of pool.old.entries) }
    ensures counts { counts_of pool.new.entries ≡ counts_of pool.old.entries }
    ensures ends { ends_of pool.new.entries ≡ with_end result (ends_of pool.old.entries) }
    ensures pooled { IsPooled pool.old pool.new }
{
    while let Some(place) = loose.pop() {
        let number = u32::MAX - place;
        numbers_rise(pool);
        if settle_one(pool, number) {
            return Some(number);
        }
    }
    None
}

/// Puts a number into the heap, where there is room.
fn put_loose(loose: &mut BinaryHeap<u32>, number: u32)
    requires { heap_len loose.old < heap_capacity loose.old }
    ensures len { heap_len loose.new ≡ heap_len loose.old + 1 }
    ensures capacity { heap_capacity loose.old ≤ heap_capacity loose.new }
    ensures items { IsPermutation (turned number ∷ heap_items loose.old) (heap_items loose.new) }
    ensures ordered { KeepsHeap nat_cmp (heap_items loose.old) (heap_items loose.new) }
{
    match loose.push(u32::MAX - number) {
        Ok(()) => {}
        Err(_) => unreachable!(),
    }
}

impl Counts {
    /// Counts of no objects.
    pub fn new(alloc: Global, most: u32) -> Result<Counts, Memory>
        ensures { IfOk result (λ counts. (counts.entries ≡ []) × (counts.ends ≡ []) × (counts.next ≡ 0)
            × (counts.most ≡ most)) }
    {
        Ok(Counts {
            pool: Pool::with_reserve(alloc, 0, most)?,
            loose: BinaryHeap::new(alloc),
        })
    }

    /// Drops all counts. The room stays.
    pub fn reset(&mut self)
        ensures counts { self.new.entries ≡ [] }
        ensures ends { self.new.ends ≡ [] }
        ensures next { self.new.next ≡ 0 }
        ensures most { self.new.most ≡ self.old.most }
    {
        self.pool.reset();
        self.loose.clear();
    }
}

/// The count of an object, if it is there.
pub fn count_at(counts: &Counts, number: u32) -> Option<u32>
    ensures { result ≡ numbered number counts.now.entries }
{
    match counts.pool.get(by_number(number as u64)) {
        Some(count) => Some(count.count),
        None => None,
    }
}

/// Makes room for one count more.
pub fn reserve_count(counts: &mut Counts) -> Result<(), Memory>
    requires { length counts.old.entries < counts.old.most }
    ensures counts { counts.new.entries ≡ counts.old.entries }
    ensures ends { counts.new.ends ≡ counts.old.ends }
    ensures pooled { IsTallied counts.old counts.new }
    ensures free { OnOk result (0 < counts.new.free) }
{
    counts.loose.reserve(counts.pool.len() as usize + 1)?;
    counts.pool.reserve(1)?;
    Ok(())
}

/// Adds the count of an object, for which there is room, with the next number.
pub fn add_count(counts: &mut Counts, count: u32)
    requires few { length counts.old.entries < counts.old.most }
    requires numbers { counts.old.next < 2 ^ 32 }
    requires free { 0 < counts.old.free }
    ensures counts { counts.new.entries ≡ counts.old.entries ++ (counts.old.next, count) ∷ [] }
    ensures ends { counts.new.ends ≡ counts.old.ends ++ (counts.old.next, false) ∷ [] }
    ensures made { counts.new.next ≡ counts.old.next + 1 }
    ensures most { counts.new.most ≡ counts.old.most }
{
    let waits = count == 0;
    match counts.pool.put(Count {
        count,
        waits,
        ends: false,
    }) {
        Ok(key) => {
            if waits {
                put_loose(&mut counts.loose, key.number as u32);
            }
        }
        Err(_) => unreachable!(),
    }
}

/// Drops the count of an object, if it is there.
pub fn remove_count(counts: &mut Counts, number: u32)
    ensures counts { counts.new.entries ≡ without number counts.old.entries }
    ensures ends { counts.new.ends ≡ without number counts.old.ends }
    ensures pooled { IsTallied counts.old counts.new }
{
    let _ = counts.pool.take(by_number(number as u64));
}

/// Says of an object that is there that its terminator has begun.
pub fn end_count(counts: &mut Counts, number: u32)
    ensures counts { counts.new.entries ≡ counts.old.entries }
    ensures ends { counts.new.ends ≡ replaced number true counts.old.ends }
    ensures pooled { IsTallied counts.old counts.new }
{
    end_one(&mut counts.pool, number);
}

/// The oldest live object without references, if there is one. Its terminator has begun.
pub fn end_oldest(counts: &mut Counts) -> Option<u32>
    ensures oldest { result ≡ oldest_waiting counts.old.entries counts.old.ends }
    ensures counts { counts.new.entries ≡ counts.old.entries }
    ensures ends { counts.new.ends ≡ with_end result counts.old.ends }
    ensures pooled { IsTallied counts.old counts.new }
{
    settle(&mut counts.pool, &mut counts.loose)
}

/// Counts one reference more to an object, if it is there: no count passes 2^32 - 1.
fn raise(counts: &mut Counts, number: u32)
    ensures counts { HaveRoom (number ∷ []) counts.old.entries
        → counts.new.entries ≡ counts_more (number ∷ []) counts.old.entries }
    ensures ends { counts.new.ends ≡ counts.old.ends }
    ensures pooled { IsTallied counts.old counts.new }
{
    numbers_rise(&counts.pool);
    raise_one(&mut counts.pool, number);
}

/// Counts one reference less to an object, if it is there.
fn lower(counts: &mut Counts, number: u32)
    ensures counts { counts.new.entries ≡ counts_less (number ∷ []) counts.old.entries }
    ensures ends { counts.new.ends ≡ counts.old.ends }
    ensures pooled { IsTallied counts.old counts.new }
{
    numbers_rise(&counts.pool);
    if lower_one(&mut counts.pool, number) {
        put_loose(&mut counts.loose, number);
    }
}

/// A number that is above another one, and no less than a third.
fn above(number: u32, top: u64) -> u64
    ensures top { top ≤ result }
    ensures below { reaching result (number ∷ []) ≡ 0 }
{
    if top <= number as u64 {
        number as u64 + 1
    } else {
        top
    }
}

/// Counts the references of a value as come, and gives a number above each of theirs that is no less than `top`. It
/// recurses once for each array inside another.
pub fn raise_in(counts: &mut Counts, value: &Value, top: u64) -> u64
    ensures counts { HaveRoom (spec.references value.now) counts.old.entries
        → counts.new.entries ≡ counts_more (spec.references value.now) counts.old.entries }
    ensures ends { counts.new.ends ≡ counts.old.ends }
    ensures pooled { IsTallied counts.old counts.new }
    ensures top { top ≤ result }
    ensures below { reaching result (spec.references value.now) ≡ 0 }
{
    match value {
        Value::Obj(object) => {
            raise(counts, object.0);
            above(object.0, top)
        }
        Value::Arr(array) => {
            let mut top = top;
            for item in array.items.as_slice() {
                top = raise_in(counts, item, top);
            }
            top
        }
        _ => top,
    }
}

/// Counts the references of a value as gone. It recurses once for each array inside another.
pub fn lower_in(counts: &mut Counts, value: &Value)
    ensures counts { counts.new.entries ≡ counts_less (spec.references value.now) counts.old.entries }
    ensures ends { counts.new.ends ≡ counts.old.ends }
    ensures pooled { IsTallied counts.old counts.new }
{
    match value {
        Value::Obj(object) => lower(counts, object.0),
        Value::Arr(array) => {
            for item in array.items.as_slice() {
                lower_in(counts, item);
            }
        }
        _ => {}
    }
}

/// Counts these references as come, and gives a number above each of theirs that is no less than `top`.
pub fn raise_all(counts: &mut Counts, numbers: &[u32], top: u64) -> u64
    ensures counts { HaveRoom numbers.now counts.old.entries
        → counts.new.entries ≡ counts_more numbers.now counts.old.entries }
    ensures ends { counts.new.ends ≡ counts.old.ends }
    ensures pooled { IsTallied counts.old counts.new }
    ensures top { top ≤ result }
    ensures below { reaching result numbers.now ≡ 0 }
{
    let mut top = top;
    for number in numbers {
        raise(counts, *number);
        top = above(*number, top);
    }
    top
}

/// Counts these references as gone.
pub fn lower_all(counts: &mut Counts, numbers: &[u32])
    ensures counts { counts.new.entries ≡ counts_less numbers.now counts.old.entries }
    ensures ends { counts.new.ends ≡ counts.old.ends }
    ensures pooled { IsTallied counts.old counts.new }
{
    for number in numbers {
        lower(counts, *number);
    }
}
