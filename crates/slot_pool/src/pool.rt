//! The pool.
ghost use Rattle.std.specs.Prelude.{◌≡◌, ◌≤◌, ◌<◌, ◌+◌, IfOk, IfErr, OnOk, OnErr, IsErr, IsSome, None, true, length, filter_map};
ghost use Rattle.std.specs.Option.{option_copied, option_copied_mut, MatchOption};
ghost use Rattle.std.specs.Borrow.{sem};

use crate::finding::{key_of, slot_of};
use crate::key::{PoolStop, SlotKey};
use crate::slot::Slot;
use crate::sweeping::tidy;
use slab::Slab;
use std::alloc::{AllocError, Global};
use std::marker::Model;

/// Values in slots that are used again, each by its number. A contract sees it as the record `Pool` of specs/Pool.antt.
#[derive(Drop)]
pub struct Pool<T> {
    slots: Slab<Slot<T>>,
    order: Vec<SlotKey>,
    next: u64,
    made: u32,
    most: u32,
}

impl<T> Model for Pool<T> {
    ghost use Rattle.slot_pool.specs.Pool.{Pool as Seen, pool_code};
    ghost use Rattle.slot_pool.specs.Inside.{pool_of, IsKept};

    ghost Value = { Seen T };

    ghost coded = { pool_code T.code };

    ghost view = { pool_of };

    ghost invariant = { IsKept };
}

impl<T> Pool<T> {
    ghost use Rattle.slot_pool.specs.Pool.{NumbersRise, numbered, numbers, made, is_full, spare, with_put, with_room, without, emptied, led_to, Stops};
    ghost use Rattle.slot_pool.specs.Lends.{lends_value};

    /// A pool of `count` slots in which at most `most` values may be at once.
    pub fn with_reserve(alloc: Global, count: u32, most: u32) -> Result<Pool<T>, AllocError>
        requires { count ≤ most }
        ensures { IfOk result (λ pool. pool ≡ made count most) }
    {
        let order = Vec::with_capacity(alloc, 2 * count as usize)?;
        Ok(Pool {
            slots: Slab::with_capacity(alloc, count as usize)?,
            order,
            next: 0,
            made: count,
            most,
        })
    }

    /// Does nothing, for what holds of every pool.
    pub(crate) fn law(&self)
        ensures rise { NumbersRise 0 self.now.entries self.now.next }
        ensures within { length self.now.entries + self.now.free ≤ self.now.most }
    {
        let _made = self.made;
    }

    /// How many values are there.
    pub fn len(&self) -> u32
        ensures value { result ≡ length self.now.entries }
        ensures within { result ≤ self.now.most }
    {
        self.slots.len() as u32
    }

    /// How many values can be put with no memory.
    pub fn spare(&self) -> u32
        ensures { result ≡ spare self.now }
    {
        let free = self.made - self.slots.len() as u32;
        let left = u64::MAX - self.next;
        if (free as u64) < left {
            free
        } else {
            left as u32
        }
    }

    /// Makes slots, with room for their keys, until so many more values can be put with no memory.
    pub fn reserve(&mut self, count: u32) -> Result<(), AllocError>
        requires { length self.old.entries + count ≤ self.old.most }
        ensures room { OnOk result (self.new ≡ with_room count self.old) }
        ensures refused { OnErr result (self.new ≡ self.old) }
    {
        let made = self.slots.len() as u32 + count;
        if made <= self.made {
            return Ok(());
        }
        self.slots.reserve(count as usize)?;
        self.order.reserve(2 * made as usize - self.order.len())?;
        self.made = made;
        Ok(())
    }

    /// Puts a value in a slot. It gets the next number.
    pub fn put(&mut self, value: T) -> Result<SlotKey, (T, PoolStop)>
        ensures key { IfOk result (λ key. key.number ≡ self.old.next) }
        ensures put { OnOk result (self.new ≡ with_put value self.old) }
        ensures full { is_full self.old ≡ true → IsErr result }
        ensures cause { IfErr result (λ refused. (refused.0 ≡ value) × Stops refused.1 self.old) }
        ensures refused { OnErr result (self.new ≡ self.old) }
    {
        if self.len() == self.most || self.next == u64::MAX {
            return Err((value, PoolStop::Full));
        }
        if self.spare() == 0 && self.reserve(1).is_err() {
            return Err((value, PoolStop::Memory));
        }
        Ok(self.put_reserved(value))
    }

    /// Puts a value in a slot that is made and free.
    fn put_reserved(&mut self, value: T) -> SlotKey
        requires free { 0 < self.old.free }
        requires numbers { self.old.next < numbers }
        ensures key { result.number ≡ self.old.next }
        ensures put { self.new ≡ with_put value self.old }
    {
        let number = self.next;
        let slot = self.slots.insert_reserved(Slot { number, value });
        let key = SlotKey { number, slot };
        self.order.push_reserved(key);
        self.next = number + 1;
        key
    }

    /// The value of a key, if it is there.
    pub fn get(&self, key: SlotKey) -> Option<&T>
        ensures { option_copied result ≡ numbered key.number self.now }
    {
        let slot = slot_of(&self.slots, self.order.as_slice(), self.next, key);
        match self.slots.get(slot) {
            Some(found) => Some(&found.value),
            None => None,
        }
    }

    /// The value of a key for writing, if it is there.
    pub fn get_mut(&mut self, key: SlotKey) -> Option<&mut T>
        ensures* writes_back { sem 𝓛 (lends_value T.row self.entry key.number result) }
        ensures value { option_copied_mut result ≡ numbered key.number self.old }
    {
        let slot = slot_of(&self.slots, self.order.as_slice(), self.next, key);
        match self.slots.get_mut(slot) {
            Some(found) => Some(found.value_mut()),
            None => None,
        }
    }

    /// The key of a number, if its value is there.
    pub fn at(&self, number: u64) -> Option<SlotKey>
        ensures { MatchOption result (numbered number self.now ≡ None)
            (λ key. (key.number ≡ number) × IsSome (numbered number self.now)) }
    {
        key_of(&self.slots, self.order.as_slice(), self.next, number)
    }

    /// The keys of all values, in the order of the putting, with those of some that went.
    pub fn keys(&self) -> &[SlotKey]
        ensures { filter_map (led_to self.now) result.now ≡ self.now.entries }
    {
        self.order.as_slice()
    }

    /// Takes the value of a key out, if it is there.
    pub fn take(&mut self, key: SlotKey) -> Option<T>
        ensures value { result ≡ numbered key.number self.old }
        ensures left { self.new ≡ without key.number self.old }
    {
        let slot = slot_of(&self.slots, self.order.as_slice(), self.next, key);
        match self.slots.try_remove(slot) {
            Some(Slot { number: _, value }) => {
                tidy(&self.slots, &mut self.order);
                Some(value)
            }
            None => None,
        }
    }

    /// Lets all values go. The slots stay, and the numbers begin anew.
    pub fn reset(&mut self)
    where
        T: Drop,
        ensures { self.new ≡ emptied self.old }
    {
        self.slots.clear();
        self.order.clear();
        self.next = 0;
    }
}
