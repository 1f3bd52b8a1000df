//! Turns of lanes in threads, at a desk and under std's lock.
ghost use Rattle.std.specs.Prelude.{◌≡◌, ◌≤◌, ◌++◌, ◌∷◌, [], All, IfOk, IsTrue};
ghost use Rattle.turn_desk.specs.Shown.{IsLaneOf};

use crate::tally::Tally;
use std::alloc::Global;
use std::hint::spin_loop;
use std::io;
use std::io::ErrorKind;
use std::sync::{Mutex, Wait};
use std::thread::{Threads, map_indices, map_vec};
use turn_desk::{Desk, Lane};
use vb_value::{List, Memory};

/// What lanes take their turns at.
#[derive(Clone, Copy)]
pub enum Kind {
    /// A desk.
    Desk,
    /// A lock of std.
    Lock,
}

/// Work of a lane's own.
fn work(rounds: u32) {
    for _ in 0..rounds {
        spin_loop();
    }
}

/// One turn of a lane, which adds an entry of its own: `added` tells whether it did.
#[tactic(auto, using(crate::proofs::Lanes::one_more))]
fn turn_at<R: Wait>(rt: &R, desk: &Desk<Tally>, lane: Lane<Tally>, added: &mut bool) -> Lane<Tally>
    requires { IsLaneOf desk.now lane }
    ensures lane { IsLaneOf desk.now result × (result.number ≡ lane.number) }
    ensures own { IsTrue added.new → result.own ≡ lane.own ++ lane.number ∷ [] }
{
    let number = lane.number();
    let mut turn = desk.take(rt, lane);
    *added = turn.state().add(number);
    turn.give()
}

/// One lane's turns at a desk.
fn at_desk<R: Wait>(
    rt: &R,
    desk: &Desk<Tally>,
    mut lane: Lane<Tally>,
    turns: u32,
    rounds: u32,
) -> Lane<Tally>
    requires { IsLaneOf desk.now lane }
    ensures { IsLaneOf desk.now result }
{
    for _ in 0..turns {
        let mut added = false;
        lane = turn_at(rt, desk, lane, &mut added);
        work(rounds);
    }
    lane
}

/// All lanes' turns at a desk, each in a thread of its own.
fn all_at_desk<R: Threads + Wait + Sync>(
    rt: &R,
    desk: &Desk<Tally>,
    lanes: List<Lane<Tally>>,
    turns: u32,
    rounds: u32,
) -> Result<List<Lane<Tally>>, Memory>
    requires { All (λ lane. IsLaneOf desk.now lane) lanes }
    ensures { IfOk result (λ back. All (λ lane. IsLaneOf desk.now lane) back) }
{
    let lanes = lanes.into_vec();
    match map_vec(rt, lanes, &|lane| at_desk(rt, desk, lane, turns, rounds)) {
        Ok(lanes) => Ok(List::from_vec(lanes)),
        Err(_) => Err(Memory),
    }
}

/// A desk round an empty tally, and its lanes.
#[tactic(auto, using(turn_desk::proofs::Fresh::fresh))]
fn opened(alloc: Global, count: u32) -> Result<(Desk<Tally>, List<Lane<Tally>>), Memory>
    requires { (1 ≤ count) × (count ≤ 32) }
    ensures { IfOk result (λ made. All (λ lane. IsLaneOf made.0 lane) made.1) }
{
    Desk::new(alloc, Tally::new(alloc), count)
}

/// How many entries so many turns of so many lanes leave at a desk.
fn desk_entries<R: Threads + Wait + Sync>(
    rt: &R,
    alloc: Global,
    lanes: u32,
    turns: u32,
    rounds: u32,
) -> Result<usize, Memory>
    requires { (1 ≤ lanes) × (lanes ≤ 32) }
{
    let (desk, seats) = opened(alloc, lanes)?;
    let seats = all_at_desk(rt, &desk, seats, turns, rounds)?;
    match desk.close(seats) {
        Ok(tally) => Ok(tally.entries.len()),
        Err(_) => Ok(0),
    }
}

/// One lane's turns under a lock.
fn under_lock<R: Wait>(rt: &R, lock: &Mutex<Tally>, number: u32, turns: u32, rounds: u32) {
    for _ in 0..turns {
        let mut tally = lock.lock(rt);
        let _ = tally.add(number);
        drop(tally);
        work(rounds);
    }
}

/// All lanes' turns under a lock, each in a thread of its own: how many entries they leave.
fn lock_entries<R: Threads + Wait + Sync>(
    rt: &R,
    alloc: Global,
    lanes: u32,
    turns: u32,
    rounds: u32,
) -> Result<usize, Memory> {
    let lock = Mutex::new(Tally::new(alloc));
    match map_indices(
        rt,
        alloc,
        lanes as usize,
        &|number| { under_lock(rt, &lock, number as u32, turns, rounds) },
    ) {
        Ok(_) => Ok(lock.into_inner().entries.len()),
        Err(_) => Err(Memory),
    }
}

/// How many entries so many turns of so many lanes leave.
pub fn entries_of<R: Threads + Wait + Sync>(
    rt: &R,
    alloc: Global,
    kind: Kind,
    lanes: u32,
    turns: u32,
    rounds: u32,
) -> io::Result<usize>
    requires { (1 ≤ lanes) × (lanes ≤ 32) }
{
    let left = match kind {
        Kind::Desk => desk_entries(rt, alloc, lanes, turns, rounds),
        Kind::Lock => lock_entries(rt, alloc, lanes, turns, rounds),
    };
    match left {
        Ok(entries) => Ok(entries),
        Err(Memory) => Err(ErrorKind::OutOfMemory.into()),
    }
}
