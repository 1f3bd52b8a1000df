//! Turns at a desk, of lanes in one thread and in many.
ghost use Rattle.std.specs.Prelude.{◌≡◌, ◌<◌, ◌≤◌, ◌^◌, [], length, All, IfOk};
ghost use Rattle.turn_desk.specs.Histories.{GrowsBy};
ghost use Rattle.turn_desk.specs.Shown.{IsLaneOf};

use std::alloc::Global;
use std::hint::spin_loop;
use std::sync::Wait;
use std::test::Fail;
use std::thread::{Threads, join, map_vec};
use turn_desk::{Desk, Lane, Stands};
use vb_value::{List, Memory};

/// Notes, each with the number of a lane and a place among that lane's turns, and a thing that stays as it is.
#[derive(Drop)]
struct Log<T> {
    notes: List<(u32, u32)>,
    kept: T,
}

impl<T> Stands for Log<T> {
    type Entry = (u32, u32);

    type Fixed = T;

    ghost lane_of = { λ note. note.0 };

    ghost entries = { λ log. log.notes };

    ghost fixed = { λ log. log.kept };

    fn length(&self) -> u64 {
        self.notes.len() as u64
    }
}

impl<T> Log<T> {
    fn new(alloc: Global, kept: T) -> Log<T>
        ensures { (result.notes ≡ []) × (result.kept ≡ kept) }
    {
        Log {
            notes: List::new(alloc),
            kept,
        }
    }

    /// Adds a note, where there is memory for it.
    fn add(&mut self, number: u32, place: u32)
        requires { length self.old.notes < 2 ^ 32 }
        ensures grows { GrowsBy (λ note. note.0) number self.old.notes self.new.notes }
        ensures short { length self.new.notes < 2 ^ 32 }
        ensures kept { self.new.kept ≡ self.old.kept }
    {
        if self.notes.len() < 1_000_000 {
            let _ = self.notes.push((number, place));
        }
    }

    /// Whether the notes of each lane stand in the order of their places, and there are so many of each.
    fn is_right(&self, lanes: u32, each: u32) -> bool {
        let mut right = self.notes.len() == lanes as usize * each as usize;
        for number in 0..lanes {
            let mut count = 0u32;
            let mut last = None;
            for note in self.notes.as_slice() {
                if note.0 == number {
                    right &= last < Some(note.1);
                    last = Some(note.1);
                    count = count.wrapping_add(1);
                }
            }
            right &= count == each;
        }
        right
    }
}

/// A desk round an empty log, and its lanes.
#[tactic(auto, using(turn_desk::proofs::Fresh::fresh))]
fn opened<T: Drop>(
    alloc: Global,
    kept: T,
    count: u32,
) -> Result<(Desk<Log<T>>, List<Lane<Log<T>>>), Memory>
    requires { (1 ≤ count) × (count ≤ 32) }
    ensures { IfOk result (λ made. All (λ lane. IsLaneOf made.0 lane) made.1) }
{
    Desk::new(alloc, Log::new(alloc, kept), count)
}

/// The last of these lanes.
#[tactic(auto, using(crate::proofs::Lanes::left, crate::proofs::Lanes::taken))]
fn popped<T: Drop>(
    desk: &Desk<Log<T>>,
    lanes: &mut List<Lane<Log<T>>>,
) -> Result<Lane<Log<T>>, Fail>
    requires { All (λ lane. IsLaneOf desk.now lane) lanes.old }
    ensures lane { IfOk result (λ lane. IsLaneOf desk.now lane) }
    ensures lanes { All (λ lane. IsLaneOf desk.now lane) lanes.new }
{
    match lanes.pop() {
        Some(lane) => Ok(lane),
        None => Err(Fail::from(Memory)),
    }
}

/// These lanes with one more.
fn pushed<T: Drop>(
    desk: &Desk<Log<T>>,
    mut lanes: List<Lane<Log<T>>>,
    lane: Lane<Log<T>>,
) -> Result<List<Lane<Log<T>>>, Memory>
    requires { All (λ lane. IsLaneOf desk.now lane) lanes × IsLaneOf desk.now lane }
    ensures { IfOk result (λ lanes. All (λ lane. IsLaneOf desk.now lane) lanes) }
{
    lanes.push(lane)?;
    Ok(lanes)
}

/// A turn that adds a note.
fn note<T, R: Wait>(rt: &R, desk: &Desk<Log<T>>, lane: Lane<Log<T>>, place: u32) -> Lane<Log<T>>
    requires { IsLaneOf desk.now lane }
    ensures { IsLaneOf desk.now result × (result.number ≡ lane.number) }
{
    let number = lane.number();
    let mut turn = desk.take(rt, lane);
    turn.state().add(number, place);
    turn.give()
}

/// A turn that adds nothing, and lasts so many rounds of a loop.
#[tactic(auto, using(crate::proofs::Lanes::added_nothing))]
fn empty_turn<T, R: Wait>(
    rt: &R,
    desk: &Desk<Log<T>>,
    lane: Lane<Log<T>>,
    rounds: u32,
) -> Lane<Log<T>>
    requires { IsLaneOf desk.now lane }
    ensures { IsLaneOf desk.now result × (result.number ≡ lane.number) }
{
    let turn = desk.take(rt, lane);
    for _ in 0..rounds {
        spin_loop();
    }
    turn.give()
}

/// So many turns of a lane. With `rests` every third of them adds nothing.
fn notes<T, R: Wait>(
    rt: &R,
    desk: &Desk<Log<T>>,
    mut lane: Lane<Log<T>>,
    turns: u32,
    rests: bool,
) -> Lane<Log<T>>
    requires { IsLaneOf desk.now lane }
    ensures { IsLaneOf desk.now result }
{
    for place in 0..turns {
        lane = if rests && place % 3 == 0 {
            empty_turn(rt, desk, lane, 0)
        } else {
            note(rt, desk, lane, place)
        };
    }
    lane
}

/// The same of each lane, in a thread of its own. What `T` is decides whether lanes may go to other threads.
fn all_note<T: Send + Drop, R: Threads + Wait + Sync>(
    rt: &R,
    desk: &Desk<Log<T>>,
    lanes: List<Lane<Log<T>>>,
    turns: u32,
    rests: bool,
) -> Result<List<Lane<Log<T>>>, Memory>
    requires { All (λ lane. IsLaneOf desk.now lane) lanes }
    ensures { IfOk result (λ back. All (λ lane. IsLaneOf desk.now lane) back) }
{
    let lanes = lanes.into_vec();
    match map_vec(rt, lanes, &|lane| notes(rt, desk, lane, turns, rests)) {
        Ok(lanes) => Ok(List::from_vec(lanes)),
        Err(_) => Err(Memory),
    }
}

/// So many lanes in as many threads, each with so many turns: whether all of their notes come out.
fn all_come_out<R: Threads + Wait + Sync>(
    rt: &R,
    alloc: Global,
    count: u32,
    turns: u32,
    rests: bool,
) -> Result<bool, Memory>
    requires { (1 ≤ count) × (count ≤ 32) }
{
    let (desk, lanes) = opened(alloc, 7u8, count)?;
    let lanes = all_note(rt, &desk, lanes, turns, rests)?;
    let each = if rests {
        turns - turns.div_ceil(3)
    } else {
        turns
    };
    Ok(match desk.close(lanes) {
        Ok(log) => log.kept == 7 && log.is_right(count, each),
        Err(_) => false,
    })
}

/// A turn begins with what the turns before it left, and the desk ends with all lanes, in whatever order.
#[test]
fn one_after_another(rt: HostRuntime) -> Result<(), Fail> {
    let (desk, mut lanes) = opened(rt.alloc(), (), 2)?;
    let second = popped(&desk, &mut lanes)?;
    let first = popped(&desk, &mut lanes)?;
    assert!(rt; first.number() == 0 && second.number() == 1);
    let first = note(&rt, &desk, first, 0);
    let mut turn = desk.take(&rt, second);
    let length = turn.state().length();
    let lanes = pushed(&desk, lanes, turn.give())?;
    assert!(rt; length == 1);
    let Err((desk, lanes)) = desk.close(lanes) else {
        panic!(rt; "a lane is missing")
    };
    let lanes = pushed(&desk, lanes, first)?;
    let Ok(log) = desk.close(lanes) else {
        panic!(rt; "both lanes are there")
    };
    assert!(rt; log.is_right(1, 1));
    Ok(())
}

/// A desk of which a lane was let go is never closed.
#[test]
fn a_lane_let_go(rt: HostRuntime) -> Result<(), Fail> {
    let (desk, mut lanes) = opened(rt.alloc(), (), 3)?;
    let _ = popped(&desk, &mut lanes)?;
    let Err((desk, lanes)) = desk.close(lanes) else {
        panic!(rt; "a lane was let go")
    };
    let Err((_, lanes)) = desk.close(lanes) else {
        panic!(rt; "it was let go for ever")
    };
    assert!(rt; lanes.len() == 2);
    Ok(())
}

/// A turn that changes nothing leaves the state as it was.
#[test]
fn a_turn_that_changes_nothing(rt: HostRuntime) -> Result<(), Fail> {
    let (desk, mut lanes) = opened(rt.alloc(), 5u8, 1)?;
    let lane = popped(&desk, &mut lanes)?;
    let lane = note(&rt, &desk, lane, 3);
    let lanes = pushed(&desk, lanes, empty_turn(&rt, &desk, lane, 0))?;
    let Ok(log) = desk.close(lanes) else {
        panic!(rt; "the lane is there")
    };
    assert!(rt; log.notes.as_slice() == [(0, 3)].as_slice() && log.kept == 5);
    Ok(())
}

#[test]
fn two_lanes_in_two_threads(rt: HostRuntime) -> Result<(), Fail> {
    assert!(rt; all_come_out(&rt, rt.alloc(), 2, 1_000, false)?);
    Ok(())
}

#[test]
fn sixteen_lanes_of_which_each_third_turn_adds_nothing(rt: HostRuntime) -> Result<(), Fail> {
    assert!(rt; all_come_out(&rt, rt.alloc(), 16, 10_000, true)?);
    Ok(())
}

#[test]
fn the_most_and_the_fewest_lanes(rt: HostRuntime) -> Result<(), Fail> {
    assert!(rt; all_come_out(&rt, rt.alloc(), 32, 100, false)?);
    assert!(rt; all_come_out(&rt, rt.alloc(), 1, 100, false)?);
    Ok(())
}

/// Who sleeps gets its turn, though the turn before it added nothing.
#[test]
fn a_sleeper_gets_its_turn(rt: HostRuntime) -> Result<(), Fail> {
    let (desk, mut lanes) = opened(rt.alloc(), (), 2)?;
    let second = popped(&desk, &mut lanes)?;
    let first = popped(&desk, &mut lanes)?;
    let (first, second) = join(
        &rt,
        || empty_turn(&rt, &desk, first, 20_000_000),
        || empty_turn(&rt, &desk, second, 20_000_000),
    );
    assert!(rt; first.number() == 0 && second.number() == 1);
    Ok(())
}
