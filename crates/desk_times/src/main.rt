//! Times turns at a desk, beside the same under std's lock. With no words it takes a few of each and prints how many
//! entries they left. With `desk` or `lock` and three numbers (lanes, turns of each, rounds of work between two turns)
//! it prints how many entries there are, and on standard error how many microseconds it took.
#![tactic(auto)]

mod tally;
mod turns;

use std::io::ErrorKind;
use std::rt::{Clock, Runtime};
use std::sync::Wait;
use std::thread::Threads;
use std::time::Instant;
use std::{env, io};
use turns::{Kind, entries_of};

/// A number that is written in digits.
fn number(word: Option<String>) -> io::Result<u32> {
    match word {
        Some(word) => match word.as_str().parse::<u32>() {
            Ok(number) => Ok(number),
            Err(_) => Err(ErrorKind::InvalidInput.into()),
        },
        None => Err(ErrorKind::InvalidInput.into()),
    }
}

/// Takes the turns, and prints what they left and how long they took.
fn time<R: Runtime + AllocGlobal + Threads + Wait + Sync>(
    rt: &R,
    kind: Kind,
    lanes: u32,
    turns: u32,
    rounds: u32,
) -> io::Result<()> {
    if lanes == 0 || lanes > 32 {
        return Err(ErrorKind::InvalidInput.into());
    }
    let begin = Instant::now(rt)?;
    let entries = entries_of(rt, rt.alloc(), kind, lanes, turns, rounds)?;
    let took = begin.elapsed(rt)?;
    println!(rt; "{entries} entries")?;
    eprintln!(rt; "{} microseconds", took.as_micros())?;
    Ok(())
}

/// A few turns of each kind.
fn show<R: Runtime + AllocGlobal + Threads + Wait + Sync>(rt: &R) -> io::Result<()> {
    let desk = entries_of(rt, rt.alloc(), Kind::Desk, 4, 1_000, 0)?;
    let lock = entries_of(rt, rt.alloc(), Kind::Lock, 4, 1_000, 0)?;
    println!(rt; "desk: {desk} entries")?;
    println!(rt; "lock: {lock} entries")?;
    Ok(())
}

fn main(rt: HostRuntime) -> io::Result<()> {
    let mut words = env::args(&rt)?;
    let _ = words.next();
    let kind = match words.next() {
        None => return show(&rt),
        Some(word) if word.as_str() == "desk" => Kind::Desk,
        Some(word) if word.as_str() == "lock" => Kind::Lock,
        Some(_) => return Err(ErrorKind::InvalidInput.into()),
    };
    let lanes = number(words.next())?;
    let turns = number(words.next())?;
    let rounds = number(words.next())?;
    time(&rt, kind, lanes, turns, rounds)
}
