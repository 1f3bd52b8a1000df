//! Calls on pools of slots.

use crate::said::{write_number, write_object};
use crate::values::number;
use case_files::{Answer, CaseStop, Subject, read_text};
use slot_pool::{Pool, PoolStop, SlotKey};

/// Calls on pools, with `; ` between them, each with what it gives.
pub struct Pools;

/// The pools that a case made, the one that it calls, and the keys that its puts gave.
#[derive(Drop)]
struct Tried {
    pools: Vec<Pool<u64>>,
    current: usize,
    keys: Vec<SlotKey>,
}

impl Subject for Pools {
    fn answer(&self, case: &str, out: &mut Answer) {
        match read_text(out.alloc(), case) {
            Ok(text) => write_pools(out, text.as_str()),
            Err(stop) => out.stop(stop),
        }
    }
}

fn write_pools(out: &mut Answer, calls: &str) {
    let mut tried = Tried {
        pools: Vec::new(out.alloc()),
        current: 0,
        keys: Vec::new(out.alloc()),
    };
    for call in calls.split("; ") {
        write_call(out, &mut tried, call);
    }
}

/// Writes what a call gives. A blank stands before each of its arguments, of which it has at most two.
fn write_call(out: &mut Answer, tried: &mut Tried, written: &str) {
    let mut words = written.split(' ');
    let word = words.next().unwrap_or("");
    match (words.next(), words.next()) {
        (None, _) => write_on_pool(out, tried, word),
        (Some(first), None) => {
            let first = number(out, first);
            write_with_number(out, tried, word, first);
        }
        (Some(count), Some(most)) => {
            let count = number(out, count);
            let most = number(out, most);
            write_made(out, tried, count, most);
        }
    }
}

/// Makes a pool, which the next calls are made on.
fn write_made(out: &mut Answer, tried: &mut Tried, count: u32, most: u32) {
    if count > most {
        out.stop(CaseStop::Unreadable);
        return;
    }
    let Ok(pool) = Pool::with_reserve(out.alloc(), count, most) else {
        return out.stop(CaseStop::Memory);
    };
    tried.current = tried.pools.len();
    if tried.pools.push(pool).is_err() {
        out.stop(CaseStop::Memory);
    }
}

fn write_on_pool(out: &mut Answer, tried: &mut Tried, word: &str) {
    let Some(pool) = tried.pools.get_mut(tried.current) else {
        return out.stop(CaseStop::Unreadable);
    };
    match word {
        "spare" => write_number(out, u64::from(pool.spare())),
        "count" => write_number(out, u64::from(pool.len())),
        "reset" => pool.reset(),
        _ => out.stop(CaseStop::Unreadable),
    }
}

fn write_with_number(out: &mut Answer, tried: &mut Tried, word: &str, number: u32) {
    match word {
        "use" => tried.current = number as usize,
        "put" => write_put(out, tried, u64::from(number)),
        _ => write_with_key(out, tried, word, number),
    }
}

/// Writes nothing where a value is taken in, and else the value that is given back and why.
fn write_put(out: &mut Answer, tried: &mut Tried, value: u64) {
    let Some(pool) = tried.pools.get_mut(tried.current) else {
        return out.stop(CaseStop::Unreadable);
    };
    match pool.put(value) {
        Ok(key) => {
            if tried.keys.push(key).is_err() {
                out.stop(CaseStop::Memory);
            }
        }
        Err((value, PoolStop::Full)) => {
            write_number(out, value);
            out.put(" full");
        }
        Err((_, PoolStop::Memory)) => out.stop(CaseStop::Memory),
    }
}

/// Writes what a call gives on the key of a put, the first of which is 0, or on a number.
fn write_with_key(out: &mut Answer, tried: &mut Tried, word: &str, number: u32) {
    let Some(pool) = tried.pools.get_mut(tried.current) else {
        return out.stop(CaseStop::Unreadable);
    };
    if word == "at" {
        let key = pool.at(u64::from(number));
        return write_found(out, key.and_then(|key| pool.get(key).copied()));
    }
    let Some(key) = tried.keys.get(number as usize) else {
        return out.stop(CaseStop::Unreadable);
    };
    match word {
        "get" => write_found(out, pool.get(*key).copied()),
        "take" => write_found(out, pool.take(*key)),
        "raise" => write_found(out, raised(pool, *key)),
        _ => out.stop(CaseStop::Unreadable),
    }
}

/// The value of a key, after 100 is added to it in its place.
fn raised(pool: &mut Pool<u64>, key: SlotKey) -> Option<u64> {
    let value = pool.get_mut(key)?;
    *value = value.saturating_add(100);
    Some(*value)
}

fn write_found(out: &mut Answer, found: Option<u64>) {
    match found {
        Some(value) => write_number(out, value),
        None => write_object(out, None),
    }
}
