//! How a connection is disturbed, as cases write it.

use case_files::{Answer, CaseStop};
use std::str::Split;
use word_runs::{next, next_moment, next_number};

/// How a connection gives and takes bytes, and how often there is one.
#[derive(Clone, Copy)]
pub struct Plan {
    /// How many bytes the first read gives at most.
    pub first: usize,
    /// How many each other read gives at most.
    pub later: usize,
    /// How many a write takes at most; one where this is 0.
    pub most_write: usize,
    /// The numbers of the read and of the write that fail, counted from 1; 0 is none.
    pub failing_read: u32,
    pub failing_write: u32,
    /// What the clock gives.
    pub second: u64,
    /// How many such connections there are, one after another.
    pub times: u32,
}

/// A connection that nothing disturbs but a first read of at most so many bytes.
pub fn cut_at(first: usize) -> Plan {
    Plan {
        first,
        later: usize::MAX,
        most_write: usize::MAX,
        failing_read: 0,
        failing_write: 0,
        second: 0,
        times: 1,
    }
}

/// Reads which call fails.
fn read_failing(out: &mut Answer, plan: &mut Plan, words: &mut Split<'_, char>) {
    match next(words) {
        "read" => plan.failing_read = next_number(out, words),
        "write" => plan.failing_write = next_number(out, words),
        _ => out.stop(CaseStop::Unreadable),
    }
}

/// Reads a word of a plan.
pub fn read_option(out: &mut Answer, plan: &mut Plan, written: &str) {
    let mut words = written.split(' ');
    match next(&mut words) {
        "cut" => plan.first = next_number(out, &mut words) as usize,
        "reads" => {
            plan.first = next_number(out, &mut words) as usize;
            plan.later = plan.first;
        }
        "writes" => plan.most_write = next_number(out, &mut words) as usize,
        "fails" => read_failing(out, plan, &mut words),
        "second" => plan.second = next_moment(out, &mut words),
        "times" => plan.times = next_number(out, &mut words),
        _ => out.stop(CaseStop::Unreadable),
    }
}
