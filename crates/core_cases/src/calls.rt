//! Calls of a core.
ghost use Rattle.std.specs.Prelude.{◌≡◌, true};
ghost use Rattle.asp_job.specs.Running.{is_page};
ghost use Rattle.asp_job.specs.Size.{IsSmall};

use crate::desk::Desk;
use crate::jobs::read_job;
use crate::said::line_of;
use crate::shown;
use asp_core::Core;
use asp_job::{Entry, Job};
use case_files::{Answer, CaseStop, Subject, read_text};
use std::str::Split;
use word_runs::{AllWords, WordRunner, next, next_moment, next_number};

/// Calls of a new core with a seed of noughts, with `; ` between them.
#[derive(Drop)]
pub struct Calls {
    /// Whether its Lock keeps readers out too.
    pub strict: bool,
}

/// Writes a line without its end.
fn write_line(out: &mut Answer, line: &[u8]) {
    match String::from_utf8_lossy(out.alloc(), line) {
        Ok(text) => out.put(text.as_str().trim_end()),
        Err(_) => out.stop(CaseStop::Memory),
    }
}

/// Writes the lines of a journal, with ` / ` between them.
fn write_journal(out: &mut Answer, journal: &[Entry]) {
    let mut between = "";
    for entry in journal {
        let line = line_of(out, entry);
        if !line.is_empty() {
            out.put(between);
            write_line(out, line.as_slice());
            between = " / ";
        }
    }
}

/// Writes what the core tells of itself.
fn write_of_core(out: &mut Answer, core: &Core<WordRunner>, word: &str) {
    match word {
        "journal" => write_journal(out, core.journal()),
        "moment" => out.show(&core.moment()),
        "started" => shown::write_started(out, core.start_kind()),
        "waiting" => out.show(&core.waiting()),
        "admitted" => out.show(&core.admitted()),
        "entries" => out.show(&core.entries()),
        "unfinished" => out.show(&core.unfinished()),
        "stopping" => out.show(&core.stopping()),
        "halted" => out.show(&core.halted()),
        _ => out.stop(CaseStop::Unreadable),
    }
}

/// The same job comes so many times; what is told of the last is written.
fn write_many(
    out: &mut Answer,
    desk: &mut Desk<WordRunner>,
    lane: u32,
    words: &mut Split<'_, char>,
) {
    let count = next_number(out, words);
    let job = read_job(out, words);
    let mut before = Answer::new(out.alloc());
    for _ in 1..count {
        shown::write_admitted(&mut before, desk.admit(lane, &job));
    }
    match before.end() {
        Ok(_) => shown::write_admitted(out, desk.admit(lane, &job)),
        Err(stop) => out.stop(stop),
    }
}

/// A step of a lane that lets a job go all its way: it is admitted, begun, ended and handed out.
fn write_step(out: &mut Answer, desk: &mut Desk<WordRunner>, lane: u32, step: u32, job: &Job)
    requires page { is_page job.now.work ≡ true }
    requires small { IsSmall job.now }
{
    match step {
        0 => shown::write_admitted(out, desk.admit(lane, job)),
        1 => shown::write_begun(out, desk.begin(lane)),
        2 => shown::write_ran(out, desk.run(lane)),
        _ => shown::write_first(out, &desk.collect_first(lane)),
    }
}

/// The same job goes all its way on so many lanes, step by step.
fn write_round(out: &mut Answer, desk: &mut Desk<WordRunner>, lane: u32, count: u32, job: &Job)
    requires page { is_page job.now.work ≡ true }
    requires small { IsSmall job.now }
{
    for step in 0..4 {
        for more in 0..count {
            write_step(out, desk, lane.saturating_add(more), step, job);
        }
    }
}

/// The same job goes all its way so many times, on so many lanes at a time; the number of entries then is written.
fn write_cycle(
    out: &mut Answer,
    desk: &mut Desk<WordRunner>,
    lane: u32,
    words: &mut Split<'_, char>,
) {
    let count = next_number(out, words);
    let lanes = next_number(out, words).max(1);
    let job = read_job(out, words);
    let mut rounds = Answer::new(out.alloc());
    for _ in 0..count / lanes {
        write_round(&mut rounds, desk, lane, lanes, &job);
    }
    match rounds.end() {
        Ok(_) => out.show(&desk.core().entries()),
        Err(stop) => out.stop(stop),
    }
}

/// Lets the run of a lane go on, and writes how far it came.
fn write_gone(out: &mut Answer, desk: &mut Desk<WordRunner>, lane: u32) {
    match desk.go(lane) {
        Ok(()) => shown::write_progress(out, desk.progress(lane)),
        Err(stop) => out.stop(stop),
    }
}

/// Makes a call of a lane that has more words, and writes what it tells.
fn write_of_words(
    out: &mut Answer,
    desk: &mut Desk<WordRunner>,
    lane: u32,
    word: &str,
    words: &mut Split<'_, char>,
) {
    match word {
        "admit" => {
            let job = read_job(out, words);
            shown::write_admitted(out, desk.admit(lane, &job));
        }
        "many" => write_many(out, desk, lane, words),
        "cycle" => write_cycle(out, desk, lane, words),
        "tick" => {
            let moment = next_moment(out, words);
            shown::write_ticked(out, desk.tick(lane, moment));
        }
        "collect" => {
            let run = next_number(out, words);
            shown::write_collected(out, &desk.collect(lane, run));
        }
        _ => out.stop(CaseStop::Unreadable),
    }
}

/// Makes a call of a lane, and writes what it tells.
fn write_of_lane(
    out: &mut Answer,
    desk: &mut Desk<WordRunner>,
    lane: u32,
    words: &mut Split<'_, char>,
) {
    let word = next(words);
    match word {
        "stop" => shown::write_event(out, desk.stop(lane)),
        "halt" => shown::write_halted(out, desk.halt(lane)),
        "first" => shown::write_first(out, &desk.collect_first(lane)),
        "begin" => shown::write_begun(out, desk.begin(lane)),
        "go" => write_gone(out, desk, lane),
        "call" => shown::write_called(out, desk.call(lane)),
        "end" => shown::write_ended(out, desk.end(lane)),
        "run" => shown::write_ran(out, desk.run(lane)),
        _ => write_of_words(out, desk, lane, word, words),
    }
}

/// Makes a call, and writes what it tells behind what those before it told.
fn write_call(out: &mut Answer, desk: &mut Desk<WordRunner>, written: &str) {
    if !out.is_empty() {
        out.put(", ");
    }
    let mut words = written.split(' ');
    let first = next(&mut words);
    match first.parse() {
        Ok(lane) => write_of_lane(out, desk, lane, &mut words),
        Err(_) => write_of_core(out, desk.core(), first),
    }
}

fn write_calls(out: &mut Answer, strict: bool, calls: &str) {
    let alloc = out.alloc();
    match Desk::new(alloc, WordRunner { alloc }, AllWords, strict) {
        Ok(mut desk) => {
            for written in calls.split("; ") {
                write_call(out, &mut desk, written);
            }
        }
        Err(stop) => out.stop(stop),
    }
}

impl Subject for Calls {
    fn answer(&self, case: &str, out: &mut Answer) {
        match read_text(out.alloc(), case) {
            Ok(calls) => write_calls(out, self.strict, calls.as_str()),
            Err(stop) => out.stop(stop),
        }
    }
}
