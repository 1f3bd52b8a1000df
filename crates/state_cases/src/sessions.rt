//! Calls of the sessions of a site.
ghost use Rattle.std.specs.Prelude.{◌≤◌, ◌<◌, ◌^◌};
ghost use Rattle.asp_job.specs.Session.{IsSession};

use crate::said::{moment, number, write_maybe, write_number, write_numbers, write_word};
use asp_job::SessionState;
use asp_session::{After, KeyStop, Sessions};
use case_files::{Answer, CaseStop, Subject, read_text};
use std::alloc::Global;
use vb_value::{List, Memory};

/// Calls of new sessions with a seed of noughts, with `; ` between them, each with what it gives.
pub struct Keys;

impl Subject for Keys {
    fn answer(&self, case: &str, out: &mut Answer) {
        match read_text(out.alloc(), case) {
            Ok(text) => write_calls(out, text.as_str()),
            Err(stop) => out.stop(stop),
        }
    }
}

fn write_calls(out: &mut Answer, calls: &str) {
    let mut sessions = Sessions::new(out.alloc(), [0; 32]);
    for call in calls.split("; ") {
        write_call(out, &mut sessions, call);
    }
}

/// Writes what a call gives. It has at most four words.
fn write_call(out: &mut Answer, sessions: &mut Sessions, written: &str) {
    let mut words = written.split(' ');
    let word = words.next().unwrap_or("");
    let (first, second, third) = (words.next(), words.next(), words.next());
    match word {
        "add" => {
            let moment = moment(out, first);
            write_added(out, sessions, moment);
        }
        "many" => {
            let (count, moment) = (number(out, first), moment(out, second));
            add_many(out, sessions, count, moment);
        }
        "find" => write_maybe(out, sessions.find(first.unwrap_or("").as_bytes())),
        "askable" => {
            let key = number(out, first);
            write_word(out, if sessions.askable(key) { "yes" } else { "no" });
        }
        "live" => write_numbers(out, &sessions.live(out.alloc())),
        "due" => {
            let moment = moment(out, first);
            write_numbers(out, &sessions.due(out.alloc(), moment));
        }
        _ => {
            let key = number(out, first);
            write_run(out, sessions, word, key, second, third);
        }
    }
}

fn write_added(out: &mut Answer, sessions: &mut Sessions, moment: u64) {
    if sessions.made() >= 2_147_483_647 {
        return out.stop(CaseStop::Unreadable);
    }
    match sessions.add_key(moment) {
        Ok(key) => write_number(out, key),
        Err(KeyStop::Full) => write_word(out, "full"),
        Err(KeyStop::Memory) => out.stop(CaseStop::Memory),
    }
}

/// Makes so many keys.
fn add_many(out: &mut Answer, sessions: &mut Sessions, count: u32, moment: u64) {
    for _ in 0..count {
        if sessions.made() >= 2_147_483_647 || sessions.add_key(moment).is_err() {
            return out.stop(CaseStop::Unreadable);
        }
    }
}

/// Writes what a call on a run of a key gives: it waits, begins, ends.
fn write_run(
    out: &mut Answer,
    sessions: &mut Sessions,
    word: &str,
    key: u32,
    second: Option<&str>,
    third: Option<&str>,
) {
    match word {
        "queue" | "last" => {
            let run = number(out, second);
            if sessions.queue(key, run, word == "last").is_err() {
                out.stop(CaseStop::Memory);
            }
        }
        "touch" => sessions.touch(key, moment(out, second)),
        "begin" if sessions.opened() < 2_147_483_647 => {
            write_given(out, &sessions.begin(out.alloc(), key));
        }
        "peek" if sessions.opened() < 2_147_483_647 => {
            write_given(out, &sessions.peek(out.alloc(), key));
        }
        "end" => end(out, sessions, key, second.unwrap_or(""), third),
        _ => out.stop(CaseStop::Unreadable),
    }
}

/// Writes the serial that a run is given, and the minutes of its session, if it has one.
fn write_given(out: &mut Answer, given: &Result<(u32, Option<SessionState>), Memory>) {
    match given {
        Ok((serial, session)) => {
            write_number(out, *serial);
            match session {
                Some(session) => {
                    out.put(" of ");
                    out.show(&session.timeout);
                    out.put(" minutes");
                }
                None => out.put(" new"),
            }
        }
        Err(_) => out.stop(CaseStop::Memory),
    }
}

/// What a run left of its session: `kept`, `none`, or a session of this serial and so many minutes.
fn end(out: &mut Answer, sessions: &mut Sessions, key: u32, left: &str, timeout: Option<&str>) {
    match left {
        "kept" => sessions.end(key, After::Kept),
        "none" => sessions.end(key, After::Now(None)),
        _ => {
            let (serial, timeout) = (number(out, Some(left)), number(out, timeout));
            if serial < 1 || serial >= 2_147_483_648 || timeout < 1 || timeout > 1440 {
                out.stop(CaseStop::Unreadable);
            } else {
                let session = empty(out.alloc(), serial, timeout);
                sessions.end(key, After::Now(Some(session)));
            }
        }
    }
}

/// A session without entries.
fn empty(alloc: Global, serial: u32, timeout: u32) -> SessionState
    requires counted { 1 ≤ serial }
    requires few { serial < 2 ^ 31 }
    requires lasts { 1 ≤ timeout }
    requires ends { timeout ≤ 1440 }
    ensures { IsSession result }
{
    SessionState {
        serial,
        timeout,
        values: List::new(alloc),
        dicts: List::new(alloc),
    }
}
