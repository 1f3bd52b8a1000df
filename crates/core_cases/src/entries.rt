//! Entries of a journal: those that cases write in words, and those that lines tell of.

use crate::shared_values::{read_call, read_reply};
use asp_job::{Asked, EndKind, Entry, Header, Job, Request, Verb, What, Work};
use asp_record::{Line, LineWhat};
use case_files::{Answer, CaseStop};
use std::str::Split;
use vb_value::{Bytes, List};
use word_runs::{bytes, next, next_moment, next_number, number, text};

/// A request that has nothing but its path.
fn bare_request(out: &mut Answer) -> Request {
    let path = text(out, "/");
    let alloc = out.alloc();
    Request {
        verb: Verb::Get,
        path,
        query: Bytes::new(alloc),
        minor: 1,
        headers: List::new(alloc),
        body: Bytes::new(alloc),
        close: false,
    }
}

fn one_header(out: &mut Answer) -> List<Header> {
    let name = text(out, "Cookie");
    let value = bytes(out, b"a=1");
    let mut headers = List::new(out.alloc());
    if headers.push(Header { name, value }).is_err() {
        out.stop(CaseStop::Memory);
    }
    headers
}

/// A request that has all that requests may have. Its body looks like lines of a journal.
fn full_request(out: &mut Answer, verb: Verb) -> Request {
    Request {
        verb,
        path: text(out, "/forms/ask.asp"),
        query: bytes(out, b"a=1&b=2"),
        minor: 0,
        headers: one_header(out),
        body: bytes(out, b"\nT 0 5\nS 0\n"),
        close: true,
    }
}

fn request(out: &mut Answer, word: &str) -> Request {
    match word {
        "get" => full_request(out, Verb::Get),
        "head" => full_request(out, Verb::Head),
        "post" => full_request(out, Verb::Post),
        "other" => full_request(out, Verb::Other),
        _ => {
            if word != "bare" {
                out.stop(CaseStop::Unreadable);
            }
            bare_request(out)
        }
    }
}

/// The key for which a job asks.
fn asked(out: &mut Answer, word: &str) -> Asked {
    match word {
        "cookie" => Asked::Cookie,
        "fresh" => Asked::Fresh,
        _ => Asked::Key(number(out, word)),
    }
}

/// The job that is written `REQUEST ASKED MOMENT`.
fn job(out: &mut Answer, words: &mut Split<'_, char>) -> Job {
    let request = request(out, next(words));
    let asked = asked(out, next(words));
    let moment = next_moment(out, words);
    Job {
        work: Work::Page(request),
        moment,
        asked,
    }
}

fn work(out: &mut Answer, word: &str) -> Work {
    match word {
        "start" => Work::Start,
        "end" => Work::SessionEnd,
        _ => {
            if word != "stop" {
                out.stop(CaseStop::Unreadable);
            }
            Work::Stop
        }
    }
}

fn queue(out: &mut Answer, words: &mut Split<'_, char>) -> What {
    let run = next_number(out, words);
    let work = work(out, next(words));
    let key = next_number(out, words);
    What::Queue { run, work, key }
}

fn admit(out: &mut Answer, words: &mut Split<'_, char>) -> What {
    let run = next_number(out, words);
    let key = next_number(out, words);
    let job = job(out, words);
    What::Admit {
        run,
        key,
        fresh: job.asked == Asked::Fresh,
        job,
    }
}

fn refuse(out: &mut Answer, words: &mut Split<'_, char>) -> What {
    let run = next_number(out, words);
    let job = job(out, words);
    What::Refuse { run, job }
}

fn begin(out: &mut Answer, words: &mut Split<'_, char>) -> What {
    let run = next_number(out, words);
    let serial = next_number(out, words);
    What::Begin { run, serial }
}

fn app(out: &mut Answer, words: &mut Split<'_, char>) -> What {
    let run = next_number(out, words);
    let call = read_call(out, words);
    let reply = read_reply(out, words);
    What::App { run, call, reply }
}

fn kind(out: &mut Answer, word: &str) -> EndKind {
    match word {
        "done" => EndKind::Done,
        "memory" => EndKind::Memory,
        _ => {
            if word != "journal" {
                out.stop(CaseStop::Unreadable);
            }
            EndKind::JournalFull
        }
    }
}

fn status(out: &mut Answer, written: &str) -> u16 {
    match written.parse() {
        Ok(status) => status,
        Err(_) => {
            out.stop(CaseStop::Unreadable);
            0
        }
    }
}

fn end(out: &mut Answer, words: &mut Split<'_, char>) -> What {
    let run = next_number(out, words);
    let kind = kind(out, next(words));
    let status = status(out, next(words));
    let length = next_number(out, words);
    let made = next_number(out, words);
    let finished = next_number(out, words);
    What::End {
        run,
        kind,
        status,
        length,
        made,
        finished,
    }
}

fn read_what(out: &mut Answer, words: &mut Split<'_, char>) -> What {
    match next(words) {
        "queue" => queue(out, words),
        "admit" => admit(out, words),
        "refuse" => refuse(out, words),
        "tick" => What::Tick {
            moment: next_moment(out, words),
        },
        "begin" => begin(out, words),
        "app" => app(out, words),
        "end" => end(out, words),
        "take" => What::Take {
            run: next_number(out, words),
        },
        "stop" => What::Stop,
        "halt" => What::Halt,
        _ => {
            out.stop(CaseStop::Unreadable);
            What::Halt
        }
    }
}

/// The entry that is written in words, its lane before them.
pub fn read_entry(out: &mut Answer, written: &str) -> Entry {
    let mut words = written.split(' ');
    let lane = next_number(out, &mut words);
    let what = read_what(out, &mut words);
    Entry { lane, what }
}

/// A job of which a line tells the moment alone.
fn job_at(out: &mut Answer, moment: u64) -> Job {
    Job {
        work: Work::Page(bare_request(out)),
        moment,
        asked: Asked::Cookie,
    }
}

fn what_of(out: &mut Answer, told: LineWhat) -> What {
    match told {
        LineWhat::Queue { run, work, key } => What::Queue { run, work, key },
        LineWhat::Admit { run, key, moment } => What::Admit {
            run,
            key,
            fresh: false,
            job: job_at(out, moment),
        },
        LineWhat::Refuse { run, moment } => What::Refuse {
            run,
            job: job_at(out, moment),
        },
        LineWhat::Tick { moment } => What::Tick { moment },
        LineWhat::Begin { run, serial } => What::Begin { run, serial },
        LineWhat::App { run, call, reply } => What::App { run, call, reply },
        LineWhat::End {
            run,
            kind,
            status,
            length,
            made,
            finished,
        } => What::End {
            run,
            kind,
            status,
            length,
            made,
            finished,
        },
        LineWhat::Stop => What::Stop,
    }
}

/// An entry of which a line tells. Of a job its request and the key that it asks for are made up.
pub fn entry_of(out: &mut Answer, line: Line) -> Entry {
    let Line { lane, what } = line;
    Entry {
        lane,
        what: what_of(out, what),
    }
}
