//! The job of a page.
ghost use Rattle.std.specs.Prelude.{◌≡◌, ◌<◌, ◌^◌, length, true};
ghost use Rattle.asp_job.specs.Running.{is_page};
ghost use Rattle.asp_job.specs.Size.{IsSmall, request_size};

use asp_job::{Asked, Job, Request, Verb, Work};
use case_files::{Answer, CaseStop};
use std::str::Split;
use vb_value::{Bytes, List, Text};
use word_runs::{next, next_moment, number, text};

/// The key for which a job asks: `-` a new one, `0` none, and else that of this number.
fn asked(out: &mut Answer, written: &str) -> Asked {
    match written {
        "-" => Asked::Fresh,
        _ => Asked::Key(number(out, written)),
    }
}

/// The path that is written so. One that no page may have is noted, and is empty.
fn path(out: &mut Answer, word: &str) -> Text
    ensures { length result < 2 ^ 24 }
{
    let path = text(out, word);
    if word.starts_with('/') && path.len() < 1 << 24 {
        return path;
    }
    out.stop(CaseStop::Unreadable);
    Text::new(out.alloc())
}

fn request(out: &mut Answer, word: &str) -> Request
    ensures { request_size result < 2 ^ 24 }
{
    let path = path(out, word);
    let alloc = out.alloc();
    Request {
        verb: Verb::Get,
        path,
        query: Bytes::new(alloc),
        minor: 1,
        headers: List::new(alloc),
        body: Bytes::new(alloc),
        close: false,
    }
}

/// The job that is written `WORD KEY MOMENT`.
pub fn read_job(out: &mut Answer, words: &mut Split<'_, char>) -> Job
    ensures page { is_page result.work ≡ true }
    ensures small { IsSmall result }
{
    let word = next(words);
    let asked = asked(out, next(words));
    let moment = next_moment(out, words);
    Job {
        work: Work::Page(request(out, word)),
        moment,
        asked,
    }
}
