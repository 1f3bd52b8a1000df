//! Pages as they answer.
ghost use Rattle.asp_job.specs.Size.{IsSmall};

use crate::programs::program;
use crate::requests::read_job;
use crate::site::site_of;
use asp_job::{Finished, Header, Job, Runner, Step};
use asp_run::PlainRunner;
use asp_site::Site;
use case_files::{Answer, CaseStop, read_text};
use page_build::ScriptStop;

/// The type that a page has by itself.
const USUAL_TYPE: &[u8] = b"text/html; Charset=utf-8";

/// What a page has by itself in its field for caches.
const USUAL_CACHE: &[u8] = b"private";

/// Writes the answer to a request, which stands behind the script and ` ## `: its status, its fields but for those that
/// a page sets by itself, and its content, or for a HEAD its length.
pub fn write_answered(out: &mut Answer, case: &str) {
    match case.split_once(" ## ") {
        Some((script, asked)) => match read_text(out.alloc(), script) {
            Ok(script) => write_of_page(out, script.as_str(), asked),
            Err(stop) => out.stop(stop),
        },
        None => out.stop(CaseStop::Unreadable),
    }
}

/// Writes the answer of the page with this script to a request.
fn write_of_page(out: &mut Answer, script: &str, asked: &str) {
    match program(out, script) {
        Ok(program) => {
            let site = site_of(out, program);
            write_of_site(out, &site, asked);
        }
        Err(ScriptStop::Fault { .. }) => out.stop(CaseStop::Unreadable),
        Err(ScriptStop::Memory) => out.stop(CaseStop::Memory),
    }
}

/// Writes the answer of a site to a request.
fn write_of_site(out: &mut Answer, site: &Site, asked: &str) {
    match read_text(out.alloc(), asked) {
        Ok(asked) => match read_job(out.alloc(), asked.as_str()) {
            Ok(job) => {
                let alloc = out.alloc();
                write_run(out, &PlainRunner { alloc }, site, &job);
            }
            Err(stop) => out.stop(stop),
        },
        Err(stop) => out.stop(stop),
    }
}

/// Writes the answer of a job that wants nothing of the Application object.
fn write_run<R: Runner>(out: &mut Answer, runner: &R, site: &R::Site, job: &Job)
where
    R::State: Drop,
    R::Store: Drop,
    requires { IsSmall job.now }
{
    let started = match runner.store() {
        Ok(store) => runner.start(site, job, None, false, None, store),
        Err(_) => return out.stop(CaseStop::Memory),
    };
    match started {
        Ok(mut state) => match runner.go(site, &mut state, 10_000) {
            Ok(Step::Ended) => write_left(out, &runner.finish(state).0),
            Ok(Step::More | Step::Wants(_)) => out.stop(CaseStop::Unreadable),
            Err(_) => out.stop(CaseStop::Memory),
        },
        Err(_) => out.stop(CaseStop::Memory),
    }
}

/// Writes the answer that was left.
fn write_left(out: &mut Answer, left: &Option<Finished>) {
    match left {
        Some(finished) => match &finished.answer {
            Some(answer) => write_answer(out, answer),
            None => out.stop(CaseStop::Unreadable),
        },
        None => out.stop(CaseStop::Unreadable),
    }
}

fn write_answer(out: &mut Answer, answer: &asp_job::Answer) {
    out.show(&answer.status);
    out.put(" ");
    out.text(answer.reason.as_slice());
    out.put("; ");
    for field in answer.headers.as_slice() {
        write_field(out, field);
    }
    if answer.head_only {
        out.put("(head) ");
        out.show(&answer.body.len());
    } else {
        write_bytes(out, answer.body.as_slice());
    }
}

fn write_field(out: &mut Answer, field: &Header) {
    let value = field.value.as_slice();
    if value != USUAL_TYPE && value != USUAL_CACHE {
        out.text(field.name.as_slice());
        out.put(": ");
        write_bytes(out, value);
        out.put("; ");
    }
}

/// Writes bytes as a text.
fn write_bytes(out: &mut Answer, bytes: &[u8]) {
    match String::from_utf8_lossy(out.alloc(), bytes) {
        Ok(text) => out.put(text.as_str()),
        Err(_) => out.stop(CaseStop::Memory),
    }
}
