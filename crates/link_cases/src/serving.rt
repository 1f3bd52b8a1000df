//! What a host does in one step of a story.
ghost use Rattle.asp_desk.specs.Hands.{IsHandOf};

use crate::disturbed::Disturbed;
use crate::plan::{Plan, read_option};
use crate::said::{read_bytes, write_bytes, write_end};
use asp_desk::{Hand, Host, OpenGate};
use asp_io::MemClock;
use asp_job::Runner;
use asp_serve::serve_link;
use case_files::{Answer, CaseStop};
use std::sync::Wait;
use vb_value::List;

/// A clock that gives this second.
fn clock_at(out: &mut Answer, second: u64) -> MemClock {
    let mut seconds = List::new(out.alloc());
    if seconds.push(second).is_err() {
        out.stop(CaseStop::Memory);
    }
    MemClock::new(seconds)
}

/// Serves the connection, and writes how it ended and what was written on it.
pub fn serve<Rt: Wait, R: Runner>(
    rt: &Rt,
    out: &mut Answer,
    host: &Host<R>,
    hand: &mut Hand<R>,
    link: &mut Disturbed,
    second: u64,
)
    requires { IsHandOf R.meaning R.stands host.now hand.old }
    ensures { IsHandOf R.meaning R.stands host.now hand.new }
{
    if hand.run().is_some() {
        out.stop(CaseStop::Unreadable);
        return;
    }
    let clock = clock_at(out, second);
    let ended = serve_link(rt, out.alloc(), host, hand, link, &clock, &OpenGate);
    write_end(out, ended);
    let written = link.take_written();
    if !written.is_empty() {
        out.put(": ");
        write_bytes(out, written.as_slice());
    }
}

/// The connection that the words say, with these bytes.
fn read_link(out: &mut Answer, words: &str, bytes: &str, mut plan: Plan) -> (Disturbed, Plan) {
    for word in words.split(", ") {
        if word != "link" {
            read_option(out, &mut plan, word);
        }
    }
    (Disturbed::new(read_bytes(out, bytes), plan), plan)
}

/// Serves connections that are alike, one after another, and writes of the last what `serve` writes.
fn serve_alike<Rt: Wait, R: Runner>(
    rt: &Rt,
    out: &mut Answer,
    host: &Host<R>,
    hand: &mut Hand<R>,
    link: &mut Disturbed,
    step: (&str, &str),
    plan: Plan,
)
    requires { IsHandOf R.meaning R.stands host.now hand.old }
    ensures { IsHandOf R.meaning R.stands host.now hand.new }
{
    let (words, bytes) = step;
    let (first, plan) = read_link(out, words, bytes, plan);
    *link = first;
    for _ in 1..plan.times {
        let mut before = Answer::new(out.alloc());
        serve(rt, &mut before, host, hand, link, plan.second);
        if let Err(stop) = before.end() {
            out.stop(stop);
        }
        let (next, _) = read_link(out, words, bytes, plan);
        *link = next;
    }
    serve(rt, out, host, hand, link, plan.second);
}

/// Writes what the host has of requests.
fn write_looked<Rt: Wait, R: Runner>(rt: &Rt, out: &mut Answer, host: &Host<R>, hand: &mut Hand<R>)
    requires { IsHandOf R.meaning R.stands host.now hand.old }
    ensures { IsHandOf R.meaning R.stands host.now hand.new }
{
    let looked = host.look(rt, hand);
    out.show(&looked.admitted);
    out.put(" came, ");
    out.show(&looked.waiting);
    out.put(" wait, ");
    out.show(&looked.unfinished);
    out.put(" unfinished");
}

/// Does by another hand what the word says.
pub fn write_of_other<Rt: Wait, R: Runner>(
    rt: &Rt,
    out: &mut Answer,
    host: &Host<R>,
    other: &mut Hand<R>,
    word: &str,
)
    requires { IsHandOf R.meaning R.stands host.now other.old }
    ensures { IsHandOf R.meaning R.stands host.now other.new }
{
    match word {
        "stop" => match host.stop(rt, other) {
            Ok(()) => out.put("done"),
            Err(_) => out.stop(CaseStop::Memory),
        },
        "halt" => {
            host.halt(rt, other);
            out.put("done");
        }
        "look" => write_looked(rt, out, host, other),
        _ => out.stop(CaseStop::Unreadable),
    }
}

/// Does what a step says that is the hand's: a new connection, or the last one `again`.
pub fn write_of_hand<Rt: Wait, R: Runner>(
    rt: &Rt,
    out: &mut Answer,
    host: &Host<R>,
    hand: &mut Hand<R>,
    link: &mut Disturbed,
    step: &str,
    plan: Plan,
)
    requires { IsHandOf R.meaning R.stands host.now hand.old }
    ensures { IsHandOf R.meaning R.stands host.now hand.new }
{
    if step == "again" {
        serve(rt, out, host, hand, link, plan.second);
        return;
    }
    let step = step.split_once(": ").unwrap_or((step, ""));
    serve_alike(rt, out, host, hand, link, step, plan);
}
