//! One request of a connection, from its bytes to those of its answer.
#![tactic(auto)]

ghost use Rattle.std.specs.Prelude.{◌≡◌, ◌||◌, ℕ, ◌+◌, ◌<◌, ◌≤◌, ◌^◌, List, None, IfNone, true, false};
ghost use Rattle.asp_job.specs.Size.{request_size};
ghost use Rattle.asp_desk.specs.Hands.{IsHandOf, rules_at};
ghost use Rattle.http_front.specs.Reader.{ComesNext};
ghost use Rattle.http_front.specs.declared.reader.Next.TheVariants as next;
ghost use Rattle.asp_response.specs.AnswerText.{IsAnswerText};
ghost use Rattle.asp_response.specs.Fixed.{status_answer_of};
ghost use Rattle.asp_serve.specs.declared.writing.Sent as writing;
ghost use Rattle.asp_serve.specs.Steps as spec;

use crate::admitting::{admit, closing};
use crate::ending::LinkEnd;
use crate::reading::{Heard, read_request};
use crate::serving::MOST_REQUESTS;
use crate::working::wait_for;
use crate::writing::{Sent, send_answer, send_refusal};
use asp_desk::{Gate, Hand, Host, Looked};
use asp_io::{Clock, Link};
use asp_job::{Request, Runner};
use http_front::Reader;
use std::alloc::Global;
use std::sync::Wait;

/// The end where a text was written so far, if there is one: this, where it was written whole.
fn end_after(sent: Sent, whole: Option<LinkEnd>) -> Option<LinkEnd>
    ensures { result ≡ spec.end_after sent whole }
{
    match sent {
        Sent::Whole => whole,
        Sent::Fault => Some(LinkEnd::WriteFault),
        Sent::Memory => Some(LinkEnd::Memory),
    }
}

/// The end after an answer that ends the connection, with so many bytes behind its request.
fn closed_if(close: bool, rest: u32) -> Option<LinkEnd>
    ensures { result ≡ spec.closed_if close rest }
{
    if close {
        Some(LinkEnd::Closed { rest })
    } else {
        None
    }
}

/// Brings the request to the host, works until its answer has come, and writes it. How the connection ended, if it did.
fn answer_request<Rt: Wait, R: Runner, L: Link, C: Clock, G: Gate>(
    rt: &Rt,
    alloc: Global,
    host: &Host<R>,
    hand: &mut Hand<R>,
    link: &mut L,
    clock: &C,
    gate: &G,
    reader: &Reader,
    count: u32,
    request: Request,
) -> Option<LinkEnd>
    requires hand { IsHandOf R.meaning R.stands host.now hand.old }
    requires small { request_size request < 2 ^ 24 }
    requires count { count < MOST_REQUESTS }
    ensures hand { IsHandOf R.meaning R.stands host.now hand.new }
    ensures free { spec.IsFreeAfter result hand.new.run }
    ensures comes { (bytes : List ℕ) → ComesNext bytes (next.Request request) reader.now
        → spec.Comes (rules_at R.meaning host.now) (C.may_give clock.now) count bytes reader.now
        hand.old.lane hand.new.lane
        (record { left = L.left link.old; held = L.held link.old; faults = L.faults link.old })
        (record { left = L.left link.new; held = L.held link.new; faults = L.faults link.new }) result }
    ensures last { IfNone result (count + 1 < MOST_REQUESTS) }
{
    let request = closing(request, count + 1 == MOST_REQUESTS);
    let close = request.close;
    let told = match admit(rt, host, hand, clock, gate, request) {
        Ok(told) => told,
        Err(ended) => return Some(ended),
    };
    let answer = match wait_for(rt, host, hand, gate, told.run) {
        Ok(answer) => answer,
        Err(ended) => return Some(ended),
    };
    let sent = send_answer(alloc, link, &answer, told.moment);
    end_after(sent, closed_if(close, reader.rest()))
}

/// Writes the fixed answer of a status, and ends the connection.
fn refuse<L: Link, C: Clock>(alloc: Global, link: &mut L, clock: &C, status: u16) -> Option<LinkEnd>
    requires most { status < 1000 }
    requires least { 100 ≤ status }
    ensures comes { (second : ℕ) × (sent : writing.Sent) × C.may_give clock.now second × spec.Sends
        (record { left = L.left link.old; held = L.held link.old; faults = L.faults link.old })
        (record { left = L.left link.new; held = L.held link.new; faults = L.faults link.new })
        (IsAnswerText (status_answer_of status false true) second) sent
        × (result ≡ spec.end_after sent (Some (LinkEnd.Refused status))) }
{
    let sent = send_refusal(alloc, link, status, clock.seconds());
    end_after(sent, Some(LinkEnd::Refused(status)))
}

/// Whether the host takes no request any more.
fn is_leaving(looked: &Looked) -> bool
    ensures { result ≡ (looked.now.stopping || looked.now.halted) }
{
    looked.stopping || looked.halted
}

/// Serves one more request on a connection that has taken so many. How the connection ended, if it did.
pub fn serve_one<Rt: Wait, R: Runner, L: Link, C: Clock, G: Gate>(
    rt: &Rt,
    alloc: Global,
    host: &Host<R>,
    hand: &mut Hand<R>,
    link: &mut L,
    clock: &C,
    gate: &G,
    reader: &mut Reader,
    count: u32,
) -> Option<LinkEnd>
    requires hand { IsHandOf R.meaning R.stands host.now hand.old }
    requires free { hand.old.run ≡ None }
    requires count { count < MOST_REQUESTS }
    ensures hand { IsHandOf R.meaning R.stands host.now hand.new }
    ensures free { spec.IsFreeAfter result hand.new.run }
    ensures comes { spec.Comes (rules_at R.meaning host.now) (C.may_give clock.now) count reader.old reader.new
        hand.old.lane hand.new.lane
        (record { left = L.left link.old; held = L.held link.old; faults = L.faults link.old })
        (record { left = L.left link.new; held = L.held link.new; faults = L.faults link.new }) result }
    ensures last { IfNone result (count + 1 < MOST_REQUESTS) }
{
    let looked = host.look(rt, hand);
    if is_leaving(&looked) {
        return Some(LinkEnd::Drained);
    }
    match read_request(rt, link, reader) {
        Heard::Request(request) => {
            answer_request(
                rt, alloc, host, hand, link, clock, gate, reader, count, request,
            )
        }
        Heard::Refused(status) => refuse(alloc, link, clock, status),
        Heard::End => Some(LinkEnd::Closed {
            rest: reader.rest(),
        }),
        Heard::Fault => Some(LinkEnd::ReadFault),
        Heard::Memory => Some(LinkEnd::Memory),
    }
}
