//! Requests from a connection.
#![tactic(auto)]

ghost use Rattle.std.specs.Prelude.{◌≡◌, IfNone, IfSome};
ghost use Rattle.http_front.specs.Reader.{Wants};
ghost use Rattle.asp_serve.specs.Served.{LinkView};
ghost use Rattle.asp_serve.specs.Steps as spec;

use asp_io::{Failed, Link};
use asp_job::Request;
use http_front::{Next, Reader};
use std::sync::Wait;
use vb_value::Memory;

/// How many bytes a read asks for at most.
const PIECE: usize = 8192;

/// What was heard on a connection.
#[derive(Debug, Drop)]
pub enum Heard {
    Request(Request),
    /// The status that refuses what came.
    Refused(u16),
    /// The end of what comes.
    End,
    /// A read failed.
    Fault,
    /// Memory ran out.
    Memory,
}

/// Reads a piece for a reader that wants more. What was heard, if that ends the hearing.
fn read_more<L: Link>(link: &mut L, reader: &mut Reader) -> Option<Heard>
    requires { Wants reader.old }
    ensures goes { IfNone result (spec.HasFed
        (record { left = L.left link.old; held = L.held link.old; faults = L.faults link.old })
        (record { left = L.left link.new; held = L.held link.new; faults = L.faults link.new })
        reader.old reader.new) }
    ensures ends { IfSome result (λ told. spec.HasHeard
        (record { left = L.left link.old; held = L.held link.old; faults = L.faults link.old })
        (record { left = L.left link.new; held = L.held link.new; faults = L.faults link.new })
        reader.old told reader.new) }
{
    let mut piece = [0u8; PIECE];
    match link.read(&mut piece) {
        Ok(0) => Some(Heard::End),
        Ok(count) => match reader.feed(&piece[..count as usize]) {
            Ok(()) => None,
            Err(Memory) => Some(Heard::Memory),
        },
        Err(Failed) => Some(Heard::Fault),
    }
}

/// What the reader gives, if it wants no more.
fn given(reader: &mut Reader) -> Option<Heard>
    ensures none { IfNone result ((reader.new ≡ reader.old) × Wants reader.new) }
    ensures some { (link : LinkView) → IfSome result (λ told. spec.Hears link link reader.old told reader.new) }
{
    match reader.next() {
        Ok(Next::Request(request)) => Some(Heard::Request(request)),
        Ok(Next::Refused(status)) => Some(Heard::Refused(status)),
        Ok(Next::More) => None,
        Err(Memory) => Some(Heard::Memory),
    }
}

/// The next request on a connection, or what comes in its place. What the reader has is judged before more is read.
pub fn read_request<Rt: Wait, L: Link>(rt: &Rt, link: &mut L, reader: &mut Reader) -> Heard
    ensures { spec.HasHeard
        (record { left = L.left link.old; held = L.held link.old; faults = L.faults link.old })
        (record { left = L.left link.new; held = L.held link.new; faults = L.faults link.new })
        reader.old result reader.new }
{
    for _ in rt.forever() {
        if let Some(told) = given(reader) {
            return told;
        }
        if let Some(told) = read_more(link, reader) {
            return told;
        }
    }
    unreachable!()
}
