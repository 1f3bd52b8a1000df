//! The reader of one connection.
ghost use Rattle.std.specs.Prelude.{◌≡◌, ◌≤◌, ◌++◌, [], length, IfOk, OnOk, OnErr};
ghost use Rattle.vb_value.specs.Outcome.{Changes};
ghost use Rattle.http_front.specs.Reader.{ComesNext, Wants};

use crate::found::{Found, copy_request, find};
use asp_job::Request;
use httparse::spans::{EMPTY_HEADER_SPAN, HeaderSpan};
use std::alloc::Global;
use std::marker::Model;
use vb_value::Memory;

/// What the reader gives next.
#[derive(Debug, Drop)]
pub enum Next {
    Request(Request),
    /// More bytes are wanted.
    More,
    /// The status that refuses what was fed. Nothing comes after it.
    Refused(u16),
}

/// More fields than 16,384 bytes can have.
const ROOM: usize = 5461;

fn make_room(spans: &mut Vec<HeaderSpan>) -> Result<(), Memory>
    ensures { OnOk result (length spans.new.items ≡ 5461) }
{
    if spans.len() != ROOM {
        spans.resize(ROOM, EMPTY_HEADER_SPAN)?;
    }
    Ok(())
}

/// Reads requests from the bytes of one connection. It is seen as the bytes that no request took.
#[derive(Debug, Drop)]
pub struct Reader {
    bytes: Vec<u8>,
    /// How many of the bytes requests took.
    taken: usize,
    /// Nothing can come before there are so many bytes more.
    need: usize,
    /// Where reading goes on behind those taken, or 0.
    mark: usize,
    /// Empty until the first head, then room for each field.
    spans: Vec<HeaderSpan>,
}

impl Model for Reader {
    ghost use Rattle.std.specs.Prelude.{ℕ, List, drop};
    ghost use Rattle.http_front.specs.Waiting.{IsReader};

    ghost Value = { List ℕ };

    ghost view = { λ r. drop r.taken r.bytes.items };

    ghost invariant = { λ r. IsReader r.bytes.items r.taken r.need r.mark };
}

impl Reader {
    /// A reader that was fed nothing. It wants bytes.
    pub fn new(alloc: Global) -> Reader
        ensures nothing { result ≡ [] }
        ensures wants { Wants result }
    {
        Reader {
            bytes: Vec::new(alloc),
            taken: 0,
            need: 0,
            mark: 0,
            spans: Vec::new(alloc),
        }
    }

    /// How many of the bytes fed no request took.
    pub fn rest(&self) -> u32
        ensures { result ≡ length self.now }
    {
        (self.bytes.len() - self.taken) as u32
    }

    /// Takes the next bytes of the connection: at the start, or where [`Reader::next`] wanted more.
    pub fn feed(&mut self, piece: &[u8]) -> Result<(), Memory>
        requires short { length piece.now ≤ 65536 }
        requires wants { Wants self.old }
        ensures { Changes result self.old self.new (self.old ++ piece.now) }
    {
        self.compact();
        self.bytes.extend_from_slice(piece)?;
        Ok(())
    }

    // Lets go of the bytes that requests took.
    fn compact(&mut self)
        ensures { self.new ≡ self.old }
    {
        if self.taken > 0 {
            self.bytes.drain(..self.taken);
            self.taken = 0;
        }
    }

    /// What the bytes give next. A refusal is given again at each further call.
    pub fn next(&mut self) -> Result<Next, Memory>
        ensures ok { IfOk result (λ next. ComesNext self.old next self.new) }
        ensures err { OnErr result (self.new ≡ self.old) }
    {
        if self.bytes.len() - self.taken < self.need {
            return Ok(Next::More);
        }
        make_room(&mut self.spans)?;
        let alloc = *self.bytes.allocator();
        let pending = &self.bytes[self.taken..];
        match find(
            alloc,
            pending,
            &mut self.spans,
            self.mark,
            self.need.saturating_sub(1),
        )? {
            Found::More { need, mark } => {
                self.need = need;
                self.mark = mark;
                Ok(Next::More)
            }
            Found::Refused(status) => Ok(Next::Refused(status)),
            Found::Request(accepted) => {
                let end = accepted.end;
                let request = copy_request(alloc, pending, &self.spans, accepted)?;
                self.taken += end;
                self.need = 0;
                self.mark = 0;
                Ok(Next::Request(request))
            }
        }
    }
}
