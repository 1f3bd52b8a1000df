//! What a page says of its answer: the body.
ghost use Rattle.std.specs.Prelude.{◌≡◌, ◌+◌, ◌++◌, Ok, length, is_some, encode_utf8_all};
ghost use Rattle.vb_value.specs.Outcome.{Answers, Changes};
ghost use Rattle.asp_response.specs.Draft as spec;

use crate::cookie::Cookie;
use crate::status::Status;
use crate::stop::DraftStop;
use asp_job::Header;
use std::alloc::Global;
use std::marker::Model;
use vb_value::{Bytes, LimitKind, List, Text};

/// The longest body, in bytes: 4 MiB.
pub const MOST_BODY: usize = 4_194_304;

/// What a page has said of its answer so far (ASP 3.0, "Response Object"). Contracts see it as the record of that.
#[derive(Debug, Drop)]
pub struct Draft {
    pub(crate) body: Bytes,
    // How many bytes of the body are fixed.
    pub(crate) flushed: usize,
    pub(crate) sent: bool,
    pub(crate) buffer: bool,
    pub(crate) status: Option<Status>,
    pub(crate) content_type: Option<Text>,
    pub(crate) charset: Option<Text>,
    pub(crate) cache: Option<Text>,
    pub(crate) location: Option<Text>,
    pub(crate) cookies: List<Cookie>,
    pub(crate) added: List<Header>,
    // How many bytes the lines of the head take that the page has said.
    pub(crate) head: usize,
}

impl Model for Draft {
    ghost use Rattle.asp_response.specs.View.{Draft};

    ghost Value = { Draft };

    ghost use Rattle.asp_response.specs.Held.{IsSized, draft_in};

    ghost view = { draft_in };

    ghost invariant = { IsSized };
}

/// Refuses a body of more than 4 MiB, given the lengths of its two parts.
pub(crate) fn within_limit(has: usize, more: usize) -> Result<(), DraftStop>
    ensures { result ≡ spec.body_answer (has + more) }
{
    if has > MOST_BODY || more > MOST_BODY - has {
        return Err(DraftStop::Limit(LimitKind::Body));
    }
    Ok(())
}

impl Draft {
    /// A draft of which nothing is said yet.
    #[tactic(auto, unfolding(crate::specs::HeadSize::status_size, crate::specs::HeadSize::type_size, crate::specs::HeadSize::location_size, crate::specs::HeadSize::cache_size))]
    pub fn new(alloc: Global) -> Draft
        ensures { result ≡ spec.no_draft }
    {
        Draft {
            body: Bytes::new(alloc),
            flushed: 0,
            sent: false,
            buffer: true,
            status: None,
            content_type: None,
            charset: None,
            cache: None,
            location: None,
            cookies: List::new(alloc),
            added: List::new(alloc),
            head: 0,
        }
    }

    fn fix(&mut self)
        ensures { self.new ≡ spec.fixed self.old }
    {
        self.flushed = self.body.len();
        self.sent = true;
    }

    fn settle(&mut self)
        ensures { self.new ≡ spec.settled self.old }
    {
        if !self.buffer {
            self.fix();
        }
    }

    fn has_moved(&self) -> bool
        ensures { result ≡ is_some self.now.location }
    {
        self.location.is_some()
    }

    fn append(&mut self, text: &Text) -> Result<(), DraftStop>
        ensures answer { Answers result DraftStop.Memory
            (spec.body_answer (length self.old.body + length (encode_utf8_all text.now))) }
        ensures draft { Changes result self.old self.new
            (record self.old { body = self.old.body ++ encode_utf8_all text.now }) }
    {
        let bytes = text.to_utf8(*self.body.allocator())?;
        within_limit(self.body.len(), bytes.len())?;
        Ok(self.body.append(bytes)?)
    }

    /// `Response.Write`: the UTF-8 of `text` comes behind the body. A body of more than 4 MiB is the limit Body. After
    /// a redirect nothing is done.
    pub fn write(&mut self, text: &Text) -> Result<(), DraftStop>
        ensures answer { Answers result DraftStop.Memory (spec.write_answer text.now self.old) }
        ensures draft { Changes result self.old self.new (spec.written text.now self.old) }
    {
        if self.has_moved() {
            return Ok(());
        }
        self.append(text)?;
        self.settle();
        Ok(())
    }

    /// `Response.Clear`: what of the body is not fixed goes. After a redirect nothing is done.
    pub fn clear(&mut self) -> Result<(), DraftStop>
        ensures answer { result ≡ Ok tt }
        ensures draft { self.new ≡ spec.cleared self.old }
    {
        if !self.has_moved() {
            self.body.truncate(self.flushed);
        }
        Ok(())
    }

    /// `Response.Flush`: the body so far is fixed, and the head too. After a redirect nothing is done.
    pub fn flush(&mut self) -> Result<(), DraftStop>
        ensures answer { result ≡ Ok tt }
        ensures draft { self.new ≡ spec.flushed self.old }
    {
        if !self.has_moved() {
            self.fix();
        }
        Ok(())
    }

    /// `Response.Buffer`: whether what is written is kept until it is flushed. Without it each Write flushes.
    pub fn set_buffer(&mut self, on: bool) -> Result<(), DraftStop>
        ensures answer { result ≡ Ok tt }
        ensures draft { self.new ≡ spec.buffered on self.old }
    {
        self.buffer = on;
        Ok(())
    }
}
