//! What a page says of its answer: the head.
ghost use Rattle.std.specs.Prelude.{◌≡◌, ◌++◌, ◌&&◌, not, is_some, codes, encode_utf8_all};
ghost use Rattle.asp_text.specs.Html.{html_encoded};
ghost use Rattle.vb_value.specs.Outcome.{Answers, Changes, Gives};
ghost use Rattle.asp_response.specs.Draft as spec;
ghost use Rattle.asp_response.specs.Head as head;
ghost use Rattle.asp_response.specs.HeadSize as size;

use crate::draft::{Draft, within_limit};
use crate::field::{is_reserved, is_token, is_value};
use crate::head_size::{
    Change, cache_size, field_size, location_size, resized, status_size, type_size,
};
use crate::status::{Status, status_in};
use crate::stop::DraftStop;
use crate::text::ascii;
use asp_job::Header;
use asp_text::html_encode;
use std::alloc::Global;
use vb_value::{Bytes, Copied, Memory, Text};

/// Refuses what does not fit with error 5, and then a change of the head after Flush with error 1156.
pub(crate) fn may_change(fits: bool, sent: bool) -> Result<(), DraftStop>
    ensures { result ≡ spec.change_answer fits sent }
{
    if !fits {
        return Err(DraftStop::Error(5));
    }
    if sent {
        return Err(DraftStop::Error(1156));
    }
    Ok(())
}

/// The body of an answer that leads elsewhere.
fn moved_body(alloc: Global, url: &Text) -> Result<Bytes, Memory>
    ensures { Gives result (spec.moved_body url.now) }
{
    let mut body = Bytes::from_slice(alloc, b"<a href=\"")?;
    body.append(html_encode(alloc, url)?.to_utf8(alloc)?)?;
    body.append_slice(b"\">Object moved</a>\n")?;
    Ok(body)
}

fn object_moved(alloc: Global) -> Result<Status, Memory>
    ensures { Gives result (record { code = 302; reason = codes "Object moved" }) }
{
    let reason = ascii(alloc, b"Object moved")?;
    Ok(Status { code: 302, reason })
}

impl Draft {
    /// The size of the head with another status and another place that it leads to.
    fn moved_head(
        &self,
        status: &Option<Status>,
        location: &Option<Text>,
    ) -> Result<usize, DraftStop>
        ensures { Answers result DraftStop.Memory (size.head_within
            (size.head_size (record self.now { status = status.now; location = location.now }))) }
    {
        let alloc = *self.body.allocator();
        let was = location_size(alloc, &self.location)?;
        let without = resized(self.head, Change { was, will: 0 })?;
        let was = status_size(alloc, &self.status)?;
        let will = status_size(alloc, status)?;
        let with_status = resized(without, Change { was, will })?;
        let will = location_size(alloc, location)?;
        resized(with_status, Change { was: 0, will })
    }

    /// `Response.Status`: three digits from 200 to 599, a space and a reason; any other text is error 5. As with each call
    /// on the head, more than 65,536 bytes of lines of the page are the limit Body.
    pub fn set_status(&mut self, text: &Text) -> Result<(), DraftStop>
        ensures answer { Answers result DraftStop.Memory
            (spec.head_answer (is_some (head.status_in text.now)) (spec.with_status text.now self.old) self.old) }
        ensures draft { Changes result self.old self.new (spec.with_status text.now self.old) }
    {
        let alloc = *self.body.allocator();
        let status = status_in(alloc, text.as_slice())?;
        may_change(status.is_some(), self.sent)?;
        let was = status_size(alloc, &self.status)?;
        let will = status_size(alloc, &status)?;
        self.head = resized(self.head, Change { was, will })?;
        self.status = status;
        Ok(())
    }

    /// `Response.ContentType`.
    pub fn set_content_type(&mut self, text: &Text) -> Result<(), DraftStop>
        ensures answer { Answers result DraftStop.Memory
            (spec.head_answer (head.is_value text.now) (spec.with_content_type text.now self.old) self.old) }
        ensures draft { Changes result self.old self.new (spec.with_content_type text.now self.old) }
    {
        may_change(is_value(text.as_slice()), self.sent)?;
        let alloc = *self.body.allocator();
        let content_type = Some(text.copy()?);
        let was = type_size(alloc, &self.content_type, &self.charset)?;
        let will = type_size(alloc, &content_type, &self.charset)?;
        self.head = resized(self.head, Change { was, will })?;
        self.content_type = content_type;
        Ok(())
    }

    /// `Response.Charset`. An empty one is not written.
    pub fn set_charset(&mut self, text: &Text) -> Result<(), DraftStop>
        ensures answer { Answers result DraftStop.Memory
            (spec.head_answer (head.is_value text.now) (spec.with_charset text.now self.old) self.old) }
        ensures draft { Changes result self.old self.new (spec.with_charset text.now self.old) }
    {
        may_change(is_value(text.as_slice()), self.sent)?;
        let alloc = *self.body.allocator();
        let charset = Some(text.copy()?);
        let was = type_size(alloc, &self.content_type, &self.charset)?;
        let will = type_size(alloc, &self.content_type, &charset)?;
        self.head = resized(self.head, Change { was, will })?;
        self.charset = charset;
        Ok(())
    }

    /// `Response.CacheControl`.
    pub fn set_cache(&mut self, text: &Text) -> Result<(), DraftStop>
        ensures answer { Answers result DraftStop.Memory
            (spec.head_answer (head.is_value text.now) (spec.with_cache text.now self.old) self.old) }
        ensures draft { Changes result self.old self.new (spec.with_cache text.now self.old) }
    {
        may_change(is_value(text.as_slice()), self.sent)?;
        let alloc = *self.body.allocator();
        let cache = Some(text.copy()?);
        let was = cache_size(alloc, &self.cache)?;
        let will = cache_size(alloc, &cache)?;
        self.head = resized(self.head, Change { was, will })?;
        self.cache = cache;
        Ok(())
    }

    /// `Response.AddHeader`. Error 5 for a name that is no token, or is that of a field that an answer writes by
    /// itself, and for a value with a character that is not printable.
    pub fn add_header(&mut self, name: &Text, value: &Text) -> Result<(), DraftStop>
        ensures answer { Answers result DraftStop.Memory (spec.header_answer name.now value.now self.old) }
        ensures draft { Changes result self.old self.new (spec.with_header name.now value.now self.old) }
    {
        let fits = is_token(name.as_slice())
            && !is_reserved(name.as_slice())
            && is_value(value.as_slice());
        may_change(fits, self.sent)?;
        let alloc = *self.body.allocator();
        let field = Header {
            name: name.copy()?,
            value: value.to_utf8(alloc)?,
        };
        let will = field_size(alloc, &field)?;
        let head = resized(self.head, Change { was: 0, will })?;
        self.added.push(field)?;
        self.head = head;
        Ok(())
    }

    /// `Response.Redirect`: the answer is `302 Object moved` and leads to `url`, and what was written is dropped. Nothing
    /// that is written later has an effect.
    pub fn redirect(&mut self, url: &Text) -> Result<(), DraftStop>
        ensures answer { Answers result DraftStop.Memory (spec.redirect_answer url.now self.old) }
        ensures draft { Changes result self.old self.new (spec.redirected url.now self.old) }
    {
        may_change(is_value(url.as_slice()), self.sent)?;
        let alloc = *self.body.allocator();
        let status = Some(object_moved(alloc)?);
        let location = Some(url.copy()?);
        let head = self.moved_head(&status, &location)?;
        let body = moved_body(alloc, url)?;
        within_limit(body.len(), 0)?;
        self.status = status;
        self.location = location;
        self.head = head;
        self.body = body;
        self.flushed = 0;
        Ok(())
    }
}
