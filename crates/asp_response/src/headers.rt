//! The fields of an answer.
ghost use Rattle.std.specs.Prelude.{◌∷◌, [], map, option_map, unwrap_or};
ghost use Rattle.vb_value.specs.Outcome.{Adds, Gives};
ghost use Rattle.asp_response.specs.Finish as spec;

use crate::cookie::Cookie;
use crate::cookie_text::cookie_text;
use crate::draft::Draft;
use crate::text::{ascii, push_ascii};
use asp_job::Header;
use std::alloc::Global;
use vb_value::{Copied, List, Memory, Text};

/// A field of this name and text.
pub(crate) fn header(alloc: Global, name: &[u8], text: &Text) -> Result<Header, Memory>
    ensures { Gives result (spec.header name.now text.now) }
{
    let name = ascii(alloc, name)?;
    let value = text.to_utf8(alloc)?;
    Ok(Header { name, value })
}

fn push_header(headers: &mut List<Header>, name: &[u8], text: &Text) -> Result<(), Memory>
    ensures { Adds result headers.old headers.new (spec.header name.now text.now ∷ []) }
{
    let header = header(*headers.allocator(), name, text)?;
    headers.push(header)
}

/// A cookie as a field.
pub(crate) fn cookie_header(alloc: Global, cookie: &Cookie) -> Result<Header, Memory>
    ensures { Gives result (spec.cookie_header cookie.now) }
{
    let text = cookie_text(alloc, cookie)?;
    header(alloc, b"Set-Cookie", &text)
}

fn push_cookie(headers: &mut List<Header>, cookie: &Cookie) -> Result<(), Memory>
    ensures { Adds result headers.old headers.new (spec.cookie_header cookie.now ∷ []) }
{
    let header = cookie_header(*headers.allocator(), cookie)?;
    headers.push(header)
}

fn push_cookies(headers: &mut List<Header>, cookies: &[Cookie]) -> Result<(), Memory>
    ensures { Adds result headers.old headers.new (map spec.cookie_header cookies.now) }
{
    for cookie in cookies {
        push_cookie(headers, cookie)?;
    }
    Ok(())
}

fn push_session(headers: &mut List<Header>, letters: Option<&Text>) -> Result<(), Memory>
    ensures { Adds result headers.old headers.new (spec.session_headers (option_map (λ l. l.now) letters.entry)) }
{
    let Some(letters) = letters else {
        return Ok(());
    };
    let alloc = *headers.allocator();
    let mut text = ascii(alloc, b"ASPSESSIONIDPROFILE=")?;
    text.append_slice(letters.as_slice())?;
    push_ascii(&mut text, b"; path=/")?;
    push_header(headers, b"Set-Cookie", &text)
}

fn push_location(headers: &mut List<Header>, location: &Option<Text>) -> Result<(), Memory>
    ensures { Adds result headers.old headers.new (spec.location_headers location.now) }
{
    let Some(url) = location else {
        return Ok(());
    };
    push_header(headers, b"Location", url)
}

/// What was said, or what stands where nothing was.
fn said_or(alloc: Global, said: &Option<Text>, else_: &[u8]) -> Result<Text, Memory>
    ensures { Gives result (unwrap_or said.now else_.now) }
{
    match said {
        Some(text) => text.copy(),
        None => ascii(alloc, else_),
    }
}

fn push_charset(text: &mut Text, charset: &[char]) -> Result<(), Memory>
    ensures { Adds result text.old text.new (spec.charset_text charset.now) }
{
    if charset.is_empty() {
        return Ok(());
    }
    push_ascii(text, b"; Charset=")?;
    text.append_slice(charset)
}

/// The text of Content-Type.
pub(crate) fn type_of(
    alloc: Global,
    content_type: &Option<Text>,
    charset: &Option<Text>,
) -> Result<Text, Memory>
    ensures { Gives result (spec.type_of content_type.now charset.now) }
{
    let mut text = said_or(alloc, content_type, b"text/html")?;
    let charset = said_or(alloc, charset, b"utf-8")?;
    push_charset(&mut text, charset.as_slice())?;
    Ok(text)
}

/// The fields of the answer of a draft, in their order.
#[tactic(auto, unfolding(crate::specs::Finish::headers_of))]
pub(crate) fn headers_of(
    alloc: Global,
    draft: &Draft,
    letters: Option<&Text>,
) -> Result<List<Header>, Memory>
    ensures { Gives result (spec.headers_of draft.now (option_map (λ l. l.now) letters.entry)) }
{
    let text = type_of(alloc, &draft.content_type, &draft.charset)?;
    let cache = said_or(alloc, &draft.cache, b"private")?;
    let mut headers = List::new(alloc);
    push_header(&mut headers, b"Content-Type", &text)?;
    push_location(&mut headers, &draft.location)?;
    push_session(&mut headers, letters)?;
    push_cookies(&mut headers, draft.cookies.as_slice())?;
    headers.append(draft.added.copy()?)?;
    push_header(&mut headers, b"Cache-control", &cache)?;
    Ok(headers)
}
