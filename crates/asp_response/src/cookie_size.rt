//! How many bytes a cookie takes in the head, and how they change.
ghost use Rattle.std.specs.Prelude.{◌≡◌, ◌<◌, IfOk, length, if◌then◌else◌};
ghost use Rattle.asp_text.specs.Url.{url_encoded};
ghost use Rattle.asp_response.specs.declared.cookie.CookiePair.{CookiePair as CookiePairView};
ghost use Rattle.vb_value.specs.Outcome.{Gives};
ghost use Rattle.asp_response.specs.Cookies as cookies;
ghost use Rattle.asp_response.specs.Finish as finish;
ghost use Rattle.asp_response.specs.HeadSize as spec;

use crate::cookie::{Cookie, CookiePair, CookiePart, CookieValue};
use crate::cookie_text::{push_domain, push_secure, push_url, push_value};
use crate::cookies::place_of_key;
use crate::head_size::{Change, field_size};
use crate::headers::cookie_header;
use crate::text::push_ascii;
use std::alloc::Global;
use vb_value::{Memory, Text};

fn bytes_in(alloc: Global, text: &Text) -> Result<usize, Memory>
    ensures { Gives result (spec.bytes_in text.now) }
{
    Ok(text.to_utf8(alloc)?.len())
}

pub(crate) fn cookie_size(alloc: Global, cookie: &Cookie) -> Result<usize, Memory>
    ensures { Gives result (spec.cookie_size cookie.now) }
{
    field_size(alloc, &cookie_header(alloc, cookie)?)
}

fn url_size(alloc: Global, text: &Text) -> Result<usize, Memory>
    ensures { Gives result (spec.bytes_in (url_encoded text.now)) }
{
    let mut written = Text::new(alloc);
    push_url(&mut written, text)?;
    bytes_in(alloc, &written)
}

fn value_size(alloc: Global, value: &CookieValue) -> Result<usize, Memory>
    ensures { Gives result (spec.bytes_in (finish.value_text value.now)) }
{
    let mut written = Text::new(alloc);
    push_value(&mut written, value)?;
    bytes_in(alloc, &written)
}

fn domain_size(alloc: Global, domain: &Text) -> Result<usize, Memory>
    ensures { Gives result (spec.bytes_in (finish.domain_text domain.now)) }
{
    let mut written = Text::new(alloc);
    push_domain(&mut written, domain.as_slice())?;
    bytes_in(alloc, &written)
}

fn secure_size(alloc: Global, secure: bool) -> Result<usize, Memory>
    ensures { Gives result (spec.bytes_in (finish.secure_text secure)) }
{
    let mut written = Text::new(alloc);
    push_secure(&mut written, secure)?;
    bytes_in(alloc, &written)
}

/// The bytes of a pair, as the first or behind others.
fn pair_size(alloc: Global, is_first: bool, key: &Text, text: &Text) -> Result<usize, Memory>
    ensures { let pair : CookiePairView = record { key = key.now; text = text.now } in
        Gives result (spec.bytes_in (if is_first then finish.pair_text pair else finish.next_pair pair)) }
{
    let mut written = Text::new(alloc);
    if !is_first {
        push_ascii(&mut written, b"&")?;
    }
    push_url(&mut written, key)?;
    push_ascii(&mut written, b"=")?;
    push_url(&mut written, text)?;
    bytes_in(alloc, &written)
}

fn text_change(alloc: Global, was: &Text, will: &Text) -> Result<Change, Memory>
    ensures was { IfOk result (λ change. change.was ≡ spec.bytes_in (url_encoded was.now)) }
    ensures will { IfOk result (λ change. change.will ≡ spec.bytes_in (url_encoded will.now)) }
{
    Ok(Change {
        was: url_size(alloc, was)?,
        will: url_size(alloc, will)?,
    })
}

/// How the size of pairs changes where the text beside a key is set.
fn pairs_change(
    alloc: Global,
    pairs: &[CookiePair],
    key: &Text,
    text: &Text,
) -> Result<Change, Memory>
    ensures { IfOk result (λ change. spec.Resizes (spec.bytes_in (finish.pairs_text pairs.now))
        (spec.bytes_in (finish.pairs_text (cookies.with_pair key.now text.now pairs.now))) change.was change.will) }
{
    match place_of_key(pairs, key.as_slice()) {
        Some(at) => text_change(alloc, &pairs[at].text, text),
        None => Ok(Change {
            was: 0,
            will: pair_size(alloc, pairs.is_empty(), key, text)?,
        }),
    }
}

/// How the size of a value changes where a text in it is set.
fn value_change(
    alloc: Global,
    value: &CookieValue,
    key: &Text,
    text: &Text,
) -> Result<Change, Memory>
    ensures { IfOk result (λ change. spec.Resizes (spec.bytes_in (finish.value_text value.now))
        (spec.bytes_in (finish.value_text (cookies.set_value key.now text.now value.now))) change.was change.will) }
{
    if key.is_empty() {
        return Ok(Change {
            was: value_size(alloc, value)?,
            will: url_size(alloc, text)?,
        });
    }
    match value {
        CookieValue::Pairs(pairs) => pairs_change(alloc, pairs.as_slice(), key, text),
        CookieValue::Whole(whole) => Ok(Change {
            was: url_size(alloc, whole)?,
            will: pair_size(alloc, true, key, text)?,
        }),
    }
}

/// How the size of a cookie changes where a text in it is set.
pub(crate) fn cookie_text_change(
    alloc: Global,
    cookie: &Cookie,
    key: &Text,
    text: &Text,
) -> Result<Change, Memory>
    ensures { IfOk result (λ change. spec.Resizes (spec.cookie_size cookie.now)
        (spec.cookie_size (cookies.with_value key.now text.now cookie.now)) change.was change.will) }
{
    value_change(alloc, &cookie.value, key, text)
}

/// How the size of a cookie changes where a part of it is set.
pub(crate) fn cookie_part_change(
    alloc: Global,
    cookie: &Cookie,
    part: CookiePart,
    text: &Text,
) -> Result<Change, Memory>
    ensures { IfOk result (λ change. spec.Resizes (spec.cookie_size cookie.now)
        (spec.cookie_size (cookies.with_part part text.now cookie.now)) change.was change.will) }
{
    match part {
        CookiePart::Path => Ok(Change {
            was: bytes_in(alloc, &cookie.path)?,
            will: bytes_in(alloc, text)?,
        }),
        CookiePart::Domain => Ok(Change {
            was: domain_size(alloc, &cookie.domain)?,
            will: domain_size(alloc, text)?,
        }),
    }
}

/// How the size of a cookie changes where it is set whether it is sent over secure connections alone.
pub(crate) fn cookie_secure_change(
    alloc: Global,
    cookie: &Cookie,
    on: bool,
) -> Result<Change, Memory>
    ensures { IfOk result (λ change. spec.Resizes (spec.cookie_size cookie.now)
        (spec.cookie_size (cookies.with_secure on cookie.now)) change.was change.will) }
{
    Ok(Change {
        was: secure_size(alloc, cookie.secure)?,
        will: secure_size(alloc, on)?,
    })
}
