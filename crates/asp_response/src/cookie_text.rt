//! Cookies as the head of an answer has them (RFC 6265, section 4.1.1).
ghost use Rattle.std.specs.Prelude.{flat_map};
ghost use Rattle.asp_text.specs.Url.{url_encoded};
ghost use Rattle.vb_value.specs.Outcome.{Adds, Gives};
ghost use Rattle.asp_response.specs.Finish as spec;

use crate::cookie::{Cookie, CookiePair, CookieValue};
use crate::text::push_ascii;
use asp_text::url_encode;
use std::alloc::Global;
use vb_value::{Memory, Text};

pub(crate) fn push_url(text: &mut Text, more: &Text) -> Result<(), Memory>
    ensures { Adds result text.old text.new (url_encoded more.now) }
{
    let more = url_encode(*text.allocator(), more)?;
    text.append(more)
}

fn push_pair(text: &mut Text, pair: &CookiePair) -> Result<(), Memory>
    ensures { Adds result text.old text.new (spec.pair_text pair.now) }
{
    push_url(text, &pair.key)?;
    push_ascii(text, b"=")?;
    push_url(text, &pair.text)
}

fn push_next_pair(text: &mut Text, pair: &CookiePair) -> Result<(), Memory>
    ensures { Adds result text.old text.new (spec.next_pair pair.now) }
{
    push_ascii(text, b"&")?;
    push_pair(text, pair)
}

fn push_next_pairs(text: &mut Text, pairs: &[CookiePair]) -> Result<(), Memory>
    ensures { Adds result text.old text.new (flat_map spec.next_pair pairs.now) }
{
    for pair in pairs {
        push_next_pair(text, pair)?;
    }
    Ok(())
}

#[tactic(auto, unfolding(crate::specs::Finish::pairs_text))]
fn push_pairs(text: &mut Text, pairs: &[CookiePair]) -> Result<(), Memory>
    ensures { Adds result text.old text.new (spec.pairs_text pairs.now) }
{
    let [first, rest @ ..] = pairs else {
        return Ok(());
    };
    push_pair(text, first)?;
    push_next_pairs(text, rest)
}

pub(crate) fn push_value(text: &mut Text, value: &CookieValue) -> Result<(), Memory>
    ensures { Adds result text.old text.new (spec.value_text value.now) }
{
    match value {
        CookieValue::Whole(whole) => push_url(text, whole),
        CookieValue::Pairs(pairs) => push_pairs(text, pairs.as_slice()),
    }
}

pub(crate) fn push_domain(text: &mut Text, domain: &[char]) -> Result<(), Memory>
    ensures { Adds result text.old text.new (spec.domain_text domain.now) }
{
    if domain.is_empty() {
        return Ok(());
    }
    push_ascii(text, b"; domain=")?;
    text.append_slice(domain)
}

pub(crate) fn push_secure(text: &mut Text, secure: bool) -> Result<(), Memory>
    ensures { Adds result text.old text.new (spec.secure_text secure) }
{
    if secure {
        push_ascii(text, b"; secure")?;
    }
    Ok(())
}

#[tactic(auto, unfolding(crate::specs::Finish::cookie_text))]
pub(crate) fn cookie_text(alloc: Global, cookie: &Cookie) -> Result<Text, Memory>
    ensures { Gives result (spec.cookie_text cookie.now) }
{
    let mut text = Text::new(alloc);
    push_url(&mut text, &cookie.name)?;
    push_ascii(&mut text, b"=")?;
    push_value(&mut text, &cookie.value)?;
    push_ascii(&mut text, b"; path=")?;
    text.append_slice(cookie.path.as_slice())?;
    push_domain(&mut text, cookie.domain.as_slice())?;
    push_secure(&mut text, cookie.secure)?;
    Ok(text)
}
