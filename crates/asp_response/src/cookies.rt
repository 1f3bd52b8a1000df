//! What a page says of its answer: cookies.
ghost use Rattle.std.specs.Prelude.{◌≡◌, ◌<◌, IfOk, Some, length, true};
ghost use Rattle.asp_response.specs.declared.cookie.Cookie.{Cookie as CookieView};
ghost use Rattle.asp_response.specs.declared.cookie.CookiePair.{CookiePair as CookiePairView};
ghost use Rattle.vb_value.specs.Folding.{same_name};
ghost use Rattle.vb_value.specs.Outcome.{Answers, Changes, Gives};
ghost use Rattle.asp_response.specs.Cookies as spec;
ghost use Rattle.asp_response.specs.Draft as draft;
ghost use Rattle.asp_response.specs.Head as head;
ghost use Rattle.asp_response.specs.HeadSize as size;

use crate::cookie::{Cookie, CookiePair, CookiePart, CookieValue};
use crate::cookie_size::{
    cookie_part_change, cookie_secure_change, cookie_size, cookie_text_change,
};
use crate::draft::Draft;
use crate::field::is_value;
use crate::head::may_change;
use crate::head_size::{Change, resized};
use crate::stop::DraftStop;
use crate::text::ascii;
use std::alloc::Global;
use std::mem::replace;
use vb_value::{Copied, List, Memory, Text};

fn new_cookie(alloc: Global, name: &Text) -> Result<Cookie, Memory>
    ensures { Gives result (spec.new_cookie name.now) }
{
    Ok(Cookie {
        name: name.copy()?,
        value: CookieValue::Whole(Text::new(alloc)),
        path: ascii(alloc, b"/")?,
        domain: Text::new(alloc),
        secure: false,
    })
}

/// Whether two names are the same in any ASCII case.
fn are_alike(one: &[char], other: &[char]) -> bool
    ensures { result ≡ same_name one.now other.now }
{
    if one.len() != other.len() {
        return false;
    }
    for i in 0..one.len() {
        if one[i].to_ascii_lowercase() != other[i].to_ascii_lowercase() {
            return false;
        }
    }
    true
}

fn is_named(cookie: &Cookie, name: &[char]) -> bool
    ensures { result ≡ same_name cookie.now.name name.now }
{
    are_alike(cookie.name.as_slice(), name)
}

fn is_keyed(pair: &CookiePair, key: &[char]) -> bool
    ensures { result ≡ same_name pair.now.key key.now }
{
    are_alike(pair.key.as_slice(), key)
}

fn place_of(cookies: &[Cookie], name: &[char]) -> Option<usize>
    ensures { result ≡ spec.place_of name.now cookies.now }
{
    cookies.iter().position(|cookie| is_named(cookie, name))
}

pub(crate) fn place_of_key(pairs: &[CookiePair], key: &[char]) -> Option<usize>
    ensures { result ≡ spec.place_of_key key.now pairs.now }
{
    pairs.iter().position(|pair| is_keyed(pair, key))
}

fn set_part(cookie: &mut Cookie, part: CookiePart, text: Text)
    ensures { cookie.new ≡ spec.with_part part text cookie.old }
{
    match part {
        CookiePart::Path => cookie.path = text,
        CookiePart::Domain => cookie.domain = text,
    }
}

fn set_part_at(cookies: &mut List<Cookie>, at: usize, part: CookiePart, text: Text)
    requires { at < length cookies.old }
    ensures { (new : CookieView) → cookies.new ≡ spec.put_at (Some at) (spec.with_part part text) new cookies.old }
{
    let empty = List::new(*cookies.allocator());
    let mut items = replace(cookies, empty).into_vec();
    set_part(&mut items[at], part, text);
    *cookies = List::from_vec(items);
}

/// Sets a part of the cookie of this name, which is made where there is none.
fn set_cookie_part(
    cookies: &mut List<Cookie>,
    name: &Text,
    part: CookiePart,
    text: Text,
) -> Result<(), Memory>
    ensures { Changes result cookies.old cookies.new (spec.with_cookie name.now (spec.with_part part text) cookies.old) }
{
    match place_of(cookies.as_slice(), name.as_slice()) {
        Some(at) => {
            set_part_at(cookies, at, part, text);
            Ok(())
        }
        None => {
            let mut cookie = new_cookie(*cookies.allocator(), name)?;
            set_part(&mut cookie, part, text);
            cookies.push(cookie)
        }
    }
}

fn set_secure_at(cookies: &mut List<Cookie>, at: usize, on: bool)
    requires { at < length cookies.old }
    ensures { (new : CookieView) → cookies.new ≡ spec.put_at (Some at) (spec.with_secure on) new cookies.old }
{
    let empty = List::new(*cookies.allocator());
    let mut items = replace(cookies, empty).into_vec();
    items[at].secure = on;
    *cookies = List::from_vec(items);
}

/// Sets whether the cookie of this name, which is made where there is none, is sent over secure connections alone.
fn set_cookie_secure(cookies: &mut List<Cookie>, name: &Text, on: bool) -> Result<(), Memory>
    ensures { Changes result cookies.old cookies.new (spec.with_cookie name.now (spec.with_secure on) cookies.old) }
{
    match place_of(cookies.as_slice(), name.as_slice()) {
        Some(at) => {
            set_secure_at(cookies, at, on);
            Ok(())
        }
        None => {
            let mut cookie = new_cookie(*cookies.allocator(), name)?;
            cookie.secure = on;
            cookies.push(cookie)
        }
    }
}

fn set_pair_at(pairs: &mut List<CookiePair>, at: usize, text: Text)
    requires { at < length pairs.old }
    ensures { (new : CookiePairView) → pairs.new ≡ spec.put_at (Some at) (λ pair. record pair { text = text }) new pairs.old }
{
    let empty = List::new(*pairs.allocator());
    let mut items = replace(pairs, empty).into_vec();
    items[at].text = text;
    *pairs = List::from_vec(items);
}

/// Sets the text beside a key, which is put last where it is new.
fn set_pair(pairs: &mut List<CookiePair>, key: &Text, text: Text) -> Result<(), Memory>
    ensures { Changes result pairs.old pairs.new (spec.with_pair key.now text pairs.old) }
{
    match place_of_key(pairs.as_slice(), key.as_slice()) {
        Some(at) => {
            set_pair_at(pairs, at, text);
            Ok(())
        }
        None => pairs.push(CookiePair {
            key: key.copy()?,
            text,
        }),
    }
}

/// Sets the text beside a key of a value.
fn set_keyed(value: &mut CookieValue, key: &Text, text: Text) -> Result<(), Memory>
    ensures { Changes result value.old value.new (CookieValue.Pairs (spec.with_pair key.now text (spec.pairs_of value.old))) }
{
    match value {
        CookieValue::Pairs(pairs) => set_pair(pairs, key, text),
        CookieValue::Whole(_) => {
            let mut pairs = List::new(*key.allocator());
            set_pair(&mut pairs, key, text)?;
            *value = CookieValue::Pairs(pairs);
            Ok(())
        }
    }
}

/// Sets the text of a value: the whole, or the one beside a key.
fn set_value(value: &mut CookieValue, key: &Text, text: Text) -> Result<(), Memory>
    ensures { Changes result value.old value.new (spec.set_value key.now text value.old) }
{
    if key.is_empty() {
        *value = CookieValue::Whole(text);
        return Ok(());
    }
    set_keyed(value, key, text)
}

fn set_text(cookie: &mut Cookie, key: &Text, text: Text) -> Result<(), Memory>
    ensures { Changes result cookie.old cookie.new (spec.with_value key.now text cookie.old) }
{
    set_value(&mut cookie.value, key, text)
}

fn set_text_at(cookies: &mut List<Cookie>, at: usize, key: &Text, text: Text) -> Result<(), Memory>
    requires { at < length cookies.old }
    ensures { (new : CookieView) →
        Changes result cookies.old cookies.new (spec.put_at (Some at) (spec.with_value key.now text) new cookies.old) }
{
    let empty = List::new(*cookies.allocator());
    let mut items = replace(cookies, empty).into_vec();
    let done = set_text(&mut items[at], key, text);
    *cookies = List::from_vec(items);
    done
}

/// Sets a text of the cookie of this name, which is made where there is none.
fn set_cookie_text(
    cookies: &mut List<Cookie>,
    name: &Text,
    key: &Text,
    text: Text,
) -> Result<(), Memory>
    ensures { Changes result cookies.old cookies.new (spec.with_cookie name.now (spec.with_value key.now text) cookies.old) }
{
    match place_of(cookies.as_slice(), name.as_slice()) {
        Some(at) => set_text_at(cookies, at, key, text),
        None => {
            let mut cookie = new_cookie(*cookies.allocator(), name)?;
            set_text(&mut cookie, key, text)?;
            cookies.push(cookie)
        }
    }
}

/// How the size of the cookies changes where a text of the cookie of this name is set.
fn text_change(
    cookies: &List<Cookie>,
    name: &Text,
    key: &Text,
    text: &Text,
) -> Result<Change, Memory>
    ensures { IfOk result (λ change. size.Resizes (size.cookies_size cookies.now)
        (size.cookies_size (spec.with_cookie name.now (spec.with_value key.now text.now) cookies.now))
        change.was change.will) }
{
    let alloc = *cookies.allocator();
    match place_of(cookies.as_slice(), name.as_slice()) {
        Some(at) => cookie_text_change(alloc, &cookies.as_slice()[at], key, text),
        None => {
            let mut cookie = new_cookie(alloc, name)?;
            set_text(&mut cookie, key, text.copy()?)?;
            let will = cookie_size(alloc, &cookie)?;
            Ok(Change { was: 0, will })
        }
    }
}

/// How the size of the cookies changes where a part of the cookie of this name is set.
fn part_change(
    cookies: &List<Cookie>,
    name: &Text,
    part: CookiePart,
    text: &Text,
) -> Result<Change, Memory>
    ensures { IfOk result (λ change. size.Resizes (size.cookies_size cookies.now)
        (size.cookies_size (spec.with_cookie name.now (spec.with_part part text.now) cookies.now))
        change.was change.will) }
{
    let alloc = *cookies.allocator();
    match place_of(cookies.as_slice(), name.as_slice()) {
        Some(at) => cookie_part_change(alloc, &cookies.as_slice()[at], part, text),
        None => {
            let mut cookie = new_cookie(alloc, name)?;
            set_part(&mut cookie, part, text.copy()?);
            let will = cookie_size(alloc, &cookie)?;
            Ok(Change { was: 0, will })
        }
    }
}

/// How the size of the cookies changes where it is set whether the cookie of this name is sent over secure connections
/// alone.
fn secure_change(cookies: &List<Cookie>, name: &Text, on: bool) -> Result<Change, Memory>
    ensures { IfOk result (λ change. size.Resizes (size.cookies_size cookies.now)
        (size.cookies_size (spec.with_cookie name.now (spec.with_secure on) cookies.now)) change.was change.will) }
{
    let alloc = *cookies.allocator();
    match place_of(cookies.as_slice(), name.as_slice()) {
        Some(at) => cookie_secure_change(alloc, &cookies.as_slice()[at], on),
        None => {
            let mut cookie = new_cookie(alloc, name)?;
            cookie.secure = on;
            let will = cookie_size(alloc, &cookie)?;
            Ok(Change { was: 0, will })
        }
    }
}

impl Draft {
    /// The text of the cookie `name`, or the one beside `key` where that is not empty. Setting the one drops the other.
    pub fn cookie(&mut self, name: &Text, key: &Text, value: &Text) -> Result<(), DraftStop>
        ensures answer { Answers result DraftStop.Memory
            (draft.head_answer true (draft.with_cookie_text name.now key.now value.now self.old) self.old) }
        ensures draft { Changes result self.old self.new (draft.with_cookie_text name.now key.now value.now self.old) }
    {
        may_change(true, self.sent)?;
        let change = text_change(&self.cookies, name, key, value)?;
        let head = resized(self.head, change)?;
        let text = value.copy()?;
        set_cookie_text(&mut self.cookies, name, key, text)?;
        self.head = head;
        Ok(())
    }

    /// A part of the cookie `name`. Error 5 for a character that is not printable.
    pub fn cookie_part(
        &mut self,
        name: &Text,
        part: CookiePart,
        value: &Text,
    ) -> Result<(), DraftStop>
        ensures answer { Answers result DraftStop.Memory (draft.head_answer (head.is_value value.now)
            (draft.with_cookie_part name.now part value.now self.old) self.old) }
        ensures draft { Changes result self.old self.new (draft.with_cookie_part name.now part value.now self.old) }
    {
        may_change(is_value(value.as_slice()), self.sent)?;
        let change = part_change(&self.cookies, name, part, value)?;
        let head = resized(self.head, change)?;
        let text = value.copy()?;
        set_cookie_part(&mut self.cookies, name, part, text)?;
        self.head = head;
        Ok(())
    }

    /// Whether the cookie `name` is sent back over secure connections alone.
    pub fn cookie_secure(&mut self, name: &Text, on: bool) -> Result<(), DraftStop>
        ensures answer { Answers result DraftStop.Memory
            (draft.head_answer true (draft.with_cookie_secure name.now on self.old) self.old) }
        ensures draft { Changes result self.old self.new (draft.with_cookie_secure name.now on self.old) }
    {
        may_change(true, self.sent)?;
        let change = secure_change(&self.cookies, name, on)?;
        let head = resized(self.head, change)?;
        set_cookie_secure(&mut self.cookies, name, on)?;
        self.head = head;
        Ok(())
    }
}
