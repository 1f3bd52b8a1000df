//! The cookies of a request.
ghost use Rattle.std.specs.Prelude.{◌≡◌, ◌++◌, ◌∷◌, ◌==◌, [], ℕ, position, List as Items, None, Some, OnOk, IfOk};
ghost use Rattle.std.specs.Prelude.{cond, false, flat_map, is_some};
ghost use Rattle.std.specs.BTreeMap.{get, is_at};
ghost use Rattle.std.specs.Option.{option_copied};
ghost use Rattle.std.specs.List.{position_or_len, slice_split};
ghost use Rattle.std.specs.Cmp.Lexicographic.{slice_cmp};
ghost use Rattle.std.specs.Ordering.{nat_cmp};
ghost use Rattle.vb_value.specs.Folding.{folded};
ghost use Rattle.asp_request.specs.Cookies.{CollectsCookies};
ghost use Rattle.asp_request.specs.Pairs.{Pair};
ghost use Rattle.asp_request.specs.Request as spec;
ghost use Rattle.form_urlencoded.specs.Form as form;

use crate::collection::Collection;
use crate::place::place_of;
use crate::text::decoded;
use asp_job::Header;
use asp_text::trim_blanks;
use std::alloc::Global;
use std::collections::BTreeMap;
use vb_value::{Bytes, Memory, Text, fold, is_word};

/// The values of cookies as they are written, beside their folded names.
type Raw = BTreeMap<Text, Bytes>;

/// The first cookie of each name.
#[derive(Debug, Drop)]
pub struct Cookies {
    kept: Collection,
    raw: Raw,
}

fn has(raw: &Raw, name: &Text) -> bool
    ensures { result ≡ is_some (get (slice_cmp nat_cmp) raw.now name.now) }
{
    raw.get(name).is_some()
}

fn put_raw(raw: &mut Raw, name: Text, value: Bytes) -> Result<(), Memory>
    ensures { OnOk result ((other : Items ℕ) → get (slice_cmp nat_cmp) raw.new other
        ≡ cond (is_at (slice_cmp nat_cmp name) other) (Some value) (get (slice_cmp nat_cmp) raw.old other)) }
{
    let _ = raw.insert(name, value)?;
    Ok(())
}

/// Whether a piece is a cookie that pages see: there are bytes in it, and they are not the cookie of the session.
fn is_cookie(piece: &[u8]) -> bool
    ensures { result ≡ spec.is_cookie piece.now }
{
    !piece.is_empty() && !piece.starts_with(b"ASPSESSIONIDPROFILE=")
}

/// The bytes before the first `=`, and those behind it.
fn split_pair(piece: &[u8]) -> (&[u8], &[u8])
    ensures before { result.0.now ≡ (form.split_pair piece.now).0 }
    ensures after { result.1.now ≡ (form.split_pair piece.now).1 }
{
    let at = place_of(piece, b'=');
    if at < piece.len() {
        (&piece[..at], &piece[at + 1..])
    } else {
        (piece, &[])
    }
}

impl Cookies {
    /// No cookies.
    pub fn new(alloc: Global) -> Cookies
        ensures { CollectsCookies result [] }
    {
        Cookies {
            kept: Collection::new(alloc),
            raw: BTreeMap::new(alloc),
        }
    }

    /// Adds a cookie whose name none has; `key` is that name, folded.
    fn add_new(&mut self, alloc: Global, name: Text, key: Text, value: &[u8]) -> Result<(), Memory>
        requires key { key ≡ folded name }
        requires absent { is_some (get (slice_cmp nat_cmp) self.old.raw key) ≡ false }
        ensures { OnOk result ((pairs : Items Pair) →
            CollectsCookies self.old pairs → CollectsCookies self.new (pairs ++ (name, value.now) ∷ [])) }
    {
        self.kept.add(name, decoded(alloc, value)?)?;
        put_raw(&mut self.raw, key, Bytes::from_slice(alloc, value)?)?;
        Ok(())
    }

    /// Adds a cookie, where none has its name.
    fn add(&mut self, alloc: Global, name: Text, value: &[u8]) -> Result<(), Memory>
        ensures { OnOk result ((pairs : Items Pair) →
            CollectsCookies self.old pairs → CollectsCookies self.new (pairs ++ (name, value.now) ∷ [])) }
    {
        let key = fold(alloc, &name)?;
        if has(&self.raw, &key) {
            return Ok(());
        }
        self.add_new(alloc, name, key, value)?;
        Ok(())
    }

    /// Adds the cookie of a piece, if it is one that pages see.
    fn add_piece(&mut self, alloc: Global, piece: &[u8]) -> Result<(), Memory>
        ensures { OnOk result ((pairs : Items Pair) →
            CollectsCookies self.old pairs → CollectsCookies self.new (pairs ++ spec.piece_pairs piece.now)) }
    {
        if is_cookie(piece) {
            let (name, value) = split_pair(piece);
            self.add(alloc, decoded(alloc, name)?, value)?;
        }
        Ok(())
    }

    /// Adds the cookies of a value.
    fn add_value(&mut self, alloc: Global, value: &[u8]) -> Result<(), Memory>
        ensures { OnOk result ((pairs : Items Pair) →
            CollectsCookies self.old pairs → CollectsCookies self.new (pairs ++ spec.value_cookies value.now)) }
    {
        for piece in value.split(|b| *b == b';') {
            self.add_piece(alloc, trim_blanks(piece))?;
        }
        Ok(())
    }

    /// Adds the cookies of a header, if it has any.
    fn add_header(&mut self, alloc: Global, header: &Header) -> Result<(), Memory>
        ensures { OnOk result ((pairs : Items Pair) →
            CollectsCookies self.old pairs → CollectsCookies self.new (pairs ++ spec.header_cookies header.now)) }
    {
        if is_word(b"Cookie", header.name.as_slice()) {
            self.add_value(alloc, header.value.as_slice())?;
        }
        Ok(())
    }

    /// The first cookie of each name among the headers.
    pub fn of(alloc: Global, headers: &[Header]) -> Result<Cookies, Memory>
        ensures { IfOk result (λ kept. CollectsCookies kept (flat_map spec.header_cookies headers.now)) }
    {
        let mut kept = Cookies::new(alloc);
        for header in headers {
            kept.add_header(alloc, header)?;
        }
        Ok(kept)
    }

    /// The names and the decoded values.
    pub fn collection(&self) -> &Collection
        ensures { result.now ≡ self.now.kept }
    {
        &self.kept
    }

    /// The value of a folded name as it is written.
    pub fn raw(&self, name: &Text) -> Option<&Bytes>
        ensures { option_copied result ≡ get (slice_cmp nat_cmp) self.now.raw name.now }
    {
        self.raw.get(name)
    }
}
