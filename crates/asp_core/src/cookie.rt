//! The key that the session cookie of a request names.
#![tactic(auto)]

ghost use Rattle.std.specs.Prelude.{◌≡◌, ◌==◌, find, map, drop};
ghost use Rattle.std.specs.List.{slice_split, flat_map};
ghost use Rattle.std.specs.Option.{option_map, option_or};
ghost use Rattle.httparse.specs.Grammar.{trim_ows};
ghost use Rattle.asp_job.specs.Turns as turns;
ghost use Rattle.asp_core.specs.Cookie as spec;

use asp_job::{Asked, Header, Job, Request, Work};
use asp_session::key_of_letters;
use asp_text::trim_blanks;
use vb_value::is_word;

fn is_cookie(piece: &[u8]) -> bool
    ensures { result ≡ spec.is_cookie piece.now }
{
    piece.starts_with(b"ASPSESSIONIDPROFILE=")
}

/// The cookie that was found, or else the piece if it is the session cookie.
fn first_of<'a>(found: Option<&'a [u8]>, piece: &'a [u8]) -> Option<&'a [u8]>
    ensures { option_map (λ piece. piece.now) result
        ≡ option_or (option_map (λ piece. piece.now) found.entry) (spec.cookie_if piece.now) }
{
    match found {
        Some(found) => Some(found),
        None => if is_cookie(piece) { Some(piece) } else { None },
    }
}

/// The session cookie among the pieces of a field.
#[tactic(auto, using(crate::proofs::Finding::find_push))]
fn cookie_in(value: &[u8]) -> Option<&[u8]>
    ensures { option_map (λ piece. piece.now) result
        ≡ find spec.is_cookie (map trim_ows (slice_split (λ b. b == 59) value.now)) }
{
    let mut found = None;
    for piece in value.split(|b| *b == b';') {
        found = first_of(found, trim_blanks(piece));
    }
    found
}

fn cookie_of(header: &Header) -> Option<&[u8]>
    ensures { option_map (λ piece. piece.now) result ≡ find spec.is_cookie (spec.cookie_pieces header.now) }
{
    if is_word(b"Cookie", header.name.as_slice()) {
        cookie_in(header.value.as_slice())
    } else {
        None
    }
}

/// What was found before, else the session cookie among the pieces of a field.
fn first_in<'a>(found: Option<&'a [u8]>, header: &'a Header) -> Option<&'a [u8]>
    ensures { option_map (λ piece. piece.now) result
        ≡ option_or (option_map (λ piece. piece.now) found.entry) (find spec.is_cookie (spec.cookie_pieces header.now)) }
{
    match found {
        Some(found) => Some(found),
        None => cookie_of(header),
    }
}

/// The session cookie of a request.
#[tactic(auto, using(crate::proofs::Finding::find_more))]
fn find_cookie(headers: &[Header]) -> Option<&[u8]>
    ensures { option_map (λ piece. piece.now) result ≡ find spec.is_cookie (flat_map spec.cookie_pieces headers.now) }
{
    let mut found = None;
    for header in headers {
        found = first_in(found, header);
    }
    found
}

/// What stands behind the name of the session cookie.
#[tactic(auto, using(crate::proofs::Finding::none_behind))]
fn letters_in(cookie: &[u8]) -> &[u8]
    ensures { result.now ≡ drop 20 cookie.now }
{
    if cookie.len() < 20 {
        &[]
    } else {
        &cookie[20..]
    }
}

/// The key whose letters a piece has, if there is one.
fn key_in_piece(seed: &[u8; 32], piece: Option<&[u8]>) -> Option<u32>
    ensures { result ≡ spec.key_in_piece seed.now (option_map (λ piece. piece.now) piece.entry) }
{
    match piece {
        Some(piece) => key_of_letters(seed, letters_in(piece)),
        None => None,
    }
}

/// The key that the session cookie of a request names.
fn cookie_key(seed: &[u8; 32], request: &Request) -> Option<u32>
    ensures { result ≡ spec.cookie_key_in seed.now request.now }
{
    key_in_piece(seed, find_cookie(request.headers.as_slice()))
}

fn cookie_key_of(seed: &[u8; 32], work: &Work) -> u32
    ensures { result ≡ turns.cookie_key_of (spec.cookie_key_in seed.now) work.now }
{
    match work {
        Work::Page(request) => cookie_key(seed, request).unwrap_or(0),
        _ => 0,
    }
}

/// The key for which a job asks, 0 for none.
pub fn asked_key(seed: &[u8; 32], job: &Job) -> u32
    ensures { result ≡ turns.asked_key (spec.cookie_key_in seed.now) job.now.work job.now.asked }
{
    match job.asked {
        Asked::Cookie => cookie_key_of(seed, &job.work),
        Asked::Key(key) => key,
        Asked::Fresh => 0,
    }
}
