//! The pieces of a page's text, one after another.
ghost use Rattle.std.specs.Prelude.{◌≡◌, ◌+◌, ◌-◌, ◌<◌, ◌≤◌, ◌^◌, [], IfOk, drop, length};
ghost use Rattle.vb_value.specs.Lines.{line_at};
ghost use Rattle.vb_value.specs.Outcome.{OnFault};
ghost use Rattle.page_read.specs.Fragments as spec;
ghost use Rattle.page_read.specs.Reading.{ReadsFirst};

use crate::fault::PageStop;
use crate::fragment::Fragment;
use crate::opened::{begins_form, opened};
use std::alloc::Global;
use vb_value::{List, Memory, ends_line};

/// The pieces of a page's text.
pub fn pieces(alloc: Global, page: &[char]) -> Result<List<Fragment>, PageStop>
    requires { length page.now < 2 ^ 31 }
    ensures ok { IfOk result (λ pieces. spec.AreCut page.now page.now pieces []) }
    ensures fault { OnFault result (spec.StopsAt page.now) }
{
    let mut pieces = List::new(alloc);
    let mut rest = page;
    let mut line = 1;
    while !rest.is_empty() {
        let (piece, behind) = match first_piece(alloc, page, rest, line) {
            Ok(found) => found,
            Err(stop) => return Err(stop),
        };
        pieces.push(piece)?;
        line = line_behind(
            page,
            page.len() - rest.len(),
            page.len() - behind.len(),
            line,
        );
        rest = behind;
    }
    Ok(pieces)
}

/// The piece at the front of a text that is the end of a page, and what follows it.
#[tactic(auto, using(crate::proofs::Pieces::text_first))]
fn first_piece<'a>(
    alloc: Global,
    page: &[char],
    text: &'a [char],
    line: u32,
) -> Result<(Fragment, &'a [char]), PageStop>
    requires filled { 0 < length text.now }
    requires within { length text.now ≤ length page.now }
    requires line { line ≡ spec.line_of page.now text.now }
    requires room { line + length text.now < 2 ^ 32 }
    ensures value { ReadsFirst result page.now text.now }
    ensures shorter { IfOk result (λ found. length found.1.now < length text.now) }
{
    let count = plain_len(alloc, text)?;
    if count == 0 {
        return opened(alloc, &page[..page.len() - text.len()], line, text);
    }
    let (plain, rest) = text.split_at(count);
    match List::from_slice(alloc, plain) {
        Ok(text) => Ok((Fragment::Text { text, line }, rest)),
        Err(Memory) => Err(PageStop::Memory),
    }
}

/// How many characters at the front are plain text.
fn plain_len(alloc: Global, text: &[char]) -> Result<usize, Memory>
    ensures within { IfOk result (λ count. count ≤ length text.now) }
    ensures plain { IfOk result (λ count. spec.BeginsNoFormWithin count text.now) }
    ensures ends { IfOk result (λ count. spec.EndsPlain (drop count text.now)) }
{
    for at in 0..text.len() {
        let (_, rest) = text.split_at(at);
        if begins_form(alloc, rest)? {
            return Ok(at);
        }
    }
    Ok(text.len())
}

/// The line of the place `to`, where `line` is that of the place `from` before it.
pub fn line_behind(text: &[char], from: usize, to: usize, line: u32) -> u32
    requires within { from ≤ to × (to ≤ length text.now) }
    requires line { line ≡ line_at text.now from }
    requires room { line + to < 2 ^ 32 + from }
    ensures line { result ≡ line_at text.now to }
    ensures below { result + from ≤ line + to }
{
    let mut behind = line;
    for at in from..to {
        if ends_line(text, at) {
            behind += 1;
        }
    }
    behind
}
