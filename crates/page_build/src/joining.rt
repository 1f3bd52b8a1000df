//! The words of a page: those of its parts, one after the other.
ghost use Rattle.std.specs.Prelude.{◌≡◌, ◌+◌, ◌++◌, IfOk, OnOk};
ghost use Rattle.vb_value.specs.Outcome.{Gives};
ghost use Rattle.vb_syntax.specs.grammar.Faults.{last_line};
ghost use Rattle.page_read.specs.Reading.{OnSiteFault};
ghost use Rattle.page_build.specs.Words as spec;

use crate::part::{first_line, part_words, stray_of};
use asp_site::Lines;
use page_read::{Located, SiteStop};
use std::alloc::Global;
use vb_value::{List, Memory, Text, Token};

/// The words of a page, and where they stand.
#[derive(Drop)]
pub struct PageWords {
    /// The words, whose lines are places in `lines`.
    pub tokens: List<Token>,
    /// The place of the first word of a script element that is none of a declaration.
    pub stray: Option<usize>,
    /// The line of a file in which each line of the words stands.
    pub lines: Lines,
}

/// The line in which the last word stands, or 0.
fn last_line(tokens: &[Token]) -> u32
    ensures { result ≡ last_line 0 tokens.now }
{
    let mut line = 0;
    let mut rest = tokens;
    while let [token, later @ ..] = rest {
        line = token.line;
        rest = later;
    }
    line
}

/// The line of a word, counted from another place on.
fn shifted_line(base: u32, line: u32) -> Result<u32, Memory>
    ensures { Gives result (base + line) }
{
    match base.checked_add(line) {
        Some(line) => Ok(line),
        None => Err(Memory),
    }
}

fn shift(base: u32, words: &mut [Token]) -> Result<(), Memory>
    ensures { OnOk result (words.new ≡ spec.shifted base words.old) }
{
    for word in words.iter_mut() {
        word.line = shifted_line(base, word.line)?;
    }
    Ok(())
}

/// The words, whose lines count from another place on. They stay where they lie.
fn shifted(base: u32, words: List<Token>) -> Result<List<Token>, Memory>
    ensures { Gives result (spec.shifted base words) }
{
    let mut moved = words.into_vec();
    shift(base, &mut moved)?;
    Ok(List::from_vec(moved))
}

/// The words at the front and those behind them. The longer of the two lists stays where it lies.
#[tactic(auto, using(crate::proofs::PartWords::turned))]
fn joined(front: List<Token>, back: List<Token>) -> Result<List<Token>, Memory>
    ensures { Gives result (front ++ back) }
{
    let behind = back.len();
    if behind <= front.len() {
        let mut words = front;
        words.append(back)?;
        return Ok(words);
    }
    let mut words = back;
    words.append(front)?;
    let mut words = words.into_vec();
    words.rotate_left(behind);
    Ok(List::from_vec(words))
}

/// Where the first stray word stands: before so many words, or at a place behind them.
fn earliest(
    stray: Option<usize>,
    count: usize,
    found: Option<usize>,
) -> Result<Option<usize>, Memory>
    ensures { Gives result (spec.earliest stray count found) }
{
    match (stray, found) {
        (Some(at), _) => Ok(Some(at)),
        (None, Some(at)) => match count.checked_add(at) {
            Some(at) => Ok(Some(at)),
            None => Err(Memory),
        },
        (None, None) => Ok(None),
    }
}

/// The words of the parts before, and then those of this part.
fn with_part(before: PageWords, part: &Located, words: List<Token>) -> Result<PageWords, Memory>
    ensures { Gives result (spec.with_part before part.now words) }
{
    let PageWords {
        tokens,
        stray,
        mut lines,
    } = before;
    let found = stray_of(&part.fragment, words.as_slice());
    let stray = earliest(stray, tokens.len(), found)?;
    let base = line_number(lines.len().saturating_sub(1))?;
    let count = last_line(words.as_slice());
    lines.add(&part.path, first_line(&part.fragment), count)?;
    Ok(PageWords {
        tokens: joined(tokens, shifted(base, words)?)?,
        stray,
        lines,
    })
}

fn line_number(count: usize) -> Result<u32, Memory>
    ensures { Gives result count }
{
    match u32::try_from(count) {
        Ok(number) => Ok(number),
        Err(_) => Err(Memory),
    }
}

/// Before the first part.
fn no_words(alloc: Global, path: &Text) -> Result<PageWords, Memory>
    ensures { Gives result (spec.no_words path.now) }
{
    let mut lines = Lines::new(alloc);
    lines.add(path, 0, 1)?;
    Ok(PageWords {
        tokens: List::new(alloc),
        stray: None,
        lines,
    })
}

/// The words of the page at the path, or of `/global.asa`, which has these parts.
pub fn page_words(
    alloc: Global,
    path: &Text,
    parts: &[Located],
    global: bool,
) -> Result<PageWords, SiteStop>
    ensures ok { IfOk result (spec.ArePageWords path.now parts.now global) }
    ensures fault { OnSiteFault result (spec.HasWordFault global parts.now) }
{
    let mut so_far = no_words(alloc, path)?;
    for part in parts {
        let words = part_words(alloc, part, global)?;
        so_far = with_part(so_far, part, words)?;
    }
    Ok(so_far)
}
