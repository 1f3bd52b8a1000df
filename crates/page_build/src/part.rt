//! The words of one part of a page.
ghost use Rattle.std.specs.Prelude.{◌≡◌, ◌+◌, ◌-◌, IfOk};
ghost use Rattle.vb_value.specs.Outcome.{Gives};
ghost use Rattle.vb_lex.specs.Tokens.{Tokenizes};
ghost use Rattle.page_read.specs.Expansion.{fault_at};
ghost use Rattle.page_read.specs.Reading.{OnSiteFault, StopsAtFault};
ghost use Rattle.page_build.specs.Words as spec;

use crate::declaring::stray_in;
use page_read::{Fragment, Located, SiteStop};
use std::alloc::Global;
use vb_lex::{LexFault, lex};
use vb_value::{Copied, FaultKind, List, Memory, SiteFault, Stop, Text, Token, TokenKind};

/// The most characters of one script, so that its lines and places are numbers of 32 bits.
const MOST_CHARACTERS: usize = 0x7fff_ffff;

fn kind_of_word(kind: LexFault) -> FaultKind
    ensures { result ≡ spec.kind_of_word kind }
{
    match kind {
        LexFault::OpenString => FaultKind::OpenString,
        LexFault::OpenBracket => FaultKind::OpenBracket,
        LexFault::LongName => FaultKind::LongName,
        LexFault::BadNumber => FaultKind::BadNumber,
        LexFault::DateLiteral => FaultKind::DateLiteral,
        LexFault::BadOperator => FaultKind::BadOperator,
        LexFault::BadCharacter => FaultKind::BadCharacter,
    }
}

/// The stop at a fault in this line of the file at the path.
pub fn stop_at(path: &Text, line: u32, kind: FaultKind) -> SiteStop
    ensures { StopsAtFault (fault_at path.now line kind) result }
{
    match path.copy() {
        Ok(path) => SiteStop::Fault(SiteFault { path, line, kind }),
        Err(Memory) => SiteStop::Memory,
    }
}

/// The line of its file in which a part begins, counted from 1.
pub fn first_line(piece: &Fragment) -> u32
    ensures { result ≡ spec.first_line piece.now }
{
    match piece {
        Fragment::Directive { session: _ } => 1,
        Fragment::Text { text: _, line } => *line,
        Fragment::Script { text: _, line } => *line,
        Fragment::Write { text: _, line } => *line,
        Fragment::Element { text: _, line } => *line,
        Fragment::Include {
            from_root: _,
            path: _,
            line,
        } => *line,
    }
}

/// A word that no character of a script spells.
fn silent(kind: TokenKind) -> Token
    ensures { result ≡ spec.silent kind }
{
    Token {
        kind,
        line: 1,
        start: 0,
        end: 0,
    }
}

/// The words of plain text.
fn text_words(alloc: Global, text: &Text) -> Result<List<Token>, Memory>
    ensures { Gives result (spec.text_words text.now) }
{
    let mut words = List::with_capacity(alloc, 3)?;
    words.push(silent(TokenKind::LineEnd))?;
    words.push(silent(TokenKind::PageText(text.copy()?)))?;
    words.push(silent(TokenKind::LineEnd))?;
    Ok(words)
}

/// The words of a value that is written, by those of its text.
fn written(tokens: List<Token>) -> Result<List<Token>, Memory>
    ensures { Gives result (spec.written tokens) }
{
    let mut words = tokens.into_vec();
    let front = usize::min(1, words.len());
    words.insert(front, silent(TokenKind::PageWrite))?;
    Ok(List::from_vec(words))
}

/// The stop at a fault in this line of a script that begins in the line `first` of the file at the path.
fn word_stop(path: &Text, first: u32, line: u32, kind: LexFault) -> SiteStop
    ensures { StopsAtFault (fault_at path.now (first + line - 1) (spec.kind_of_word kind)) result }
{
    match first.checked_add(line) {
        Some(behind) => stop_at(path, behind.saturating_sub(1), kind_of_word(kind)),
        None => SiteStop::Memory,
    }
}

/// The words of a script that begins in the line `first` of the file at the path.
fn script_words(
    alloc: Global,
    path: &Text,
    first: u32,
    text: &Text,
) -> Result<List<Token>, SiteStop>
    ensures ok { IfOk result (Tokenizes text.now) }
    ensures fault { OnSiteFault result (spec.IsWordFault path.now first text.now) }
{
    if text.len() > MOST_CHARACTERS {
        return Err(SiteStop::Memory);
    }
    match lex(alloc, text) {
        Ok(tokens) => Ok(tokens),
        Err(Stop::Fault { kind, line }) => Err(word_stop(path, first, line, kind)),
        Err(Stop::Memory) => Err(SiteStop::Memory),
    }
}

/// The words of plain text, of which `/global.asa` has none.
fn plain_words(alloc: Global, global: bool, text: &Text) -> Result<List<Token>, Memory>
    ensures { Gives result (spec.plain_words global text.now) }
{
    if global {
        Ok(List::new(alloc))
    } else {
        text_words(alloc, text)
    }
}

/// The words of a part of a page, or of `/global.asa`, with their lines counted from 1. A script of 2^31 characters and
/// more is `Memory`.
pub fn part_words(alloc: Global, part: &Located, global: bool) -> Result<List<Token>, SiteStop>
    ensures ok { IfOk result (spec.AreWordsOf global part.now.fragment) }
    ensures fault { OnSiteFault result (spec.FaultsIn part.now.path part.now.fragment) }
{
    match &part.fragment {
        Fragment::Directive { session: _ } => Ok(List::new(alloc)),
        Fragment::Text { text, line: _ } => Ok(plain_words(alloc, global, text)?),
        Fragment::Script { text, line } => script_words(alloc, &part.path, *line, text),
        Fragment::Write { text, line } => {
            let tokens = script_words(alloc, &part.path, *line, text)?;
            Ok(written(tokens)?)
        }
        Fragment::Element { text, line } => script_words(alloc, &part.path, *line, text),
        Fragment::Include {
            from_root: _,
            path: _,
            line: _,
        } => Ok(List::new(alloc)),
    }
}

/// The place of the first word of a part that may not stand in it.
pub fn stray_of(piece: &Fragment, words: &[Token]) -> Option<usize>
    ensures { result ≡ spec.stray_of piece.now words.now }
{
    match piece {
        Fragment::Element { text: _, line: _ } => stray_in(words),
        _ => None,
    }
}
