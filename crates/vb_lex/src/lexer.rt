//! The words of a text.
ghost use Rattle.std.specs.Prelude.{◌^◌, ◌<◌, ◌≤◌, ℕ, length, IfOk, List as Tokens};
ghost use Rattle.vb_value.specs.Outcome.{Answers, Gives, OnFault};
ghost use Rattle.vb_lex.specs.declared.fault.LexFault.{LexFault};
ghost use Rattle.vb_lex.specs.Pieces as pieces;
ghost use Rattle.vb_lex.specs.Tokens as spec;

use crate::characters::{Class, character, is_in, is_line_end, run};
use crate::fault::LexStop;
use crate::gaps::{blank_length, line_end_length};
use crate::names::{bracketed, named};
use crate::numbers::{ampersand_word, decimal};
use crate::piece::Piece;
use crate::place::{Behind, Place, past_gap, past_word, token};
use crate::strings::string;
use crate::symbols::{point_word, symbol};
use std::alloc::Global;
use vb_value::{List, Memory, Stop, Text, Token, TokenKind, is_blank};

/// The piece at the front of a text that begins with a mark.
#[tactic(auto, unfolding(crate::specs::Pieces::marked))]
fn marked(alloc: Global, behind: Behind, text: &[char]) -> Result<Piece, Memory>
    requires { 0 < length text.now }
    ensures { Gives result (pieces.marked behind text.now) }
{
    match character(text, 0) {
        '\'' => Ok(Piece::Gap {
            length: run(Class::OnLine, text),
        }),
        '"' => string(alloc, text),
        '[' => bracketed(alloc, text),
        '.' => Ok(point_word(behind, text)),
        '&' => Ok(ampersand_word(text)),
        first => Ok(symbol(first, character(text, 1))),
    }
}

/// The piece at the front of a text.
#[tactic(auto, unfolding(crate::specs::Pieces::piece))]
fn piece(alloc: Global, behind: Behind, text: &[char]) -> Result<Piece, Memory>
    requires { 0 < length text.now }
    ensures { Gives result (pieces.piece behind text.now) }
{
    let first = text[0];
    if is_blank(first) {
        let length = blank_length(text);
        return Ok(Piece::Gap { length });
    }
    if is_line_end(first) {
        let kind = TokenKind::LineEnd;
        let length = line_end_length(text);
        return Ok(Piece::Word { kind, length });
    }
    if first.is_ascii_alphabetic() {
        return named(alloc, behind, text);
    }
    if is_in(Class::Decimal, first) {
        return Ok(decimal(text));
    }
    marked(alloc, behind, text)
}

/// Takes the piece at a place, and answers the place behind it.
#[tactic(auto, using(crate::proofs::Cutting::reached_fault))]
fn step(
    alloc: Global,
    text: &[char],
    place: Place,
    tokens: &mut List<Token>,
) -> Result<Place, LexStop>
    requires reached { spec.Reaches text.now tokens.old place }
    requires within { place.at < length text.now }
    requires small { length text.now < 2 ^ 31 }
    ensures next { IfOk result (spec.Reaches text.now tokens.new) }
    ensures moves { IfOk result (λ next. place.at < next.at) }
    ensures within { IfOk result (λ next. next.at ≤ length text.now) }
    ensures fault { OnFault result (spec.FaultsAt text.now) }
{
    match piece(alloc, place.behind, &text[place.at..])? {
        Piece::Gap { length } => Ok(past_gap(text, place, length)),
        Piece::Word { kind, length } => {
            let next = past_word(text, place, &kind, length);
            tokens.push(token(kind, place, length))?;
            Ok(next)
        }
        Piece::Fault { kind } => Err(Stop::Fault {
            kind,
            line: place.line,
        }),
    }
}

/// All words of a text.
fn read(alloc: Global, text: &[char]) -> Result<List<Token>, LexStop>
    requires { length text.now < 2 ^ 31 }
    ensures ok { IfOk result (spec.Tokenizes text.now) }
    ensures fault { OnFault result (spec.FaultsAt text.now) }
{
    let mut tokens = List::new(alloc);
    let mut place = Place {
        at: 0,
        behind: Behind::Other,
        line: 1,
    };
    tokens.push(token(TokenKind::LineEnd, place, 0))?;
    while place.at < text.len() {
        place = step(alloc, text, place, &mut tokens)?;
    }
    tokens.push(token(TokenKind::LineEnd, place, 0))?;
    Ok(tokens)
}

/// The words of a script of VBScript, between two line ends, which the edges of the text are.
///
/// A line ends in CR LF, CR or LF. Names keep their letters as written, and compare without ASCII case.
/// The work is in proportion to the text's length (VBScript 5.6 language reference, language elements).
#[tactic(auto, using(crate::proofs::Unique::only_tokens, crate::proofs::Unique::only_fault))]
pub fn lex(alloc: Global, text: &Text) -> Result<List<Token>, LexStop>
    requires { length text.now < 2 ^ 31 }
    ensures ok { IfOk result (spec.Tokenizes text.now) }
    ensures ok_only { (tokens : Tokens Token) → spec.Tokenizes text.now tokens
        → Answers result Stop.Memory (Ok tokens) }

    // The first fault, where there is one.
    ensures fault { OnFault result (spec.FaultsAt text.now) }
    ensures fault_only { (kind : LexFault) (line : ℕ) → spec.FaultsAt text.now kind line
        → Answers result Stop.Memory (Err (Stop.Fault kind line)) }
{
    read(alloc, text.as_slice())
}
