//! The script that the words of a page spell, or the first word that is wrong in it.
ghost use Rattle.std.specs.Prelude.{◌≡◌, ◌≢◌, IfOk, MatchOption, None, Some, slice_get};
ghost use Rattle.vb_value.specs.Outcome.{OnFault};
ghost use Rattle.vb_syntax.specs.grammar.Units.{Derives};
ghost use Rattle.vb_parse.specs.Outcome.{HasFault};
ghost use Rattle.page_build.specs.Building as spec;

use std::alloc::Global;
use vb_parse::laws::one_fault;
use vb_parse::{ParseFault, ParseStop, parse};
use vb_syntax::Unit;
use vb_value::{List, Memory, Stop, Token, TokenKind};

/// The fault of some words and its line, or none where they spell a script.
#[tactic(auto, using(crate::proofs::Within::begins_whole))]
fn first_fault(alloc: Global, tokens: &[Token]) -> Result<Option<(ParseFault, u32)>, Memory>
    ensures { IfOk result (λ found. MatchOption found (spec.BeginsScript tokens.now)
        (λ fault. HasFault tokens.now fault.0 fault.1)) }
{
    match parse(alloc, tokens) {
        Ok(_) => Ok(None),
        Err(Stop::Fault { kind, line }) => Ok(Some((kind, line))),
        Err(Stop::Memory) => Err(Memory),
    }
}

/// A line that is not this one.
fn other_line(line: u32) -> u32
    ensures { result ≢ line }
{
    if line == 0 { 1 } else { 0 }
}

/// A line end in a line.
fn line_end(line: u32) -> Token
    ensures { result ≡ spec.line_end line }
{
    Token {
        kind: TokenKind::LineEnd,
        line,
        start: 0,
        end: 0,
    }
}

/// The fault at one of the words, where they have this fault: with one more word behind them it stays where it stands,
/// unless it is at their end.
#[tactic(auto, using(crate::proofs::Within::begins_without))]
fn fault_before_end(
    alloc: Global,
    tokens: List<Token>,
    kind: ParseFault,
    line: u32,
) -> Result<Option<(ParseFault, u32)>, Memory>
    requires { HasFault tokens kind line }
    ensures { IfOk result (λ found. MatchOption found (spec.BeginsScript tokens)
        (λ fault. spec.HasFaultWithin tokens fault.0 fault.1)) }
{
    one_fault();
    let end = other_line(line);
    let mut longer = tokens;
    longer.push(line_end(end))?;
    match first_fault(alloc, longer.as_slice())? {
        None => Ok(None),
        Some((other, at)) => {
            if at == end {
                Ok(None)
            } else {
                Ok(Some((other, at)))
            }
        }
    }
}

/// The fault at one of the words, or none where they begin a script.
fn fault_within(alloc: Global, tokens: List<Token>) -> Result<Option<(ParseFault, u32)>, Memory>
    ensures { IfOk result (λ found. MatchOption found (spec.BeginsScript tokens)
        (λ fault. spec.HasFaultWithin tokens fault.0 fault.1)) }
{
    match first_fault(alloc, tokens.as_slice())? {
        None => Ok(None),
        Some((kind, line)) => fault_before_end(alloc, tokens, kind, line),
    }
}

/// The line of a word, or 0 where none stands.
fn word_line(tokens: &[Token], at: usize) -> u32
    ensures { result ≡ spec.word_line (slice_get tokens.now at) }
{
    match tokens.get(at) {
        Some(token) => token.line,
        None => 0,
    }
}

/// The first fault of words of which the one at this place is stray.
fn fault_to(alloc: Global, tokens: List<Token>, stray: usize) -> Result<(ParseFault, u32), Memory>
    ensures { IfOk result (λ found. spec.FaultsAtFirst (Some stray) tokens found.0 found.1) }
{
    let line = word_line(tokens.as_slice(), stray);
    let mut front = tokens;
    front.truncate(stray);
    match fault_within(alloc, front)? {
        Some(found) => Ok(found),
        None => Ok((ParseFault::Unexpected, line)),
    }
}

/// The script that some words spell, of which none is stray, or the fault at the first word with which no script goes
/// on or that is stray.
pub fn page_unit(
    alloc: Global,
    tokens: List<Token>,
    stray: Option<usize>,
) -> Result<Unit, ParseStop>
    ensures ok { IfOk result (λ unit. (stray ≡ None) × Derives tokens unit) }
    ensures fault { OnFault result (spec.FaultsAtFirst stray tokens) }
{
    match stray {
        None => parse(alloc, tokens.as_slice()),
        Some(at) => {
            let (kind, line) = fault_to(alloc, tokens, at)?;
            Err(Stop::Fault { kind, line })
        }
    }
}
