//! The parser of scripts: a whole list of words, read to its end.
ghost use Rattle.std.specs.Prelude.{◌≡◌, ℕ, IfOk};
ghost use Rattle.vb_syntax.specs.declared.unit.Unit.{Unit as Script};
ghost use Rattle.vb_syntax.specs.grammar.Faults.{fault_line, last_line};
ghost use Rattle.vb_syntax.specs.grammar.Units.{Derives};
ghost use Rattle.vb_value.specs.Outcome.{Answers, OnFault, Runs};
ghost use Rattle.vb_parse.specs.Outcome.{HasFault, Leaves};
ghost use Rattle.vb_parse.specs.Outcome as spec;
ghost use Rattle.vb_read.specs.Reader.{stopped_at};
ghost use Rattle.vb_read.specs.ReadUnits.{whole_unit};
ghost use Rattle.vb_read.specs.Depths.{rules};

use crate::fault::{ParseFault, ParseStop};
use std::alloc::Global;
use vb_read::{Cursor, Looser, ReadStop, read_unit};
use vb_syntax::Unit;
use vb_value::{Memory, Stop, Token};

/// How many constructs may be open at one place.
const DEPTH: u32 = 200;
/// The grammar as it is.
const STRICT: Looser = Looser {
    several: false,
    texts: false,
};
/// The grammar with several expressions in the parenthesis of a call statement.
const SEVERAL: Looser = Looser {
    several: true,
    texts: false,
};
/// The grammar with any text inside Class and in the head of Select.
const TEXTS: Looser = Looser {
    several: false,
    texts: true,
};

/// Reads a whole list of words as a script, or leaves the words from the faulty one on.
#[tactic(auto, unfolding(vb_read::specs::ReadUnits::whole_unit))]
fn read(
    alloc: Global,
    cursor: &mut Cursor<'_>,
    looser: Looser,
    depth: u32,
) -> Result<Unit, ReadStop>
    ensures { Runs result stopped_at cursor.new.rest.now (whole_unit (rules looser) depth cursor.old.rest.now) }
{
    let found = read_unit(alloc, cursor, looser, depth)?;
    cursor.at_end()?;
    Ok(found)
}

/// The line of the last of some words.
fn last_line(mut tokens: &[Token]) -> u32
    ensures { result ≡ last_line 1 tokens.now }
{
    let mut line = 1;
    while let [token, rest @ ..] = tokens {
        line = token.line;
        tokens = rest;
    }
    line
}

/// The line of the first of the words that are left, or of the last of all.
fn fault_line(tokens: &[Token], left: &[Token]) -> u32
    ensures { result ≡ fault_line tokens.now left.now }
{
    match left {
        [token, ..] => token.line,
        [] => last_line(tokens),
    }
}

/// How many words are left where this is allowed.
fn left_by(alloc: Global, tokens: &[Token], looser: Looser, depth: u32) -> Result<usize, Memory>
    ensures { IfOk result (λ count. Leaves (whole_unit (rules looser) depth tokens.now) count) }
{
    let mut cursor = Cursor { rest: tokens };
    match read(alloc, &mut cursor, looser, depth) {
        Ok(_) => Ok(0),
        Err(ReadStop::Fault) => Ok(cursor.rest.len()),
        Err(ReadStop::Memory) => Err(Memory),
    }
}

/// The kind of a fault, by how many words are left, and how many where more is allowed.
fn kind_by(left: usize, deeper: usize, several: usize, texts: usize) -> ParseFault
    ensures { result ≡ spec.kind_by left deeper several texts }
{
    if deeper < left {
        ParseFault::TooDeep
    } else if several < left {
        ParseFault::CallParens
    } else if texts < left {
        ParseFault::TextHere
    } else {
        ParseFault::Unexpected
    }
}

/// Reads the words of a script, or finds the first with which no script goes on.
#[tactic(auto, using(crate::proofs::ParseScript::script_sound, crate::proofs::ParseScript::script_fault))]
fn script(alloc: Global, tokens: &[Token]) -> Result<Unit, ParseStop>
    ensures unit { IfOk result (λ unit. Derives tokens.now unit) }
    ensures fault { OnFault result (HasFault tokens.now) }
{
    let mut cursor = Cursor { rest: tokens };
    match read(alloc, &mut cursor, STRICT, DEPTH) {
        Ok(found) => Ok(found),
        Err(ReadStop::Memory) => Err(Stop::Memory),
        Err(ReadStop::Fault) => {
            let left = cursor.rest;
            let deeper = left_by(alloc, tokens, STRICT, DEPTH + 1)?;
            let several = left_by(alloc, tokens, SEVERAL, DEPTH)?;
            let texts = left_by(alloc, tokens, TEXTS, DEPTH)?;
            Err(Stop::Fault {
                kind: kind_by(left.len(), deeper, several, texts),
                line: fault_line(tokens, left),
            })
        }
    }
}

/// Reads the words of a script, of which at most 200 constructs may be open at one place: blocks, bodies of procedures
/// and classes, one-line Ifs, parentheses, `Not` and the leading minus (VBScript 5.6 language reference,
/// "Statements"). At a fault it reads three times more, to tell the fault's kind.
#[tactic(auto, using(crate::proofs::ParseScript::only_unit, crate::proofs::ParseScript::only_fault))]
pub fn parse(alloc: Global, tokens: &[Token]) -> Result<Unit, ParseStop>
    ensures unit { IfOk result (λ unit. Derives tokens.now unit) }
    ensures only { (unit : Script) → Derives tokens.now unit → Answers result Stop.Memory (Ok unit) }

    // The first fault, where there is one.
    ensures fault { OnFault result (HasFault tokens.now) }
    ensures fault_only { (kind : ParseFault) (line : ℕ) → HasFault tokens.now kind line
        → Answers result Stop.Memory (Err (Stop.Fault kind line)) }
{
    script(alloc, tokens)
}
