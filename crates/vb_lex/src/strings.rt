//! Strings.
ghost use Rattle.std.specs.Prelude.{◌≡◌, ◌<◌, ◌≤◌, IfOk, IfSome, length};
ghost use Rattle.vb_value.specs.Outcome.{Gives};
ghost use Rattle.vb_lex.specs.Strings as spec;

use crate::characters::{character, is_line_end};
use crate::fault::LexFault;
use crate::piece::Piece;
use std::alloc::Global;
use vb_value::{Memory, Text, TokenKind};

#[tactic(auto, using(crate::proofs::StringLemmas::string_steps))]
fn quoted(alloc: Global, text: &[char]) -> Result<Option<(Text, usize)>, Memory>
    ensures value { Gives result (spec.quoted text.now) }
    ensures within { IfOk result (λ found. IfSome found (λ string. string.1 ≤ length text.now)) }
{
    let mut value = Text::new(alloc);
    let mut at = 0;
    while at < text.len() {
        let c = text[at];
        if is_line_end(c) {
            return Ok(None);
        }
        at += 1;
        if c == '"' {
            if character(text, at) != '"' {
                return Ok(Some((value, at)));
            }
            at += 1;
        }
        value.push(c)?;
    }
    Ok(None)
}

/// The piece at the front of a text that begins with a quote.
pub fn string(alloc: Global, text: &[char]) -> Result<Piece, Memory>
    requires { 0 < length text.now }
    ensures { Gives result (spec.string text.now) }
{
    let Some((value, length)) = quoted(alloc, &text[1..])? else {
        return Ok(Piece::Fault {
            kind: LexFault::OpenString,
        });
    };
    Ok(Piece::Word {
        kind: TokenKind::String(value),
        length: 1 + length,
    })
}
