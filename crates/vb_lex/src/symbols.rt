//! Operators that are no words, and marks of punctuation.
ghost use Rattle.std.specs.Prelude.{◌≡◌, ◌<◌, ◌≤◌, length};
ghost use Rattle.vb_lex.specs.Symbols as spec;

use crate::characters::{Class, character, is_in};
use crate::fault::LexFault;
use crate::piece::Piece;
use crate::place::Behind;
use vb_value::{Symbol, TokenKind};

fn word(symbol: Symbol, length: usize) -> Piece
    ensures { result ≡ Piece.Word (TokenKind.Symbol symbol) length }
{
    Piece::Word {
        kind: TokenKind::Symbol(symbol),
        length,
    }
}

fn fault(kind: LexFault) -> Piece
    ensures { result ≡ Piece.Fault kind }
{
    Piece::Fault { kind }
}

/// The piece at the front of a text that begins with a `.`.
pub fn point_word(behind: Behind, text: &[char]) -> Piece
    ensures { result ≡ spec.point_word behind text.now }
{
    if is_in(Class::Decimal, character(text, 1)) {
        return fault(LexFault::BadNumber);
    }
    match behind {
        Behind::Path => word(Symbol::PathPoint, 1),
        Behind::Point | Behind::Other => word(Symbol::WithPoint, 1),
    }
}

fn one_character(c: char) -> Piece
    ensures { result ≡ spec.beside spec.one_character c }
{
    match c {
        '=' => word(Symbol::Equal, 1),
        '(' => word(Symbol::Open, 1),
        ')' => word(Symbol::Close, 1),
        ',' => word(Symbol::Comma, 1),
        ':' => word(Symbol::Colon, 1),
        '+' => word(Symbol::Plus, 1),
        '-' => word(Symbol::Minus, 1),
        '*' => word(Symbol::Star, 1),
        '\\' => word(Symbol::Backslash, 1),
        '/' | '^' => fault(LexFault::BadOperator),
        '#' => fault(LexFault::DateLiteral),
        _ => fault(LexFault::BadCharacter),
    }
}

/// The piece at the front of a text that begins with any other character.
#[tactic(auto, unfolding(crate::specs::Symbols::symbol))]
pub fn symbol(first: char, second: char) -> Piece
    ensures { result ≡ spec.symbol first second }
{
    match (first, second) {
        ('<', '>') => word(Symbol::NotEqual, 2),
        ('<', '=') => word(Symbol::AtMost, 2),
        ('<', _) => word(Symbol::Less, 1),
        ('>', '=') => word(Symbol::AtLeast, 2),
        ('>', _) => word(Symbol::Greater, 1),
        _ => one_character(first),
    }
}
