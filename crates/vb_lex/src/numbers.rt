//! Numbers.
ghost use Rattle.std.specs.Prelude.{◌≡◌, ◌^◌, ◌<◌, ◌≤◌, length, min};
ghost use Rattle.std.specs.Char.{digit_value};
ghost use Rattle.std.specs.Str.Parse.{digits_value};
ghost use Rattle.vb_lex.specs.Characters.{is_in};
ghost use Rattle.vb_lex.specs.Numbers as spec;

use crate::characters::{Class, character, is_in, run};
use crate::fault::LexFault;
use crate::piece::Piece;
use vb_value::{Symbol, TokenKind};

// Past every value that a number may have.
const TOO_GREAT: u64 = 1 << 32;

fn digit(c: char) -> u64
    ensures value { result ≡ digit_value c }
    ensures low { result ≤ 36 }
{
    match c.to_digit(36) {
        Some(value) => value as u64,
        None => 36,
    }
}

/// The value of digits, or the number past every value where it is greater.
#[tactic(auto, using(crate::proofs::NumberLemmas::value_more, crate::proofs::NumberLemmas::product_le))]
fn value(base: u64, digits: &[char]) -> u64
    requires low { 1 ≤ base }
    requires high { base ≤ 16 }
    ensures { result ≡ min (digits_value base digits.now) TOO_GREAT }
{
    let mut value = 0;
    for c in digits {
        value = (value * base + digit(*c)).min(TOO_GREAT);
    }
    value
}

fn is_spoilt(text: &[char]) -> bool
    ensures { result ≡ spec.is_spoilt text.now }
{
    let first = character(text, 0);
    first == '.' || first == '[' || first.is_ascii_alphabetic()
}

fn bad_number() -> Piece
    ensures { result ≡ Piece.Fault LexFault.BadNumber }
{
    Piece::Fault {
        kind: LexFault::BadNumber,
    }
}

fn decimal_kind(value: u64, length: usize) -> Piece
    ensures { result ≡ spec.decimal_kind value length }
{
    if value <= 32767 {
        let kind = TokenKind::Integer(value as i16);
        return Piece::Word { kind, length };
    }
    if value <= 2147483647 {
        let kind = TokenKind::Long(value as i32);
        return Piece::Word { kind, length };
    }
    bad_number()
}

/// The piece at the front of a text that begins with a digit.
pub fn decimal(text: &[char]) -> Piece
    ensures { result ≡ spec.decimal text.now }
{
    let length = run(Class::Decimal, text);
    if is_spoilt(&text[length..]) {
        bad_number()
    } else {
        decimal_kind(value(10, &text[..length]), length)
    }
}

fn based_kind(value: u64, is_long: bool, length: usize) -> Piece
    requires { length < 2 ^ 63 }
    ensures { result ≡ spec.based_kind value is_long length }
{
    if value > 4294967295 {
        return bad_number();
    }
    let bits = value as u32;
    if is_long {
        let kind = TokenKind::Long(bits.cast_signed());
        return Piece::Word {
            kind,
            length: length + 1,
        };
    }
    if value <= 65535 {
        let kind = TokenKind::Integer((value as u16).cast_signed());
        return Piece::Word { kind, length };
    }
    let kind = TokenKind::Long(bits.cast_signed());
    Piece::Word { kind, length }
}

#[tactic(auto, using(crate::proofs::NumberLemmas::based_kind_cut))]
fn based(base: u64, class: Class, text: &[char]) -> Piece
    requires low { 1 ≤ base }
    requires high { base ≤ 16 }
    requires letter { 2 ≤ length text.now }
    ensures { result ≡ spec.based base (is_in class) text.now }
{
    let digits = &text[2..];
    let count = run(class, digits);
    let rest = &text[2 + count..];
    if is_spoilt(rest) {
        bad_number()
    } else {
        based_kind(
            value(base, &digits[..count]),
            character(rest, 0) == '&',
            2 + count,
        )
    }
}

/// The piece at the front of a text that begins with `&`.
pub fn ampersand_word(text: &[char]) -> Piece
    ensures { result ≡ spec.ampersand_word text.now }
{
    let letter = character(text, 1);
    let digit = character(text, 2);
    if (letter == 'H' || letter == 'h') && is_in(Class::Hexadecimal, digit) {
        based(16, Class::Hexadecimal, text)
    } else if (letter == 'O' || letter == 'o') && is_in(Class::Octal, digit) {
        based(8, Class::Octal, text)
    } else {
        Piece::Word {
            kind: TokenKind::Symbol(Symbol::Ampersand),
            length: 1,
        }
    }
}
