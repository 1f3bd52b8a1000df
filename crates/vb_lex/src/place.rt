//! Places in a text.
ghost use Rattle.std.specs.Prelude.{◌≡◌, ◌+◌, ◌^◌, ◌<◌, ◌≤◌, length};
ghost use Rattle.vb_value.specs.Lines.{line_at};
ghost use Rattle.vb_lex.specs.Places as spec;
ghost use Rattle.vb_lex.specs.declared.piece.Piece.TheVariants.{Gap, Word};

use vb_value::{Keyword, Symbol, Token, TokenKind, line_ends};

/// What stands before a place, as far as the next word's kind hangs on it.
#[derive(Clone, Copy, Debug, PartialEq, Eq)]
pub enum Behind {
    /// A name, `Me` or `)` stands directly before the place.
    Path,
    /// The last word before the place is a `.`.
    Point,
    /// Neither.
    Other,
}

/// A place in a text.
#[derive(Clone, Copy, Debug)]
pub struct Place {
    /// How many characters stand before it.
    pub at: usize,
    /// What stands before it.
    pub behind: Behind,
    /// Its line, counted from 1.
    pub line: u32,
}

fn behind_word(kind: &TokenKind) -> Behind
    ensures { result ≡ spec.behind_word kind.now }
{
    match kind {
        TokenKind::Name { .. } => Behind::Path,
        TokenKind::Keyword(Keyword::Me) => Behind::Path,
        TokenKind::Symbol(Symbol::Close) => Behind::Path,
        TokenKind::Symbol(Symbol::PathPoint | Symbol::WithPoint) => Behind::Point,
        _ => Behind::Other,
    }
}

fn behind_gap(behind: Behind) -> Behind
    ensures { result ≡ spec.behind_gap behind }
{
    match behind {
        Behind::Point => Behind::Point,
        Behind::Path | Behind::Other => Behind::Other,
    }
}

/// The place so many characters further on.
#[tactic(auto, using(vb_value::proofs::LineEnds::line_ends_add, vb_value::proofs::LineEnds::line_ends_le))]
fn moved(text: &[char], place: Place, taken: usize, behind: Behind) -> Place
    requires line { place.line ≡ line_at text.now place.at }
    requires within { place.at + taken ≤ length text.now }
    requires small { length text.now < 2 ^ 31 }
    ensures { result ≡ spec.moved text.now place taken behind }
{
    Place {
        at: place.at + taken,
        behind,
        line: place.line + line_ends(taken, &text[place.at..]),
    }
}

/// The place behind a gap of this length.
pub fn past_gap(text: &[char], place: Place, taken: usize) -> Place
    requires line { place.line ≡ line_at text.now place.at }
    requires within { place.at + taken ≤ length text.now }
    requires small { length text.now < 2 ^ 31 }
    ensures { result ≡ spec.past text.now place (Gap taken) }
{
    moved(text, place, taken, behind_gap(place.behind))
}

/// The place behind a word of this kind and length.
pub fn past_word(text: &[char], place: Place, kind: &TokenKind, taken: usize) -> Place
    requires line { place.line ≡ line_at text.now place.at }
    requires within { place.at + taken ≤ length text.now }
    requires small { length text.now < 2 ^ 31 }
    ensures { result ≡ spec.past text.now place (Word kind.now taken) }
{
    moved(text, place, taken, behind_word(kind))
}

/// The token of a word at this place.
pub fn token(kind: TokenKind, place: Place, taken: usize) -> Token
    requires { place.at + taken < 2 ^ 31 }
    ensures { result ≡ spec.token_at place kind taken }
{
    Token {
        kind,
        line: place.line,
        start: place.at as u32,
        end: (place.at + taken) as u32,
    }
}
