//! The tokens that are left, and the words of the grammar.
ghost use Rattle.std.specs.Prelude.{◌≡◌, IfOk};
ghost use Rattle.vb_syntax.specs.grammar.Words.{tag, name_of, literal_of, literal_of_keyword, literal_of_kind};
ghost use Rattle.vb_syntax.specs.grammar.Expressions as grammar;
ghost use Rattle.vb_read.specs.Reader as reader;
ghost use Rattle.vb_read.specs.ReadExpressions.{goes_on_path, sees_leaf};
ghost use Rattle.vb_value.specs.Outcome.{Runs};
ghost use Rattle.vb_read.specs.Reader.{stopped_at};

use std::error::Error;
use std::fmt;
use vb_syntax::Literal;
use vb_value::{Copied, Keyword, Memory, Op2, Symbol, Text, Token, TokenKind};

/// Why a reading function has no result.
#[derive(Clone, Copy, Debug, PartialEq, Eq)]
pub enum ReadStop {
    /// The tokens that are left begin with the faulty one.
    Fault,
    /// Memory ran out.
    Memory,
}

impl fmt::Display for ReadStop {
    fn fmt<W: fmt::Write>(&self, f: &mut fmt::Formatter<W>) -> fmt::Result {
        match self {
            ReadStop::Fault => write!(f, "a word stands where none of its kind may"),
            ReadStop::Memory => write!(f, "{}", Memory),
        }
    }
}

impl Error for ReadStop {}

impl From<Memory> for ReadStop {
    ghost use Rattle.std.specs.Prelude.{◌≡◌};
    ghost use Rattle.vb_read.specs.declared.cursor.ReadStop.TheVariants.{Memory as OutOfMemory};

    ghost from_gives = { λ _ stop. stop ≡ OutOfMemory };

    fn from(_: Memory) -> ReadStop {
        ReadStop::Memory
    }
}

/// The words that are not read yet. A reader takes what it reads from their front, and stops before the faulty one.
#[derive(Clone, Copy)]
pub struct Cursor<'a> {
    /// The words themselves.
    pub rest: &'a [Token],
}

/// The number of a kind of word.
pub fn tag(kind: &TokenKind) -> u32
    ensures { result ≡ tag kind.now }
{
    match kind {
        TokenKind::Keyword(keyword) => *keyword as u32,
        TokenKind::Symbol(symbol) => 100 + *symbol as u32,
        TokenKind::Name { .. } => 200,
        TokenKind::Integer(_) => 201,
        TokenKind::Long(_) => 202,
        TokenKind::String(_) => 203,
        TokenKind::LineEnd => 204,
        TokenKind::PageText(_) => 205,
        TokenKind::PageWrite => 206,
    }
}

/// The value that a keyword is, if it is one.
fn literal_of_keyword(keyword: Keyword) -> Option<Literal>
    ensures { result ≡ literal_of_keyword keyword }
{
    match keyword {
        Keyword::True => Some(Literal::Boolean(true)),
        Keyword::False => Some(Literal::Boolean(false)),
        Keyword::Empty => Some(Literal::Empty),
        Keyword::Null => Some(Literal::Null),
        _ => None,
    }
}

/// The value that a word is, if it is one.
fn literal(kind: &TokenKind) -> Result<Option<Literal>, Memory>
    ensures { IfOk result (λ found. found ≡ literal_of_kind kind.now) }
{
    Ok(match kind {
        TokenKind::Keyword(keyword) => literal_of_keyword(*keyword),
        TokenKind::Integer(number) => Some(Literal::Integer(*number)),
        TokenKind::Long(number) => Some(Literal::Long(*number)),
        TokenKind::String(text) => Some(Literal::Text(text.copy()?)),
        _ => None,
    })
}

/// Whether a word is a value.
fn is_literal(kind: &TokenKind) -> bool
    ensures { result ≡ reader.is_some (literal_of_kind kind.now) }
{
    match kind {
        TokenKind::Keyword(keyword) => literal_of_keyword(*keyword).is_some(),
        TokenKind::Integer(_) | TokenKind::Long(_) | TokenKind::String(_) => true,
        _ => false,
    }
}

/// The level of an operator, counted from the tightest, and which one it is.
fn keyword_operator(keyword: Keyword) -> Option<(u32, Op2)>
    ensures { result ≡ grammar.keyword_operator keyword }
{
    match keyword {
        Keyword::Mod => Some((3, Op2::Modulo)),
        Keyword::Is => Some((6, Op2::Is)),
        Keyword::And => Some((8, Op2::And)),
        Keyword::Or => Some((9, Op2::Or)),
        Keyword::Xor => Some((10, Op2::Xor)),
        Keyword::Eqv => Some((11, Op2::Eqv)),
        Keyword::Imp => Some((12, Op2::Imp)),
        _ => None,
    }
}

/// The level of an operator, counted from the tightest, and which one it is.
fn symbol_operator(symbol: Symbol) -> Option<(u32, Op2)>
    ensures { result ≡ grammar.symbol_operator symbol }
{
    match symbol {
        Symbol::Star => Some((1, Op2::Multiply)),
        Symbol::Backslash => Some((2, Op2::Divide)),
        Symbol::Plus => Some((4, Op2::Add)),
        Symbol::Minus => Some((4, Op2::Subtract)),
        Symbol::Ampersand => Some((5, Op2::Join)),
        Symbol::Equal => Some((6, Op2::Equal)),
        Symbol::NotEqual => Some((6, Op2::Unequal)),
        Symbol::Less => Some((6, Op2::Less)),
        Symbol::Greater => Some((6, Op2::Greater)),
        Symbol::AtMost => Some((6, Op2::AtMost)),
        Symbol::AtLeast => Some((6, Op2::AtLeast)),
        _ => None,
    }
}

/// The operator that a word is, if it is of the level.
fn operator_at(kind: &TokenKind, level: u32) -> Option<Op2>
    ensures { result ≡ grammar.at_level level (grammar.operator_of kind.now) }
{
    let found = match kind {
        TokenKind::Keyword(keyword) => keyword_operator(*keyword),
        TokenKind::Symbol(symbol) => symbol_operator(*symbol),
        _ => None,
    };
    match found {
        Some((at, operator)) if at == level => Some(operator),
        _ => None,
    }
}

impl<'a> Cursor<'a> {
    /// Whether a word of this kind comes next.
    pub(crate) fn sees(&self, kind: &TokenKind) -> bool
        ensures { result ≡ reader.sees kind.now (reader.next self.now.rest.now) }
    {
        match self.rest {
            [] => false,
            [token, ..] => tag(&token.kind) == tag(kind),
        }
    }

    /// Whether this keyword comes next.
    pub(crate) fn sees_keyword(&self, keyword: Keyword) -> bool
        ensures { result ≡ reader.sees (TokenKind.Keyword keyword) (reader.next self.now.rest.now) }
    {
        self.sees(&TokenKind::Keyword(keyword))
    }

    /// Whether this symbol comes next.
    pub(crate) fn sees_symbol(&self, symbol: Symbol) -> bool
        ensures { result ≡ reader.sees (TokenKind.Symbol symbol) (reader.next self.now.rest.now) }
    {
        self.sees(&TokenKind::Symbol(symbol))
    }

    /// Whether a name comes next.
    pub(crate) fn sees_name(&self) -> bool
        ensures { result ≡ reader.passes name_of (reader.next self.now.rest.now) }
    {
        match self.rest {
            [] => false,
            [token, ..] => matches!(token.kind, TokenKind::Name { .. }),
        }
    }

    /// Whether what comes next goes on with a path.
    pub(crate) fn goes_on_path(&self) -> bool
        ensures { result ≡ goes_on_path (reader.next self.now.rest.now) }
    {
        self.sees_symbol(Symbol::PathPoint) || self.sees_symbol(Symbol::Open)
    }

    /// Whether an operand comes next that is no path and opens nothing.
    pub(crate) fn sees_leaf(&self) -> bool
        ensures { result ≡ sees_leaf (reader.next self.now.rest.now) }
    {
        self.sees_literal()
            || self.sees_keyword(Keyword::Nothing)
            || self.sees_keyword(Keyword::New)
    }

    /// Takes a word of this kind, and answers its line.
    pub(crate) fn word(&mut self, kind: &TokenKind) -> Result<u32, ReadStop>
        ensures { Runs result stopped_at self.new.rest.now (reader.word kind.now self.old.rest.now) }
    {
        match self.rest {
            [token, rest @ ..] if tag(&token.kind) == tag(kind) => {
                self.rest = rest;
                Ok(token.line)
            }
            _ => Err(ReadStop::Fault),
        }
    }

    /// Takes this keyword, and answers its line.
    pub(crate) fn keyword(&mut self, keyword: Keyword) -> Result<u32, ReadStop>
        ensures { Runs result stopped_at self.new.rest.now (reader.keyword keyword self.old.rest.now) }
    {
        self.word(&TokenKind::Keyword(keyword))
    }

    /// Takes this symbol, and answers its line.
    pub(crate) fn symbol(&mut self, symbol: Symbol) -> Result<u32, ReadStop>
        ensures { Runs result stopped_at self.new.rest.now (reader.symbol symbol self.old.rest.now) }
    {
        self.word(&TokenKind::Symbol(symbol))
    }

    /// Takes a name.
    pub(crate) fn name(&mut self) -> Result<Text, ReadStop>
        ensures { Runs result stopped_at self.new.rest.now (reader.one name_of self.old.rest.now) }
    {
        match self.rest {
            [token, rest @ ..] => match &token.kind {
                TokenKind::Name { text, .. } => {
                    let name = text.copy()?;
                    self.rest = rest;
                    Ok(name)
                }
                _ => Err(ReadStop::Fault),
            },
            [] => Err(ReadStop::Fault),
        }
    }

    /// Whether a value that is written down comes next.
    pub(crate) fn sees_literal(&self) -> bool
        ensures { result ≡ reader.passes literal_of (reader.next self.now.rest.now) }
    {
        match self.rest {
            [] => false,
            [token, ..] => is_literal(&token.kind),
        }
    }

    /// Takes a value that is written down.
    pub(crate) fn literal(&mut self) -> Result<Literal, ReadStop>
        ensures { Runs result stopped_at self.new.rest.now (reader.one literal_of self.old.rest.now) }
    {
        match self.rest {
            [token, rest @ ..] => {
                let Some(found) = literal(&token.kind)? else {
                    return Err(ReadStop::Fault);
                };
                self.rest = rest;
                Ok(found)
            }
            [] => Err(ReadStop::Fault),
        }
    }

    /// Whether an operator of the level comes next.
    pub(crate) fn sees_operator(&self, level: u32) -> bool
        ensures { result ≡ reader.passes (grammar.operator_at level) (reader.next self.now.rest.now) }
    {
        match self.rest {
            [] => false,
            [token, ..] => operator_at(&token.kind, level).is_some(),
        }
    }

    /// Takes an operator of the level.
    pub(crate) fn operator(&mut self, level: u32) -> Result<Op2, ReadStop>
        ensures { Runs result stopped_at self.new.rest.now
            (reader.one (grammar.operator_at level) self.old.rest.now) }
    {
        match self.rest {
            [token, rest @ ..] => match operator_at(&token.kind, level) {
                Some(operator) => {
                    self.rest = rest;
                    Ok(operator)
                }
                None => Err(ReadStop::Fault),
            },
            [] => Err(ReadStop::Fault),
        }
    }

    /// Sees that no word is left: one that is left is a fault, and stays.
    pub fn at_end(&mut self) -> Result<(), ReadStop>
        ensures { Runs result stopped_at self.new.rest.now (reader.at_end self.old.rest.now) }
    {
        if self.rest.is_empty() {
            Ok(())
        } else {
            Err(ReadStop::Fault)
        }
    }
}
