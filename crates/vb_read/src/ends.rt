//! Colons and line ends, which end statements.
ghost use Rattle.vb_syntax.specs.grammar.Statements.{break_of};
ghost use Rattle.vb_read.specs.Reader as reader;
ghost use Rattle.vb_read.specs.ReadLines as spec;
ghost use Rattle.vb_value.specs.Outcome.{Runs};
ghost use Rattle.vb_read.specs.Reader.{stopped_at};
ghost use Rattle.std.specs.Prelude.{◌≡◌};

use crate::cursor::{Cursor, ReadStop, tag};
use vb_value::{Keyword, Symbol, Token, TokenKind};

fn is_break(token: &Token) -> bool
    ensures { result ≡ reader.is_some (break_of token.now) }
{
    let kind = tag(&token.kind);
    kind == tag(&TokenKind::Symbol(Symbol::Colon)) || kind == tag(&TokenKind::LineEnd)
}

impl<'a> Cursor<'a> {
    /// Whether a ":" or a line end comes next.
    pub(crate) fn sees_break(&self) -> bool
        ensures { result ≡ spec.breaks (reader.next self.now.rest.now) }
    {
        match self.rest {
            [] => false,
            [token, ..] => is_break(token),
        }
    }

    /// Takes a ":" or a line end.
    fn take_break(&mut self) -> Result<(), ReadStop>
        ensures { Runs result stopped_at self.new.rest.now (reader.one break_of self.old.rest.now) }
    {
        match self.rest {
            [token, rest @ ..] if is_break(token) => {
                self.rest = rest;
                Ok(())
            }
            _ => Err(ReadStop::Fault),
        }
    }

    /// Takes all that comes next of ":" and line ends.
    fn breaks(&mut self) -> Result<(), ReadStop>
        ensures { Runs result stopped_at self.new.rest.now
            ((reader.◌>>◌ (reader.many spec.breaks (reader.one break_of)) (reader.pure tt)) self.old.rest.now) }
    {
        while self.sees_break() {
            self.take_break()?;
        }
        Ok(())
    }

    /// Takes what ends a statement: ":" and line ends, at least one.
    pub(crate) fn end(&mut self) -> Result<(), ReadStop>
        ensures { Runs result stopped_at self.new.rest.now (spec.«end» self.old.rest.now) }
    {
        self.take_break()?;
        self.breaks()
    }

    /// Takes all that comes next of ":".
    fn colons(&mut self) -> Result<(), ReadStop>
        ensures { Runs result stopped_at self.new.rest.now
            ((reader.◌>>◌ spec.colons (reader.pure tt)) self.old.rest.now) }
    {
        while self.sees_symbol(Symbol::Colon) {
            self.symbol(Symbol::Colon)?;
        }
        Ok(())
    }

    /// Takes what ends a one-line If: an end on whose first line nothing stands.
    pub(crate) fn line_end(&mut self) -> Result<(), ReadStop>
        ensures { Runs result stopped_at self.new.rest.now (spec.line_end self.old.rest.now) }
    {
        self.colons()?;
        self.word(&TokenKind::LineEnd)?;
        self.breaks()
    }
}

/// What was read, where what ends it comes next. It is generic so that what a fault drops is a call.
pub fn with_end<T: Drop>(cursor: &mut Cursor<'_>, found: T) -> Result<T, ReadStop>
    ensures { Runs result stopped_at cursor.new.rest.now
        ((reader.◌>>◌ spec.«end» (reader.pure found)) cursor.old.rest.now) }
{
    cursor.end()?;
    Ok(found)
}

/// What was read, where this keyword comes next, as with [`with_end`].
pub fn with_keyword<T: Drop>(
    cursor: &mut Cursor<'_>,
    found: T,
    last: Keyword,
) -> Result<T, ReadStop>
    ensures { Runs result stopped_at cursor.new.rest.now
        ((reader.◌>>◌ (reader.keyword last) (reader.pure found)) cursor.old.rest.now) }
{
    cursor.keyword(last)?;
    Ok(found)
}

/// What was read, where `End` and this keyword come next, as with [`with_end`].
pub fn with_last<T: Drop>(cursor: &mut Cursor<'_>, found: T, last: Keyword) -> Result<T, ReadStop>
    ensures { Runs result stopped_at cursor.new.rest.now
        ((reader.◌>>◌ (reader.keyword Keyword.End) (reader.◌>>◌ (reader.keyword last) (reader.pure found)))
        cursor.old.rest.now) }
{
    cursor.keyword(Keyword::End)?;
    with_keyword(cursor, found, last)
}
