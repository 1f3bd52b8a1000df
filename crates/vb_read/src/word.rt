//! Words that statements ask for: quoted names, numbers, texts of the page.
ghost use Rattle.std.specs.List.{list_all};
ghost use Rattle.std.specs.Prelude.{◌≡◌, []};
ghost use Rattle.vb_syntax.specs.grammar.Declarations.{number_of, number_of_kind, negative_of, negative_of_kind};
ghost use Rattle.vb_syntax.specs.grammar.SimpleStatements.{named_at, quoted_at, text_at};
ghost use Rattle.vb_syntax.specs.grammar.Statements.{passed, passed_kind, says_nothing};
ghost use Rattle.vb_read.specs.Reader as reader;
ghost use Rattle.vb_read.specs.ReadSimpleStatements as spec;
ghost use Rattle.vb_read.specs.ReadUnits.{blank_at, quoted_name};
ghost use Rattle.vb_value.specs.Outcome.{Runs};
ghost use Rattle.vb_read.specs.Reader.{stopped_at};

use crate::cursor::{Cursor, ReadStop};
use vb_syntax::{ConstantValue, PathHead};
use vb_value::{Copied, Text, Token, TokenKind, is_blank, is_word};

/// Whether a token is the word, without brackets.
fn is_quoted(token: &Token, word: &[u8]) -> bool
    ensures { result ≡ reader.is_some (quoted_at word.now token.now) }
{
    match &token.kind {
        TokenKind::Name {
            text,
            bracketed: false,
        } => is_word(word, text.as_slice()),
        _ => false,
    }
}

/// The value of a number.
fn number(kind: &TokenKind) -> Option<i32>
    ensures { result ≡ number_of_kind kind.now }
{
    match kind {
        TokenKind::Integer(number) => Some(i32::from(*number)),
        TokenKind::Long(number) => Some(*number),
        _ => None,
    }
}

/// What a number behind a minus sign stands for.
fn negative(kind: &TokenKind) -> Option<ConstantValue>
    ensures { result ≡ negative_of_kind kind.now }
{
    match kind {
        TokenKind::Integer(number) => Some(ConstantValue::NegativeInteger(*number)),
        TokenKind::Long(number) => Some(ConstantValue::NegativeLong(*number)),
        _ => None,
    }
}

/// Whether a character is a blank or part of a line end.
fn says_nothing(character: char) -> bool
    ensures { result ≡ says_nothing character }
{
    is_blank(character) || character == '\n' || character == '\r'
}

/// Whether a text is blanks and line ends alone.
fn is_blank_text(text: &[char]) -> bool
    ensures { result ≡ list_all says_nothing text.now }
{
    text.iter().all(|c| says_nothing(*c))
}

/// Whether a word is a text of blanks and line ends alone, or any text where that is allowed.
#[tactic(auto, using(crate::proofs::BlankTexts::passed_where))]
fn is_passed(any: bool, kind: &TokenKind) -> bool
    ensures { result ≡ reader.is_some (passed_kind any kind.now) }
{
    match kind {
        TokenKind::PageText(text) => any || is_blank_text(text.as_slice()),
        _ => false,
    }
}

impl<'a> Cursor<'a> {
    /// Whether this word comes next, which is a name elsewhere.
    pub(crate) fn sees_quoted(&self, word: &[u8]) -> bool
        ensures { result ≡ spec.sees_quoted word.now (reader.next self.now.rest.now) }
    {
        match self.rest {
            [] => false,
            [token, ..] => is_quoted(token, word),
        }
    }

    /// Takes this word, which is a name elsewhere, and answers its line.
    pub(crate) fn quoted(&mut self, word: &[u8]) -> Result<u32, ReadStop>
        ensures { Runs result stopped_at self.new.rest.now (spec.quoted word.now self.old.rest.now) }
    {
        match self.rest {
            [token, rest @ ..] if is_quoted(token, word) => {
                self.rest = rest;
                Ok(token.line)
            }
            _ => Err(ReadStop::Fault),
        }
    }

    /// Takes this word, and answers it as the name that it is elsewhere.
    pub(crate) fn quoted_name(&mut self, word: &[u8]) -> Result<Text, ReadStop>
        ensures { Runs result stopped_at self.new.rest.now (reader.one (quoted_name word.now) self.old.rest.now) }
    {
        match self.rest {
            [token, ..] if is_quoted(token, word) => self.name(),
            _ => Err(ReadStop::Fault),
        }
    }

    /// Takes a name at which a path begins, and answers its line too.
    pub(crate) fn named(&mut self) -> Result<(u32, PathHead), ReadStop>
        ensures { Runs result stopped_at self.new.rest.now (reader.one named_at self.old.rest.now) }
    {
        match self.rest {
            [token, ..] => {
                let line = token.line;
                let name = self.name()?;
                Ok((line, PathHead::Name(name)))
            }
            [] => Err(ReadStop::Fault),
        }
    }

    /// Takes a number.
    pub(crate) fn number(&mut self) -> Result<i32, ReadStop>
        ensures { Runs result stopped_at self.new.rest.now (reader.one number_of self.old.rest.now) }
    {
        match self.rest {
            [token, rest @ ..] => match number(&token.kind) {
                Some(found) => {
                    self.rest = rest;
                    Ok(found)
                }
                None => Err(ReadStop::Fault),
            },
            [] => Err(ReadStop::Fault),
        }
    }

    /// Takes a number of the value 0.
    pub(crate) fn zero(&mut self) -> Result<(), ReadStop>
        ensures { Runs result stopped_at self.new.rest.now (reader.one spec.zero_of self.old.rest.now) }
    {
        match self.rest {
            [token, rest @ ..] if number(&token.kind) == Some(0) => {
                self.rest = rest;
                Ok(())
            }
            _ => Err(ReadStop::Fault),
        }
    }

    /// Takes a number behind a minus sign.
    pub(crate) fn negative(&mut self) -> Result<ConstantValue, ReadStop>
        ensures { Runs result stopped_at self.new.rest.now (reader.one negative_of self.old.rest.now) }
    {
        match self.rest {
            [token, rest @ ..] => match negative(&token.kind) {
                Some(found) => {
                    self.rest = rest;
                    Ok(found)
                }
                None => Err(ReadStop::Fault),
            },
            [] => Err(ReadStop::Fault),
        }
    }

    /// Whether a text of the page comes next.
    pub(crate) fn sees_page_text(&self) -> bool
        ensures { result ≡ reader.sees (TokenKind.PageText []) (reader.next self.now.rest.now) }
    {
        match self.rest {
            [] => false,
            [token, ..] => matches!(token.kind, TokenKind::PageText(_)),
        }
    }

    /// Whether a text of the page comes next that is passed over: a blank one, or any.
    pub(crate) fn sees_passed(&self, any: bool) -> bool
        ensures { result ≡ reader.passes (passed any) (reader.next self.now.rest.now) }
    {
        match self.rest {
            [] => false,
            [token, ..] => is_passed(any, &token.kind),
        }
    }

    /// Passes over a text of the page.
    pub(crate) fn pass(&mut self, any: bool) -> Result<(), ReadStop>
        ensures { Runs result stopped_at self.new.rest.now (reader.one (passed any) self.old.rest.now) }
    {
        match self.rest {
            [token, rest @ ..] if is_passed(any, &token.kind) => {
                self.rest = rest;
                Ok(())
            }
            _ => Err(ReadStop::Fault),
        }
    }

    /// Whether a blank text of the page comes next.
    pub(crate) fn sees_blank_text(&self) -> bool
        ensures { result ≡ reader.passes blank_at (reader.next self.now.rest.now) }
    {
        self.sees_passed(false)
    }

    /// Takes a blank text of the page, and answers its line too.
    pub(crate) fn blank_text(&mut self) -> Result<(u32, Text), ReadStop>
        ensures { Runs result stopped_at self.new.rest.now (reader.one blank_at self.old.rest.now) }
    {
        if self.sees_passed(false) {
            self.page_text()
        } else {
            Err(ReadStop::Fault)
        }
    }

    /// Takes a text of the page, and answers its line too.
    pub(crate) fn page_text(&mut self) -> Result<(u32, Text), ReadStop>
        ensures { Runs result stopped_at self.new.rest.now (reader.one text_at self.old.rest.now) }
    {
        match self.rest {
            [token, rest @ ..] => match &token.kind {
                TokenKind::PageText(text) => {
                    let found = text.copy()?;
                    self.rest = rest;
                    Ok((token.line, found))
                }
                _ => Err(ReadStop::Fault),
            },
            [] => Err(ReadStop::Fault),
        }
    }
}
