//! Which words begin an expression, a statement, a member of a class or an item of a script.
ghost use Rattle.std.specs.Prelude.{◌≡◌, ◌||◌};
ghost use Rattle.vb_read.specs.Reader as reader;
ghost use Rattle.vb_read.specs.ReadCalls as calls;
ghost use Rattle.vb_read.specs.ReadDeclarations as declarations;
ghost use Rattle.vb_read.specs.ReadSimpleStatements as simple;
ghost use Rattle.vb_read.specs.ReadLines as lines;
ghost use Rattle.vb_read.specs.ReadStatements as statements;
ghost use Rattle.vb_read.specs.ReadUnits as units;

use crate::cursor::Cursor;
use vb_value::{Keyword, Symbol, TokenKind};

fn begins_expression(kind: &TokenKind) -> bool
    ensures { result ≡ calls.kind_begins_expression kind.now }
{
    match kind {
        TokenKind::Keyword(keyword) => matches!(
            keyword,
            Keyword::True
                | Keyword::False
                | Keyword::Empty
                | Keyword::Null
                | Keyword::Nothing
                | Keyword::New
                | Keyword::Me
                | Keyword::Not
        ),
        TokenKind::Symbol(symbol) => matches!(
            symbol,
            Symbol::WithPoint | Symbol::Open | Symbol::Minus
        ),
        TokenKind::Name { .. } => true,
        TokenKind::Integer(_) => true,
        TokenKind::Long(_) => true,
        TokenKind::String(_) => true,
        _ => false,
    }
}

fn keyword_begins_simple(keyword: Keyword) -> bool
    ensures { result ≡ simple.keyword_begins_simple keyword }
{
    matches!(
        keyword,
        Keyword::Call
            | Keyword::Dim
            | Keyword::Erase
            | Keyword::Exit
            | Keyword::Me
            | Keyword::On
            | Keyword::ReDim
            | Keyword::Set
    )
}

fn begins_simple(kind: &TokenKind) -> bool
    ensures { result ≡ simple.kind_begins_simple kind.now }
{
    match kind {
        TokenKind::Keyword(keyword) => keyword_begins_simple(*keyword),
        TokenKind::Symbol(symbol) => *symbol == Symbol::WithPoint,
        TokenKind::Name { .. } => true,
        TokenKind::PageText(_) => true,
        TokenKind::PageWrite => true,
        _ => false,
    }
}

fn keyword_begins_line_statement(keyword: Keyword) -> bool
    ensures { result ≡ lines.keyword_begins_line_statement keyword }
{
    match keyword {
        Keyword::If => true,
        _ => keyword_begins_simple(keyword),
    }
}

fn begins_line_statement(kind: &TokenKind) -> bool
    ensures { result ≡ lines.kind_begins_line_statement kind.now }
{
    match kind {
        TokenKind::Keyword(keyword) => keyword_begins_line_statement(*keyword),
        _ => begins_simple(kind),
    }
}

fn keyword_begins_statement(keyword: Keyword) -> bool
    ensures { result ≡ statements.keyword_begins_statement keyword }
{
    match keyword {
        Keyword::Const => true,
        Keyword::Do => true,
        Keyword::For => true,
        Keyword::Private => true,
        Keyword::Public => true,
        Keyword::Select => true,
        Keyword::While => true,
        Keyword::With => true,
        _ => keyword_begins_line_statement(keyword),
    }
}

fn begins_statement(kind: &TokenKind) -> bool
    ensures { result ≡ statements.kind_begins_statement kind.now }
{
    match kind {
        TokenKind::Keyword(keyword) => keyword_begins_statement(*keyword),
        _ => begins_line_statement(kind),
    }
}

fn begins_member(kind: &TokenKind) -> bool
    ensures { result ≡ units.kind_begins_member kind.now }
{
    match kind {
        TokenKind::Keyword(keyword) => matches!(
            keyword,
            Keyword::Dim | Keyword::Function | Keyword::Private | Keyword::Public | Keyword::Sub
        ),
        _ => false,
    }
}

fn keyword_begins_item(keyword: Keyword) -> bool
    ensures { result ≡ units.keyword_begins_item keyword }
{
    match keyword {
        Keyword::Class => true,
        Keyword::Function => true,
        Keyword::Sub => true,
        _ => keyword_begins_statement(keyword),
    }
}

fn begins_item(kind: &TokenKind) -> bool
    ensures { result ≡ units.kind_begins_item kind.now }
{
    match kind {
        TokenKind::Keyword(keyword) => keyword_begins_item(*keyword),
        _ => begins_statement(kind),
    }
}

impl<'a> Cursor<'a> {
    /// Whether an expression begins here.
    pub(crate) fn begins_expression(&self) -> bool
        ensures { result ≡ calls.begins_expression (reader.next self.now.rest.now) }
    {
        match self.rest {
            [] => false,
            [token, ..] => begins_expression(&token.kind),
        }
    }

    /// Whether a statement that may stand on a line with others begins here.
    pub(crate) fn begins_line_statement(&self) -> bool
        ensures { result ≡ lines.begins_line_statement (reader.next self.now.rest.now) }
    {
        match self.rest {
            [] => false,
            [token, ..] => begins_line_statement(&token.kind),
        }
    }

    /// Whether a statement or a constant begins here.
    pub(crate) fn begins_statement(&self) -> bool
        ensures { result ≡ statements.begins_statement (reader.next self.now.rest.now) }
    {
        match self.rest {
            [] => false,
            [token, ..] => begins_statement(&token.kind),
        }
    }

    /// Whether a member of a class begins here.
    pub(crate) fn begins_member(&self) -> bool
        ensures { result ≡ units.begins_member (reader.next self.now.rest.now) }
    {
        match self.rest {
            [] => false,
            [token, ..] => begins_member(&token.kind) || self.sees_quoted(b"property"),
        }
    }

    /// Whether an item of a script begins here.
    pub(crate) fn begins_item(&self) -> bool
        ensures { result ≡ units.begins_item (reader.next self.now.rest.now) }
    {
        match self.rest {
            [] => false,
            [token, ..] => begins_item(&token.kind),
        }
    }

    /// Whether `Public` or `Private` comes next.
    pub(crate) fn sees_access(&self) -> bool
        ensures { result ≡ declarations.sees_access (reader.next self.now.rest.now) }
    {
        self.sees_keyword(Keyword::Public) || self.sees_keyword(Keyword::Private)
    }

    /// Whether a constant begins here.
    pub(crate) fn sees_const(&self) -> bool
        ensures { result ≡ statements.sees_const (reader.next self.now.rest.now) }
    {
        self.sees_access() || self.sees_keyword(Keyword::Const)
    }

    /// Whether a condition of a loop begins here.
    pub(crate) fn sees_loop_word(&self) -> bool
        ensures { result ≡ statements.sees_loop_word (reader.next self.now.rest.now) }
    {
        self.sees_keyword(Keyword::While) || self.sees_keyword(Keyword::Until)
    }

    /// Whether `Sub` or `Function` comes next.
    pub(crate) fn sees_procedure(&self) -> bool
        ensures { result ≡ units.sees_procedure (reader.next self.now.rest.now) }
    {
        self.sees_keyword(Keyword::Sub) || self.sees_keyword(Keyword::Function)
    }

    /// Whether `Get`, `Let` or `Set` comes next.
    pub(crate) fn sees_property_kind(&self) -> bool
        ensures { result ≡ units.sees_property_kind (reader.next self.now.rest.now) }
    {
        self.sees_keyword(Keyword::Get)
            || self.sees_keyword(Keyword::Let)
            || self.sees_keyword(Keyword::Set)
    }

    /// Whether an item that is no statement begins here.
    pub(crate) fn sees_other_item(&self) -> bool
        ensures { result ≡ (declarations.sees_access (reader.next self.now.rest.now)
            || (units.sees_procedure (reader.next self.now.rest.now)
            || reader.sees (TokenKind.Keyword Keyword.Class) (reader.next self.now.rest.now))) }
    {
        self.sees_access() || self.sees_procedure() || self.sees_keyword(Keyword::Class)
    }
}
