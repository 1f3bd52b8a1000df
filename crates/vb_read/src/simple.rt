//! Reading statements that hold no other. Each function reads what the rule of its name spells, where `depth`
//! more constructs may open.
ghost use Rattle.std.specs.Prelude.{[]};
ghost use Rattle.vb_syntax.specs.grammar.Words.{name_of};
ghost use Rattle.vb_read.specs.Reader as reader;
ghost use Rattle.vb_read.specs.ReadExpressions.{list_of};
ghost use Rattle.vb_read.specs.ReadCalls as calls;
ghost use Rattle.vb_read.specs.ReadSimpleStatements as spec;
ghost use Rattle.vb_value.specs.Outcome.{Runs};
ghost use Rattle.vb_read.specs.Reader.{stopped_at};
ghost use Rattle.vb_read.specs.Depths.{rules};

use crate::call::{from_path, path_at, value_behind};
use crate::cursor::{Cursor, ReadStop};
use crate::declaration::{access_word, begun, constants, variables};
use crate::expression::{expression, list};
use crate::looser::Looser;
use std::alloc::Global;
use vb_syntax::{Access, ExitKind, Expression, Path, Resized, Statement, StatementKind};
use vb_value::{Keyword, List, Symbol, Text, TokenKind};

/// Constants behind the word before them, which was read.
pub fn const_from(
    alloc: Global,
    cursor: &mut Cursor<'_>,
    before: Option<(u32, Access)>,
) -> Result<Statement, ReadStop>
    ensures { Runs result stopped_at cursor.new.rest.now (spec.const_from before cursor.old.rest.now) }
{
    let line = cursor.keyword(Keyword::Const)?;
    let constants = constants(alloc, cursor)?;
    let (line, access) = begun(before, line);
    let kind = StatementKind::Const { access, constants };
    Ok(Statement { line, kind })
}

/// Constants, and the word before them.
pub fn const_statement(alloc: Global, cursor: &mut Cursor<'_>) -> Result<Statement, ReadStop>
    ensures { Runs result stopped_at cursor.new.rest.now (spec.const cursor.old.rest.now) }
{
    if cursor.sees_access() {
        let before = access_word(cursor)?;
        const_from(alloc, cursor, Some(before))
    } else {
        const_from(alloc, cursor, None)
    }
}

fn exit_kind(cursor: &mut Cursor<'_>) -> Result<ExitKind, ReadStop>
    ensures { Runs result stopped_at cursor.new.rest.now (spec.exit_kind cursor.old.rest.now) }
{
    if cursor.sees_keyword(Keyword::Do) {
        cursor.keyword(Keyword::Do)?;
        Ok(ExitKind::Do)
    } else if cursor.sees_keyword(Keyword::For) {
        cursor.keyword(Keyword::For)?;
        Ok(ExitKind::For)
    } else if cursor.sees_keyword(Keyword::Sub) {
        cursor.keyword(Keyword::Sub)?;
        Ok(ExitKind::Sub)
    } else if cursor.sees_keyword(Keyword::Function) {
        cursor.keyword(Keyword::Function)?;
        Ok(ExitKind::Function)
    } else {
        cursor.quoted(b"property")?;
        Ok(ExitKind::Property)
    }
}

fn exit_statement(cursor: &mut Cursor<'_>) -> Result<Statement, ReadStop>
    ensures { Runs result stopped_at cursor.new.rest.now (spec.exit_statement cursor.old.rest.now) }
{
    let line = cursor.keyword(Keyword::Exit)?;
    let kind = exit_kind(cursor)?;
    let kind = StatementKind::Exit { kind };
    Ok(Statement { line, kind })
}

fn on_error(cursor: &mut Cursor<'_>) -> Result<Statement, ReadStop>
    ensures { Runs result stopped_at cursor.new.rest.now (spec.on_error cursor.old.rest.now) }
{
    let line = cursor.keyword(Keyword::On)?;
    cursor.quoted(b"error")?;
    if cursor.sees_keyword(Keyword::Resume) {
        cursor.keyword(Keyword::Resume)?;
        cursor.keyword(Keyword::Next)?;
        let kind = StatementKind::OnErrorResumeNext;
        Ok(Statement { line, kind })
    } else {
        cursor.keyword(Keyword::GoTo)?;
        cursor.zero()?;
        let kind = StatementKind::OnErrorGoToZero;
        Ok(Statement { line, kind })
    }
}

fn names(alloc: Global, cursor: &mut Cursor<'_>) -> Result<List<Text>, ReadStop>
    ensures { Runs result stopped_at cursor.new.rest.now (list_of (reader.one name_of) cursor.old.rest.now) }
{
    let mut found = List::new(alloc);
    found.push(cursor.name()?)?;
    while cursor.sees_symbol(Symbol::Comma) {
        cursor.symbol(Symbol::Comma)?;
        found.push(cursor.name()?)?;
    }
    Ok(found)
}

fn erase(alloc: Global, cursor: &mut Cursor<'_>) -> Result<Statement, ReadStop>
    ensures { Runs result stopped_at cursor.new.rest.now (spec.erase cursor.old.rest.now) }
{
    let line = cursor.keyword(Keyword::Erase)?;
    let names = names(alloc, cursor)?;
    let kind = StatementKind::Erase { names };
    Ok(Statement { line, kind })
}

fn page_text(cursor: &mut Cursor<'_>) -> Result<Statement, ReadStop>
    ensures { Runs result stopped_at cursor.new.rest.now (spec.page_text cursor.old.rest.now) }
{
    let (line, text) = cursor.page_text()?;
    let kind = StatementKind::PageText { text };
    Ok(Statement { line, kind })
}

fn dim(alloc: Global, cursor: &mut Cursor<'_>, depth: u32) -> Result<Statement, ReadStop>
    ensures { Runs result stopped_at cursor.new.rest.now (spec.dim depth cursor.old.rest.now) }
{
    let line = cursor.keyword(Keyword::Dim)?;
    let variables = variables(alloc, cursor, depth)?;
    let kind = StatementKind::Dim { variables };
    Ok(Statement { line, kind })
}

#[tactic(auto, using(crate::proofs::Depths::opened_inside))]
fn resized_bounds(
    alloc: Global,
    cursor: &mut Cursor<'_>,
    depth: u32,
) -> Result<List<Expression>, ReadStop>
    ensures { Runs result stopped_at cursor.new.rest.now (spec.resized_bounds depth cursor.old.rest.now) }
{
    if depth == 0 {
        return Err(ReadStop::Fault);
    }
    cursor.symbol(Symbol::Open)?;
    let found = list(alloc, cursor, depth - 1)?;
    cursor.symbol(Symbol::Close)?;
    Ok(found)
}

fn resized(alloc: Global, cursor: &mut Cursor<'_>, depth: u32) -> Result<Resized, ReadStop>
    ensures { Runs result stopped_at cursor.new.rest.now (spec.resized depth cursor.old.rest.now) }
{
    let name = cursor.name()?;
    let bounds = resized_bounds(alloc, cursor, depth)?;
    Ok(Resized { name, bounds })
}

fn arrays(alloc: Global, cursor: &mut Cursor<'_>, depth: u32) -> Result<List<Resized>, ReadStop>
    ensures { Runs result stopped_at cursor.new.rest.now (list_of (spec.resized depth) cursor.old.rest.now) }
{
    let mut found = List::new(alloc);
    found.push(resized(alloc, cursor, depth)?)?;
    while cursor.sees_symbol(Symbol::Comma) {
        cursor.symbol(Symbol::Comma)?;
        found.push(resized(alloc, cursor, depth)?)?;
    }
    Ok(found)
}

fn preserve(cursor: &mut Cursor<'_>) -> Result<bool, ReadStop>
    ensures { Runs result stopped_at cursor.new.rest.now (spec.preserve 0 cursor.old.rest.now) }
{
    if cursor.sees_keyword(Keyword::Preserve) {
        cursor.keyword(Keyword::Preserve)?;
        Ok(true)
    } else {
        Ok(false)
    }
}

fn redim(alloc: Global, cursor: &mut Cursor<'_>, depth: u32) -> Result<Statement, ReadStop>
    ensures { Runs result stopped_at cursor.new.rest.now (spec.redim depth cursor.old.rest.now) }
{
    if depth == 0 {
        return Err(ReadStop::Fault);
    }
    let line = cursor.keyword(Keyword::ReDim)?;
    let preserve = preserve(cursor)?;
    let arrays = arrays(alloc, cursor, depth)?;
    let kind = StatementKind::ReDim { preserve, arrays };
    Ok(Statement { line, kind })
}

fn set(alloc: Global, cursor: &mut Cursor<'_>, depth: u32) -> Result<Statement, ReadStop>
    ensures { Runs result stopped_at cursor.new.rest.now (spec.set depth cursor.old.rest.now) }
{
    let line = cursor.keyword(Keyword::Set)?;
    let (_, head, steps) = path_at(alloc, cursor, depth)?;
    let value = value_behind(alloc, cursor, depth)?;
    let target = Path { head, steps };
    let kind = StatementKind::Set { target, value };
    Ok(Statement { line, kind })
}

fn call_path(alloc: Global, cursor: &mut Cursor<'_>, depth: u32) -> Result<Statement, ReadStop>
    ensures { Runs result stopped_at cursor.new.rest.now (spec.call_path depth cursor.old.rest.now) }
{
    let line = cursor.keyword(Keyword::Call)?;
    let (_, head, steps) = path_at(alloc, cursor, depth)?;
    let callee = Path { head, steps };
    let kind = StatementKind::CallPath { callee };
    Ok(Statement { line, kind })
}

fn page_write(alloc: Global, cursor: &mut Cursor<'_>, depth: u32) -> Result<Statement, ReadStop>
    ensures { Runs result stopped_at cursor.new.rest.now (spec.page_write depth cursor.old.rest.now) }
{
    let line = cursor.word(&TokenKind::PageWrite)?;
    let value = expression(alloc, cursor, depth)?;
    let kind = StatementKind::PageWrite { value };
    Ok(Statement { line, kind })
}

/// A statement of the page, or one that begins with a path.
fn page_or_path(
    alloc: Global,
    cursor: &mut Cursor<'_>,
    looser: Looser,
    depth: u32,
) -> Result<Statement, ReadStop>
    ensures { Runs result stopped_at cursor.new.rest.now
        (reader.case (reader.sees (TokenKind.PageText [])) spec.page_text (reader.case (reader.sees
        TokenKind.PageWrite) (spec.page_write depth) (calls.from_path (rules looser) depth)) cursor.old.rest.now) }
{
    if cursor.sees_page_text() {
        page_text(cursor)
    } else if cursor.sees(&TokenKind::PageWrite) {
        page_write(alloc, cursor, depth)
    } else {
        from_path(alloc, cursor, looser, depth)
    }
}

/// A statement that holds no other.
pub fn simple(
    alloc: Global,
    cursor: &mut Cursor<'_>,
    looser: Looser,
    depth: u32,
) -> Result<Statement, ReadStop>
    ensures { Runs result stopped_at cursor.new.rest.now (spec.simple (rules looser) depth cursor.old.rest.now) }
{
    if cursor.sees_keyword(Keyword::Dim) {
        dim(alloc, cursor, depth)
    } else if cursor.sees_keyword(Keyword::ReDim) {
        redim(alloc, cursor, depth)
    } else if cursor.sees_keyword(Keyword::Set) {
        set(alloc, cursor, depth)
    } else if cursor.sees_keyword(Keyword::Call) {
        call_path(alloc, cursor, depth)
    } else if cursor.sees_keyword(Keyword::Exit) {
        exit_statement(cursor)
    } else if cursor.sees_keyword(Keyword::On) {
        on_error(cursor)
    } else if cursor.sees_keyword(Keyword::Erase) {
        erase(alloc, cursor)
    } else {
        page_or_path(alloc, cursor, looser, depth)
    }
}
