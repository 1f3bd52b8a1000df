//! Reading the statements of one line. Each function reads what the rule of its name spells, where `depth` more
//! constructs may open.
ghost use Rattle.std.specs.Prelude.{◌||◌, true, false, suc};
ghost use Rattle.vb_read.specs.Reader as reader;
ghost use Rattle.vb_read.specs.Heads.{head_of};
ghost use Rattle.vb_read.specs.ReadExpressions.{expressions};
ghost use Rattle.vb_read.specs.ReadLines as spec;
ghost use Rattle.vb_read.specs.ReadStatements.{blocks, blocks_inside};
ghost use Rattle.vb_value.specs.Outcome.{Runs};
ghost use Rattle.vb_read.specs.Reader.{stopped_at};
ghost use Rattle.vb_read.specs.Depths.{rules};

use crate::cursor::{Cursor, ReadStop};
use crate::expression::expression;
use crate::looser::Looser;
use crate::simple::simple;
use std::alloc::Global;
use vb_syntax::{Expression, Statement, StatementKind};
use vb_value::{Keyword, List, Symbol, TokenKind};

/// The statements of a line, whether an Else behind them would belong to an If in them, and whether a ":" was
/// taken behind them.
pub type LineRead = (List<Statement>, bool, bool);

/// The same of a one-line If.
pub type LastRead = (Statement, bool, bool);

/// What a one-line If begins with.
#[derive(Drop)]
pub struct Head {
    /// The line of its first word.
    pub line: u32,
    /// Its condition.
    pub condition: Expression,
}

/// What stands behind the first branch of a one-line If.
#[cycle(line)]
fn else_line(
    alloc: Global,
    cursor: &mut Cursor<'_>,
    looser: Looser,
    within: u32,
    head: Head,
    body: LineRead,
) -> Result<LastRead, ReadStop>
    ensures { Runs result stopped_at cursor.new.rest.now
        (spec.else_line (rules looser) (suc within) (blocks (rules looser) within) (body.2 || body.1) head.line
        head.condition body cursor.old.rest.now) }
{
    let Head { line, condition } = head;
    let (then, takes_else, ended) = body;
    if ended || takes_else || !cursor.sees_keyword(Keyword::Else) {
        let kind = StatementKind::LineIf {
            condition,
            then,
            otherwise: None,
        };
        return Ok((Statement { line, kind }, true, ended));
    }
    cursor.keyword(Keyword::Else)?;
    let (otherwise, takes_else, ended) = line_of(alloc, cursor, looser, within)?;
    let kind = StatementKind::LineIf {
        condition,
        then,
        otherwise: Some(otherwise),
    };
    Ok((Statement { line, kind }, takes_else, ended))
}

/// What stands behind the `Then` of a one-line If.
#[cycle(line)]
pub fn line_if_from(
    alloc: Global,
    cursor: &mut Cursor<'_>,
    looser: Looser,
    within: u32,
    head: Head,
) -> Result<LastRead, ReadStop>
    ensures { Runs result stopped_at cursor.new.rest.now
        (spec.line_if_from (rules looser) (suc within) (blocks (rules looser) within) head.line head.condition
        cursor.old.rest.now) }
{
    let body = line_of(alloc, cursor, looser, within)?;
    else_line(alloc, cursor, looser, within, head, body)
}

/// `If`, a condition and `Then`.
pub fn if_head(alloc: Global, cursor: &mut Cursor<'_>, within: u32) -> Result<Head, ReadStop>
    ensures { Runs result stopped_at cursor.new.rest.now
        (head_of (expressions within).expression cursor.old.rest.now) }
{
    let line = cursor.keyword(Keyword::If)?;
    let condition = expression(alloc, cursor, within)?;
    cursor.keyword(Keyword::Then)?;
    Ok(Head { line, condition })
}

#[cycle(line)]
fn line_if(
    alloc: Global,
    cursor: &mut Cursor<'_>,
    looser: Looser,
    depth: u32,
) -> Result<LastRead, ReadStop>
    ensures { Runs result stopped_at cursor.new.rest.now
        (spec.line_if (rules looser) depth (blocks_inside (rules looser) depth) cursor.old.rest.now) }
{
    if depth == 0 {
        return Err(ReadStop::Fault);
    }
    let head = if_head(alloc, cursor, depth - 1)?;
    line_if_from(alloc, cursor, looser, depth - 1, head)
}

/// Behind a statement of a line: nothing where another follows, else whether a ":" was taken.
fn behind_simple(cursor: &mut Cursor<'_>) -> Result<Option<bool>, ReadStop>
    ensures { Runs result stopped_at cursor.new.rest.now
        (reader.case (reader.sees (TokenKind.Symbol Symbol.Colon)) (reader.◌>>◌ (reader.symbol Symbol.Colon)
        (reader.case spec.begins_line_statement (reader.pure None) (reader.pure (Some true)))) (reader.pure (Some
        false)) cursor.old.rest.now) }
{
    if !cursor.sees_symbol(Symbol::Colon) {
        return Ok(Some(false));
    }
    cursor.symbol(Symbol::Colon)?;
    if cursor.begins_line_statement() {
        Ok(None)
    } else {
        Ok(Some(true))
    }
}

/// The statements of a line.
#[cycle(line)]
fn line_of(
    alloc: Global,
    cursor: &mut Cursor<'_>,
    looser: Looser,
    depth: u32,
) -> Result<LineRead, ReadStop>
    ensures { Runs result stopped_at cursor.new.rest.now ((blocks (rules looser) depth).line cursor.old.rest.now) }
{
    let mut statements = List::new(alloc);
    while !cursor.sees_keyword(Keyword::If) {
        statements.push(simple(alloc, cursor, looser, depth)?)?;
        if let Some(ended) = behind_simple(cursor)? {
            return Ok((statements, false, ended));
        }
    }
    let (last, takes_else, ended) = line_if(alloc, cursor, looser, depth)?;
    statements.push(last)?;
    Ok((statements, takes_else, ended))
}
