//! Reading statements that begin with a path: assignments and calls.
ghost use Rattle.std.specs.Prelude.{◌≡◌, ◌<◌, ◌+◌, ◌==◌, ◌∷◌, IfOk, MatchOption};
ghost use Rattle.vb_syntax.specs.grammar.Expressions.{last_level, not_level};
ghost use Rattle.vb_read.specs.Reader as reader;
ghost use Rattle.vb_read.specs.ReadCalls as spec;
ghost use Rattle.vb_read.specs.ReadExpressions.{more_of, operators};
ghost use Rattle.vb_value.specs.Outcome.{Runs};
ghost use Rattle.vb_read.specs.Reader.{stopped_at};
ghost use Rattle.vb_read.specs.Depths.{opens, inside, rules};

use crate::cursor::{Cursor, ReadStop};
use crate::expression::{
    LAST_LEVEL, NOT_LEVEL, chain, expression, list, list_from, operations, steps,
};
use crate::looser::Looser;
use std::alloc::Global;
use vb_syntax::{Expression, Path, PathHead, Statement, StatementKind, Step};
use vb_value::{Boxed, Keyword, List, Memory, Symbol};

fn head_at(cursor: &mut Cursor<'_>) -> Result<(u32, PathHead), ReadStop>
    ensures { Runs result stopped_at cursor.new.rest.now (spec.head_at cursor.old.rest.now) }
{
    if cursor.sees_name() {
        cursor.named()
    } else if cursor.sees_keyword(Keyword::Me) {
        let line = cursor.keyword(Keyword::Me)?;
        Ok((line, PathHead::Me))
    } else {
        let line = cursor.symbol(Symbol::WithPoint)?;
        let name = cursor.name()?;
        Ok((line, PathHead::With(name)))
    }
}

/// A path in its parts, with the line on which it begins.
pub fn path_at(
    alloc: Global,
    cursor: &mut Cursor<'_>,
    depth: u32,
) -> Result<(u32, PathHead, List<Step>), ReadStop>
    ensures { Runs result stopped_at cursor.new.rest.now (spec.path_at depth cursor.old.rest.now) }
{
    let (line, head) = head_at(cursor)?;
    let steps = steps(alloc, cursor, depth)?;
    Ok((line, head, steps))
}

/// Takes a parenthesis at the end of a path's steps away, and answers what it holds.
#[tactic(auto, using(crate::proofs::CallTurns::tail_group, crate::proofs::CallTurns::tail_member))]
fn take_group(steps: &mut List<Step>) -> Result<Option<List<Expression>>, Memory>
    ensures { IfOk result (λ found. MatchOption found
        ((spec.tail steps.old ≡ spec.plain) × (steps.new ≡ steps.old))
        (λ held. spec.tail steps.old ≡ spec.grouped steps.new held)) }
{
    let Some(last) = steps.pop() else {
        return Ok(None);
    };
    match last {
        Step::Group(held) => Ok(Some(held)),
        Step::Member(name) => {
            steps.push(Step::Member(name))?;
            Ok(None)
        }
    }
}

/// The operators of one level behind a first operand.
fn level_from(
    alloc: Global,
    cursor: &mut Cursor<'_>,
    depth: u32,
    level: u32,
    first: Expression,
) -> Result<Expression, ReadStop>
    requires { level < 12 }
    ensures { Runs result stopped_at cursor.new.rest.now
        (spec.level_from (opens depth) (inside depth) ((level + 1) == not_level) (level + 1) (operators (opens depth)
        (inside depth) level) first cursor.old.rest.now) }
{
    if level + 1 == NOT_LEVEL {
        return Ok(first);
    }
    let rest = operations(alloc, cursor, depth, level)?;
    Ok(chain(alloc, first, rest)?)
}

/// An expression of which the first operand was read.
#[tactic(auto, using(crate::proofs::CallTurns::level_more))]
fn expression_from(
    alloc: Global,
    cursor: &mut Cursor<'_>,
    depth: u32,
    first: Expression,
) -> Result<Expression, ReadStop>
    ensures { Runs result stopped_at cursor.new.rest.now
        (spec.operators_from (opens depth) (inside depth) last_level first cursor.old.rest.now) }
{
    let mut found = first;
    for level in 0..LAST_LEVEL {
        found = level_from(alloc, cursor, depth, level, found)?;
    }
    Ok(found)
}

/// What stands behind an `=`.
pub fn value_behind(
    alloc: Global,
    cursor: &mut Cursor<'_>,
    depth: u32,
) -> Result<Expression, ReadStop>
    ensures { Runs result stopped_at cursor.new.rest.now (spec.value_behind depth cursor.old.rest.now) }
{
    cursor.symbol(Symbol::Equal)?;
    expression(alloc, cursor, depth)
}

fn arguments(
    alloc: Global,
    cursor: &mut Cursor<'_>,
    depth: u32,
) -> Result<List<Expression>, ReadStop>
    ensures { Runs result stopped_at cursor.new.rest.now (spec.arguments depth cursor.old.rest.now) }
{
    if cursor.begins_expression() {
        list(alloc, cursor, depth)
    } else {
        Ok(List::new(alloc))
    }
}

/// The arguments of a call, of which the first begins with the expression in parentheses.
fn arguments_behind(
    alloc: Global,
    cursor: &mut Cursor<'_>,
    depth: u32,
    held: Expression,
) -> Result<List<Expression>, ReadStop>
    ensures { Runs result stopped_at cursor.new.rest.now
        ((reader.◌>>=◌ (spec.operators_from (opens depth) (inside depth) last_level (Expression.Parenthesis held)) (λ
        first. reader.◌>>=◌ (more_of (spec.expression depth)) (λ more. reader.pure (first ∷ more))))
        cursor.old.rest.now) }
{
    let held = Expression::Parenthesis(Boxed::new(alloc, held)?);
    let first = expression_from(alloc, cursor, depth, held)?;
    list_from(alloc, cursor, depth, first)
}

/// The arguments of a call, where what a parenthesis holds was read as the end of the path.
fn arguments_from(
    alloc: Global,
    cursor: &mut Cursor<'_>,
    looser: Looser,
    depth: u32,
    mut held: List<Expression>,
) -> Result<List<Expression>, ReadStop>
    ensures { Runs result stopped_at cursor.new.rest.now
        (spec.arguments_from (rules looser) depth held cursor.old.rest.now) }
{
    if held.len() > 1 {
        return if looser.several {
            Ok(held)
        } else {
            Err(ReadStop::Fault)
        };
    }
    match held.pop() {
        Some(only) => arguments_behind(alloc, cursor, depth, only),
        None => Ok(held),
    }
}

/// The arguments behind a path, and the statement.
fn call_from(
    alloc: Global,
    cursor: &mut Cursor<'_>,
    looser: Looser,
    depth: u32,
    target: (u32, PathHead, List<Step>),
) -> Result<Statement, ReadStop>
    ensures { Runs result stopped_at cursor.new.rest.now
        (spec.call_from (rules looser) depth target.0 target.1 target.2 (spec.tail target.2) cursor.old.rest.now) }
{
    let (line, head, mut steps) = target;
    let arguments = match take_group(&mut steps)? {
        Some(held) => arguments_from(alloc, cursor, looser, depth, held)?,
        None => arguments(alloc, cursor, depth)?,
    };
    let callee = Path { head, steps };
    let kind = StatementKind::Call { callee, arguments };
    Ok(Statement { line, kind })
}

/// An assignment or a call.
pub fn from_path(
    alloc: Global,
    cursor: &mut Cursor<'_>,
    looser: Looser,
    depth: u32,
) -> Result<Statement, ReadStop>
    ensures { Runs result stopped_at cursor.new.rest.now (spec.from_path (rules looser) depth cursor.old.rest.now) }
{
    let target = path_at(alloc, cursor, depth)?;
    if !cursor.sees_symbol(Symbol::Equal) {
        return call_from(alloc, cursor, looser, depth, target);
    }
    let value = value_behind(alloc, cursor, depth)?;
    let (line, head, steps) = target;
    let target = Path { head, steps };
    let kind = StatementKind::Assign { target, value };
    Ok(Statement { line, kind })
}
