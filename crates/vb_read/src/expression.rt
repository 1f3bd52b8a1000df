//! Reading expressions. Each function reads what the rule of its name spells, where `depth` more constructs
//! may open.
ghost use Rattle.std.specs.Prelude.{◌≡◌, ◌≤◌, ◌<◌, ◌≢◌, ◌+◌, ◌∷◌, IfOk};
ghost use Rattle.vb_syntax.specs.grammar.Expressions.{chain};
ghost use Rattle.vb_read.specs.Reader as reader;
ghost use Rattle.vb_read.specs.ReadExpressions as spec;
ghost use Rattle.vb_value.specs.Outcome.{Runs};
ghost use Rattle.vb_read.specs.Reader.{stopped_at};
ghost use Rattle.vb_read.specs.Depths.{opens, inside};

use crate::cursor::{Cursor, ReadStop};
use std::alloc::Global;
use vb_syntax::{Expression, Operation, Path, PathHead, Step};
use vb_value::{Boxed, Keyword, List, Memory, Symbol};

/// The level of `Not`, counted from the tightest.
pub const NOT_LEVEL: u32 = 7;
/// The level of `Imp`, the loosest.
pub const LAST_LEVEL: u32 = 12;

#[cycle(expression)]
fn group(alloc: Global, cursor: &mut Cursor<'_>, depth: u32) -> Result<List<Expression>, ReadStop>
    ensures { Runs result stopped_at cursor.new.rest.now
        (spec.group (opens depth) (inside depth) cursor.old.rest.now) }
{
    if depth == 0 {
        return Err(ReadStop::Fault);
    }
    cursor.symbol(Symbol::Open)?;
    let arguments = if cursor.sees_symbol(Symbol::Close) {
        List::new(alloc)
    } else {
        list(alloc, cursor, depth - 1)?
    };
    cursor.symbol(Symbol::Close)?;
    Ok(arguments)
}

/// Expressions with commas between.
#[cycle(expression)]
pub fn list(
    alloc: Global,
    cursor: &mut Cursor<'_>,
    depth: u32,
) -> Result<List<Expression>, ReadStop>
    ensures { Runs result stopped_at cursor.new.rest.now
        (spec.list_of (spec.expressions depth).expression cursor.old.rest.now) }
{
    let first = expression(alloc, cursor, depth)?;
    list_from(alloc, cursor, depth, first)
}

/// Expressions with commas between, of which the first was read.
#[cycle(expression)]
pub fn list_from(
    alloc: Global,
    cursor: &mut Cursor<'_>,
    depth: u32,
    first: Expression,
) -> Result<List<Expression>, ReadStop>
    ensures { Runs result stopped_at cursor.new.rest.now
        ((reader.◌>>=◌ (spec.more_of (spec.expressions depth).expression) (λ more. reader.pure (first ∷ more)))
        cursor.old.rest.now) }
{
    let mut found = List::new(alloc);
    found.push(first)?;
    while cursor.sees_symbol(Symbol::Comma) {
        cursor.symbol(Symbol::Comma)?;
        found.push(expression(alloc, cursor, depth)?)?;
    }
    Ok(found)
}

#[cycle(expression)]
fn step(alloc: Global, cursor: &mut Cursor<'_>, depth: u32) -> Result<Step, ReadStop>
    ensures { Runs result stopped_at cursor.new.rest.now
        (spec.step (opens depth) (inside depth) cursor.old.rest.now) }
{
    if cursor.sees_symbol(Symbol::PathPoint) {
        cursor.symbol(Symbol::PathPoint)?;
        Ok(Step::Member(cursor.name()?))
    } else {
        Ok(Step::Group(group(alloc, cursor, depth)?))
    }
}

/// What stands behind the head of a path.
#[cycle(expression)]
pub fn steps(alloc: Global, cursor: &mut Cursor<'_>, depth: u32) -> Result<List<Step>, ReadStop>
    ensures { Runs result stopped_at cursor.new.rest.now
        (spec.steps (opens depth) (inside depth) cursor.old.rest.now) }
{
    let mut found = List::new(alloc);
    while cursor.goes_on_path() {
        found.push(step(alloc, cursor, depth)?)?;
    }
    Ok(found)
}

/// Where a path begins.
fn path_head(cursor: &mut Cursor<'_>) -> Result<PathHead, ReadStop>
    ensures { Runs result stopped_at cursor.new.rest.now (spec.path_head cursor.old.rest.now) }
{
    if cursor.sees_name() {
        Ok(PathHead::Name(cursor.name()?))
    } else if cursor.sees_keyword(Keyword::Me) {
        cursor.keyword(Keyword::Me)?;
        Ok(PathHead::Me)
    } else {
        cursor.symbol(Symbol::WithPoint)?;
        Ok(PathHead::With(cursor.name()?))
    }
}

#[cycle(expression)]
fn path(alloc: Global, cursor: &mut Cursor<'_>, depth: u32) -> Result<Path, ReadStop>
    ensures { Runs result stopped_at cursor.new.rest.now
        (spec.path (opens depth) (inside depth) cursor.old.rest.now) }
{
    let head = path_head(cursor)?;
    let steps = steps(alloc, cursor, depth)?;
    Ok(Path { head, steps })
}

#[cycle(expression)]
fn parenthesis(alloc: Global, cursor: &mut Cursor<'_>, depth: u32) -> Result<Expression, ReadStop>
    ensures { Runs result stopped_at cursor.new.rest.now
        (spec.parenthesis (opens depth) (inside depth) cursor.old.rest.now) }
{
    if depth == 0 {
        return Err(ReadStop::Fault);
    }
    cursor.symbol(Symbol::Open)?;
    let inner = expression(alloc, cursor, depth - 1)?;
    cursor.symbol(Symbol::Close)?;
    Ok(Expression::Parenthesis(Boxed::new(alloc, inner)?))
}

#[cycle(expression)]
fn negative(alloc: Global, cursor: &mut Cursor<'_>, depth: u32) -> Result<Expression, ReadStop>
    ensures { Runs result stopped_at cursor.new.rest.now
        (spec.negative (opens depth) (inside depth) cursor.old.rest.now) }
{
    if depth == 0 {
        return Err(ReadStop::Fault);
    }
    cursor.symbol(Symbol::Minus)?;
    let operand = minus_operand(alloc, cursor, depth - 1)?;
    Ok(Expression::Negative(Boxed::new(alloc, operand)?))
}

#[cycle(expression)]
fn negated(alloc: Global, cursor: &mut Cursor<'_>, depth: u32) -> Result<Expression, ReadStop>
    ensures { Runs result stopped_at cursor.new.rest.now
        (spec.negated (opens depth) (inside depth) cursor.old.rest.now) }
{
    if depth == 0 {
        return Err(ReadStop::Fault);
    }
    cursor.keyword(Keyword::Not)?;
    let operand = not_operand(alloc, cursor, depth - 1)?;
    Ok(Expression::Not(Boxed::new(alloc, operand)?))
}

#[cycle(expression)]
fn minus_operand(alloc: Global, cursor: &mut Cursor<'_>, depth: u32) -> Result<Expression, ReadStop>
    ensures { Runs result stopped_at cursor.new.rest.now ((spec.expressions depth).primary cursor.old.rest.now) }
{
    primary(alloc, cursor, depth)
}

#[cycle(expression)]
fn not_operand(alloc: Global, cursor: &mut Cursor<'_>, depth: u32) -> Result<Expression, ReadStop>
    ensures { Runs result stopped_at cursor.new.rest.now ((spec.expressions depth).negated cursor.old.rest.now) }
{
    operators(alloc, cursor, depth, NOT_LEVEL)
}

/// A word that is an operand by itself.
fn leaf(cursor: &mut Cursor<'_>) -> Result<Expression, ReadStop>
    ensures { Runs result stopped_at cursor.new.rest.now (spec.leaf cursor.old.rest.now) }
{
    if cursor.sees_literal() {
        Ok(Expression::Literal(cursor.literal()?))
    } else if cursor.sees_keyword(Keyword::Nothing) {
        cursor.keyword(Keyword::Nothing)?;
        Ok(Expression::Nothing)
    } else {
        cursor.keyword(Keyword::New)?;
        Ok(Expression::New {
            class: cursor.name()?,
        })
    }
}

#[cycle(expression)]
fn primary(alloc: Global, cursor: &mut Cursor<'_>, depth: u32) -> Result<Expression, ReadStop>
    ensures { Runs result stopped_at cursor.new.rest.now
        (spec.primary (opens depth) (inside depth) cursor.old.rest.now) }
{
    if cursor.sees_leaf() {
        leaf(cursor)
    } else if cursor.sees_symbol(Symbol::Open) {
        parenthesis(alloc, cursor, depth)
    } else if cursor.sees_symbol(Symbol::Minus) {
        negative(alloc, cursor, depth)
    } else {
        Ok(Expression::Path(path(alloc, cursor, depth)?))
    }
}

/// An operator of the level, and its right operand.
#[cycle(expression)]
fn operation(
    alloc: Global,
    cursor: &mut Cursor<'_>,
    depth: u32,
    level: u32,
) -> Result<Operation, ReadStop>
    requires below { level < 12 }
    requires no_not { level ≢ 6 }
    ensures { Runs result stopped_at cursor.new.rest.now
        (spec.turn (level + 1) (spec.operators (opens depth) (inside depth) level) cursor.old.rest.now) }
{
    let operator = cursor.operator(level + 1)?;
    let operand = operators(alloc, cursor, depth, level)?;
    Ok(Operation { operator, operand })
}

/// The operators of a level, with their right operands.
#[cycle(expression)]
pub fn operations(
    alloc: Global,
    cursor: &mut Cursor<'_>,
    depth: u32,
    level: u32,
) -> Result<List<Operation>, ReadStop>
    requires below { level < 12 }
    requires no_not { level ≢ 6 }
    ensures { Runs result stopped_at cursor.new.rest.now
        (spec.turns (level + 1) (spec.operators (opens depth) (inside depth) level) cursor.old.rest.now) }
{
    let mut found = List::new(alloc);
    while cursor.sees_operator(level + 1) {
        found.push(operation(alloc, cursor, depth, level)?)?;
    }
    Ok(found)
}

/// An operand and the operations behind it.
pub fn chain(alloc: Global, first: Expression, rest: List<Operation>) -> Result<Expression, Memory>
    ensures { IfOk result (λ x. x ≡ chain first rest) }
{
    if rest.is_empty() {
        return Ok(first);
    }
    Ok(Expression::Chain {
        first: Boxed::new(alloc, first)?,
        rest,
    })
}

#[cycle(expression)]
fn chained(
    alloc: Global,
    cursor: &mut Cursor<'_>,
    depth: u32,
    level: u32,
) -> Result<Expression, ReadStop>
    requires below { level < 12 }
    requires no_not { level ≢ 6 }
    ensures { Runs result stopped_at cursor.new.rest.now
        (spec.chained (level + 1) (spec.operators (opens depth) (inside depth) level) cursor.old.rest.now) }
{
    let first = operators(alloc, cursor, depth, level)?;
    let rest = operations(alloc, cursor, depth, level)?;
    Ok(chain(alloc, first, rest)?)
}

/// An expression with operators up to the level.
#[cycle(expression)]
fn operators(
    alloc: Global,
    cursor: &mut Cursor<'_>,
    depth: u32,
    level: u32,
) -> Result<Expression, ReadStop>
    requires { level ≤ 12 }
    ensures { Runs result stopped_at cursor.new.rest.now
        (spec.operators (opens depth) (inside depth) level cursor.old.rest.now) }
{
    if level == 0 {
        primary(alloc, cursor, depth)
    } else if level != NOT_LEVEL {
        chained(alloc, cursor, depth, level - 1)
    } else if cursor.sees_keyword(Keyword::Not) {
        negated(alloc, cursor, depth)
    } else {
        operators(alloc, cursor, depth, NOT_LEVEL - 1)
    }
}

/// An expression.
#[cycle(expression)]
pub fn expression(
    alloc: Global,
    cursor: &mut Cursor<'_>,
    depth: u32,
) -> Result<Expression, ReadStop>
    ensures { Runs result stopped_at cursor.new.rest.now ((spec.expressions depth).expression cursor.old.rest.now) }
{
    operators(alloc, cursor, depth, LAST_LEVEL)
}
