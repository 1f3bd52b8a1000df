//! Reading declarations. Each function reads what the rule of its name spells, where `depth` more constructs
//! may open.
ghost use Rattle.std.specs.Prelude.{◌≡◌, ◌∷◌};
ghost use Rattle.vb_syntax.specs.grammar.Declarations.{number_of};
ghost use Rattle.vb_read.specs.Reader as reader;
ghost use Rattle.vb_read.specs.ReadDeclarations as spec;
ghost use Rattle.vb_read.specs.ReadExpressions.{list_of, more_of};
ghost use Rattle.vb_value.specs.Outcome.{Runs};
ghost use Rattle.vb_read.specs.Reader.{stopped_at};

use crate::cursor::{Cursor, ReadStop};
use std::alloc::Global;
use vb_syntax::{Access, Constant, ConstantValue, Declared, Parameter};
use vb_value::{Keyword, List, Symbol, Text};

/// `Public` or `Private`, and its line.
pub fn access_word(cursor: &mut Cursor<'_>) -> Result<(u32, Access), ReadStop>
    ensures { Runs result stopped_at cursor.new.rest.now (spec.access_word cursor.old.rest.now) }
{
    if cursor.sees_keyword(Keyword::Public) {
        let line = cursor.keyword(Keyword::Public)?;
        Ok((line, Access::Public))
    } else {
        let line = cursor.keyword(Keyword::Private)?;
        Ok((line, Access::Private))
    }
}

/// The line of a declaration whose own first word stands in `line`, and the word before it.
pub fn begun(before: Option<(u32, Access)>, line: u32) -> (u32, Option<Access>)
    ensures { result ≡ spec.begun before line }
{
    match before {
        Some((line, access)) => (line, Some(access)),
        None => (line, None),
    }
}

fn numbers(alloc: Global, cursor: &mut Cursor<'_>) -> Result<List<i32>, ReadStop>
    ensures { Runs result stopped_at cursor.new.rest.now (list_of (reader.one number_of) cursor.old.rest.now) }
{
    let mut found = List::new(alloc);
    found.push(cursor.number()?)?;
    while cursor.sees_symbol(Symbol::Comma) {
        cursor.symbol(Symbol::Comma)?;
        found.push(cursor.number()?)?;
    }
    Ok(found)
}

fn bounds(alloc: Global, cursor: &mut Cursor<'_>, depth: u32) -> Result<List<i32>, ReadStop>
    ensures { Runs result stopped_at cursor.new.rest.now (spec.bounds depth cursor.old.rest.now) }
{
    if depth == 0 {
        return Err(ReadStop::Fault);
    }
    cursor.symbol(Symbol::Open)?;
    let found = if cursor.sees_symbol(Symbol::Close) {
        List::new(alloc)
    } else {
        numbers(alloc, cursor)?
    };
    cursor.symbol(Symbol::Close)?;
    Ok(found)
}

fn bounds_behind(
    alloc: Global,
    cursor: &mut Cursor<'_>,
    depth: u32,
) -> Result<Option<List<i32>>, ReadStop>
    ensures { Runs result stopped_at cursor.new.rest.now (spec.bounds_behind depth cursor.old.rest.now) }
{
    if cursor.sees_symbol(Symbol::Open) {
        Ok(Some(bounds(alloc, cursor, depth)?))
    } else {
        Ok(None)
    }
}

/// A variable of which the name was read.
pub fn declared_from(
    alloc: Global,
    cursor: &mut Cursor<'_>,
    depth: u32,
    name: Text,
) -> Result<Declared, ReadStop>
    ensures { Runs result stopped_at cursor.new.rest.now (spec.declared_from depth name cursor.old.rest.now) }
{
    let bounds = bounds_behind(alloc, cursor, depth)?;
    Ok(Declared { name, bounds })
}

fn declared(alloc: Global, cursor: &mut Cursor<'_>, depth: u32) -> Result<Declared, ReadStop>
    ensures { Runs result stopped_at cursor.new.rest.now (spec.declared depth cursor.old.rest.now) }
{
    let name = cursor.name()?;
    declared_from(alloc, cursor, depth, name)
}

/// Variables of which the first was read.
pub fn variables_from(
    alloc: Global,
    cursor: &mut Cursor<'_>,
    depth: u32,
    first: Declared,
) -> Result<List<Declared>, ReadStop>
    ensures { Runs result stopped_at cursor.new.rest.now
        ((reader.◌>>=◌ (more_of (spec.declared depth)) (λ more. reader.pure (first ∷ more))) cursor.old.rest.now) }
{
    let mut found = List::new(alloc);
    found.push(first)?;
    while cursor.sees_symbol(Symbol::Comma) {
        cursor.symbol(Symbol::Comma)?;
        found.push(declared(alloc, cursor, depth)?)?;
    }
    Ok(found)
}

/// Variables with commas between.
pub fn variables(
    alloc: Global,
    cursor: &mut Cursor<'_>,
    depth: u32,
) -> Result<List<Declared>, ReadStop>
    ensures { Runs result stopped_at cursor.new.rest.now (list_of (spec.declared depth) cursor.old.rest.now) }
{
    let first = declared(alloc, cursor, depth)?;
    variables_from(alloc, cursor, depth, first)
}

fn constant_value(cursor: &mut Cursor<'_>) -> Result<ConstantValue, ReadStop>
    ensures { Runs result stopped_at cursor.new.rest.now (spec.constant_value cursor.old.rest.now) }
{
    if cursor.sees_symbol(Symbol::Minus) {
        cursor.symbol(Symbol::Minus)?;
        cursor.negative()
    } else {
        Ok(ConstantValue::Literal(cursor.literal()?))
    }
}

fn constant(cursor: &mut Cursor<'_>) -> Result<Constant, ReadStop>
    ensures { Runs result stopped_at cursor.new.rest.now (spec.constant cursor.old.rest.now) }
{
    let name = cursor.name()?;
    cursor.symbol(Symbol::Equal)?;
    let value = constant_value(cursor)?;
    Ok(Constant { name, value })
}

/// Constants with commas between.
pub fn constants(alloc: Global, cursor: &mut Cursor<'_>) -> Result<List<Constant>, ReadStop>
    ensures { Runs result stopped_at cursor.new.rest.now (list_of spec.constant cursor.old.rest.now) }
{
    let mut found = List::new(alloc);
    found.push(constant(cursor)?)?;
    while cursor.sees_symbol(Symbol::Comma) {
        cursor.symbol(Symbol::Comma)?;
        found.push(constant(cursor)?)?;
    }
    Ok(found)
}

fn passing(cursor: &mut Cursor<'_>) -> Result<bool, ReadStop>
    ensures { Runs result stopped_at cursor.new.rest.now (spec.passing cursor.old.rest.now) }
{
    if cursor.sees_keyword(Keyword::ByVal) {
        cursor.keyword(Keyword::ByVal)?;
        Ok(true)
    } else if cursor.sees_keyword(Keyword::ByRef) {
        cursor.keyword(Keyword::ByRef)?;
        Ok(false)
    } else {
        Ok(false)
    }
}

fn array_mark(cursor: &mut Cursor<'_>, depth: u32) -> Result<(), ReadStop>
    ensures { Runs result stopped_at cursor.new.rest.now (spec.array_mark depth cursor.old.rest.now) }
{
    if !cursor.sees_symbol(Symbol::Open) {
        return Ok(());
    }
    if depth == 0 {
        return Err(ReadStop::Fault);
    }
    cursor.symbol(Symbol::Open)?;
    cursor.symbol(Symbol::Close)?;
    Ok(())
}

fn parameter(cursor: &mut Cursor<'_>, depth: u32) -> Result<Parameter, ReadStop>
    ensures { Runs result stopped_at cursor.new.rest.now (spec.parameter depth cursor.old.rest.now) }
{
    let by_value = passing(cursor)?;
    let name = cursor.name()?;
    array_mark(cursor, depth)?;
    Ok(Parameter { by_value, name })
}

fn parameter_list(
    alloc: Global,
    cursor: &mut Cursor<'_>,
    depth: u32,
) -> Result<List<Parameter>, ReadStop>
    ensures { Runs result stopped_at cursor.new.rest.now (list_of (spec.parameter depth) cursor.old.rest.now) }
{
    let mut found = List::new(alloc);
    found.push(parameter(cursor, depth)?)?;
    while cursor.sees_symbol(Symbol::Comma) {
        cursor.symbol(Symbol::Comma)?;
        found.push(parameter(cursor, depth)?)?;
    }
    Ok(found)
}

#[tactic(auto, using(crate::proofs::Depths::opened_inside))]
fn opened_parameters(
    alloc: Global,
    cursor: &mut Cursor<'_>,
    depth: u32,
) -> Result<List<Parameter>, ReadStop>
    ensures { Runs result stopped_at cursor.new.rest.now (spec.opened_parameters depth cursor.old.rest.now) }
{
    if depth == 0 {
        return Err(ReadStop::Fault);
    }
    cursor.symbol(Symbol::Open)?;
    let found = if cursor.sees_symbol(Symbol::Close) {
        List::new(alloc)
    } else {
        parameter_list(alloc, cursor, depth - 1)?
    };
    cursor.symbol(Symbol::Close)?;
    Ok(found)
}

/// The parameters of a procedure, or none.
pub fn parameters(
    alloc: Global,
    cursor: &mut Cursor<'_>,
    depth: u32,
) -> Result<List<Parameter>, ReadStop>
    ensures { Runs result stopped_at cursor.new.rest.now (spec.parameters depth cursor.old.rest.now) }
{
    if cursor.sees_symbol(Symbol::Open) {
        opened_parameters(alloc, cursor, depth)
    } else {
        Ok(List::new(alloc))
    }
}
