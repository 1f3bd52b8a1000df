//! Reading the conditions of loops, and texts that the grammar does not have.
ghost use Rattle.std.specs.Prelude.{true};
ghost use Rattle.vb_syntax.specs.grammar.Units.{strict};
ghost use Rattle.vb_read.specs.ReadExpressions.{expressions};
ghost use Rattle.vb_read.specs.ReadStatements as spec;
ghost use Rattle.vb_value.specs.Outcome.{Runs};
ghost use Rattle.vb_read.specs.Reader.{stopped_at};

use crate::cursor::{Cursor, ReadStop};
use crate::expression::expression;
use std::alloc::Global;
use vb_syntax::{Condition, Repetition};
use vb_value::Keyword;

/// `While` or `Until`, its line, and whether it is the second.
fn loop_word(cursor: &mut Cursor<'_>) -> Result<(u32, bool), ReadStop>
    ensures { Runs result stopped_at cursor.new.rest.now (spec.loop_word cursor.old.rest.now) }
{
    if cursor.sees_keyword(Keyword::While) {
        let line = cursor.keyword(Keyword::While)?;
        Ok((line, false))
    } else {
        let line = cursor.keyword(Keyword::Until)?;
        Ok((line, true))
    }
}

/// The condition of a `Do`, and its line.
pub fn condition(
    alloc: Global,
    cursor: &mut Cursor<'_>,
    depth: u32,
) -> Result<(u32, Condition), ReadStop>
    ensures { Runs result stopped_at cursor.new.rest.now
        (spec.condition (expressions depth).expression cursor.old.rest.now) }
{
    let (line, is_until) = loop_word(cursor)?;
    let test = expression(alloc, cursor, depth)?;
    Ok((line, Condition { is_until, test }))
}

/// The condition behind `Loop`, or none.
pub fn loop_condition(
    alloc: Global,
    cursor: &mut Cursor<'_>,
    depth: u32,
) -> Result<Repetition, ReadStop>
    ensures { Runs result stopped_at cursor.new.rest.now
        (spec.loop_condition strict depth spec.no_blocks cursor.old.rest.now) }
{
    if cursor.sees_loop_word() {
        let (line, condition) = condition(alloc, cursor, depth)?;
        Ok(Repetition::After { line, condition })
    } else {
        Ok(Repetition::Endless)
    }
}

/// Passes over texts of the page and what ends them: blank ones, or any.
#[tactic(auto, unfolding(crate::specs::ReadStatements::passed_texts))]
pub fn passed_texts(cursor: &mut Cursor<'_>, any: bool) -> Result<(), ReadStop>
    ensures { Runs result stopped_at cursor.new.rest.now (spec.passed_texts any cursor.old.rest.now) }
{
    while cursor.sees_passed(any) {
        cursor.pass(any)?;
        cursor.end()?;
    }
    Ok(())
}
