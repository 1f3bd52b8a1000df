//! Reading procedures, classes and whole scripts. Each function reads what the rule of its name spells, where
//! `depth` more constructs may open. What a word before it may begin is read from behind that word.
ghost use Rattle.std.specs.Prelude.{◌≡◌, ◌++◌};
ghost use Rattle.vb_syntax.specs.grammar.Units.{strict};
ghost use Rattle.vb_read.specs.Reader as reader;
ghost use Rattle.vb_read.specs.ReadUnits as spec;
ghost use Rattle.vb_value.specs.Outcome.{Runs};
ghost use Rattle.vb_read.specs.Reader.{stopped_at};
ghost use Rattle.vb_read.specs.Depths.{rules};

use crate::class::class;
use crate::cursor::{Cursor, ReadStop};
use crate::declaration::{access_word, variables};
use crate::ends::with_end;
use crate::looser::Looser;
use crate::procedure::procedure;
use crate::simple::const_from;
use crate::statement::sentence;
use std::alloc::Global;
use vb_syntax::{Access, Item, Statement, StatementKind, Unit};
use vb_value::{Keyword, List};

/// What stands behind `Public` or `Private` at the top.
fn item_behind(
    alloc: Global,
    cursor: &mut Cursor<'_>,
    looser: Looser,
    depth: u32,
    before: (u32, Access),
) -> Result<Item, ReadStop>
    ensures { Runs result stopped_at cursor.new.rest.now
        (spec.item_behind (rules looser) depth before cursor.old.rest.now) }
{
    if cursor.sees_keyword(Keyword::Const) {
        Ok(Item::Statement(const_from(alloc, cursor, Some(before))?))
    } else if cursor.sees_procedure() {
        Ok(Item::Procedure(procedure(alloc, cursor, looser, depth, Some(before))?))
    } else {
        let variables = variables(alloc, cursor, depth)?;
        let (line, access) = before;
        Ok(Item::Variables {
            line,
            access,
            variables,
        })
    }
}

/// An item that is no statement.
fn other_item(
    alloc: Global,
    cursor: &mut Cursor<'_>,
    looser: Looser,
    depth: u32,
) -> Result<Item, ReadStop>
    ensures { Runs result stopped_at cursor.new.rest.now (spec.other_item (rules looser) depth cursor.old.rest.now) }
{
    if cursor.sees_access() {
        let before = access_word(cursor)?;
        item_behind(alloc, cursor, looser, depth, before)
    } else if cursor.sees_procedure() {
        Ok(Item::Procedure(procedure(alloc, cursor, looser, depth, None)?))
    } else {
        Ok(Item::Class(class(alloc, cursor, looser, depth)?))
    }
}

/// An item, and what ends it.
fn item_line(
    alloc: Global,
    cursor: &mut Cursor<'_>,
    looser: Looser,
    depth: u32,
) -> Result<Item, ReadStop>
    ensures { Runs result stopped_at cursor.new.rest.now (spec.item_line (rules looser) depth cursor.old.rest.now) }
{
    if !cursor.sees_other_item() {
        return Ok(Item::Statement(sentence(alloc, cursor, looser, depth)?));
    }
    let found = other_item(alloc, cursor, looser, depth)?;
    with_end(cursor, found)
}

/// The items that come next, behind those that were found.
fn items(
    alloc: Global,
    cursor: &mut Cursor<'_>,
    looser: Looser,
    depth: u32,
    mut found: List<Item>,
) -> Result<List<Item>, ReadStop>
    ensures { Runs result stopped_at cursor.new.rest.now
        ((reader.◌>>=◌ (spec.items (rules looser) depth) (λ more. reader.pure (found ++ more))) cursor.old.rest.now) }
{
    while cursor.begins_item() {
        found.push(item_line(alloc, cursor, looser, depth)?)?;
    }
    Ok(found)
}

/// Takes what ends nothing at the beginning of a script.
fn first_end(cursor: &mut Cursor<'_>) -> Result<(), ReadStop>
    ensures { Runs result stopped_at cursor.new.rest.now (spec.first_end strict cursor.old.rest.now) }
{
    if cursor.sees_break() {
        cursor.end()
    } else {
        Ok(())
    }
}

/// Takes `Option Explicit`, and answers whether it stands there.
fn option_explicit(cursor: &mut Cursor<'_>) -> Result<bool, ReadStop>
    ensures { Runs result stopped_at cursor.new.rest.now (spec.option_explicit strict cursor.old.rest.now) }
{
    if cursor.sees_keyword(Keyword::Option) {
        cursor.keyword(Keyword::Option)?;
        cursor.quoted(b"explicit")?;
        cursor.end()?;
        Ok(true)
    } else {
        Ok(false)
    }
}

/// A blank text as an item, and what ends it.
fn blank_item(cursor: &mut Cursor<'_>) -> Result<Item, ReadStop>
    ensures { Runs result stopped_at cursor.new.rest.now (spec.blank_item cursor.old.rest.now) }
{
    let (line, text) = cursor.blank_text()?;
    let kind = StatementKind::PageText { text };
    with_end(cursor, Item::Statement(Statement { line, kind }))
}

/// The blank texts that a script begins with.
fn blank_items(alloc: Global, cursor: &mut Cursor<'_>) -> Result<List<Item>, ReadStop>
    ensures { Runs result stopped_at cursor.new.rest.now (spec.blank_items cursor.old.rest.now) }
{
    let mut found = List::new(alloc);
    while cursor.sees_blank_text() {
        found.push(blank_item(cursor)?)?;
    }
    Ok(found)
}

/// The blank texts of which the script keeps those with no `Option Explicit` behind them.
fn kept(alloc: Global, option_explicit: bool, first: List<Item>) -> List<Item>
    ensures { result ≡ spec.kept option_explicit first }
{
    if option_explicit {
        List::new(alloc)
    } else {
        first
    }
}

/// Reads one script from the front of the words, where `depth` constructs may be open at one place. Words behind it are
/// left, and no fault of it. It calls itself a few times for each construct that is open, and never for the length of
/// the script.
pub fn read_unit(
    alloc: Global,
    cursor: &mut Cursor<'_>,
    looser: Looser,
    depth: u32,
) -> Result<Unit, ReadStop>
    ensures { Runs result stopped_at cursor.new.rest.now (spec.unit (rules looser) depth cursor.old.rest.now) }
{
    first_end(cursor)?;
    let first = blank_items(alloc, cursor)?;
    let option_explicit = option_explicit(cursor)?;
    let found = kept(alloc, option_explicit, first);
    let items = items(alloc, cursor, looser, depth, found)?;
    Ok(Unit {
        option_explicit,
        items,
    })
}
