//! What bodies and items say of names.
ghost use Rattle.std.specs.Prelude.{◌≡◌, ◌++◌, Some, None};
ghost use Rattle.std.specs.List.{flat_map};
ghost use Rattle.std.specs.Option.{option_copied};
ghost use Rattle.vb_syntax.specs.scope.Notes.{note};
ghost use Rattle.vb_syntax.specs.scope.Units as spec;
ghost use Rattle.vb_value.specs.Outcome.{Adds};
ghost use Rattle.vb_notes.specs.Bodies.{body_seen};

use crate::body::{Body, around_in};
use crate::notes::simple::note_variables;
use crate::notes::statements::{note_block, note_statement};
use crate::notes::words::{Notes, at_most, note as add};
use vb_syntax::{Around, ClassMember, Declared, Item, NoteKind, Parameter, PropertyKind};
use vb_value::{Copied, Memory, Text};

/// Nothing stands around the statements of the page.
const ON_PAGE: Around = Around {
    in_class: false,
    procedure: None,
    in_do: false,
    in_for: false,
    in_with: false,
};

/// Adds a declared method or property.
fn note_member_name(
    notes: &mut Notes,
    line: u32,
    name: &Text,
    accessor: Option<PropertyKind>,
) -> Result<(), Memory>
    ensures { Adds result notes.old notes.new (note line (NoteKind.Member name.now accessor)) }
{
    let name = name.copy()?;
    add(notes, line, NoteKind::Member { name, accessor })
}

/// Adds parameters.
fn note_parameters(notes: &mut Notes, line: u32, parameters: &[Parameter]) -> Result<(), Memory>
    ensures { Adds result notes.old notes.new (flat_map (spec.parameter_notes line) parameters.now) }
{
    for parameter in parameters {
        let variable = Declared {
            name: parameter.name.copy()?,
            bounds: None,
        };
        add(notes, line, NoteKind::Variable(variable))?;
    }
    Ok(())
}

/// Adds the name of a procedure's result, where there is one.
fn note_result(notes: &mut Notes, line: u32, given: Option<&Text>) -> Result<(), Memory>
    ensures { Adds result notes.old notes.new (spec.result_notes line (option_copied given.entry)) }
{
    match given {
        None => Ok(()),
        Some(name) => add(notes, line, NoteKind::Result(name.copy()?)),
    }
}

/// Adds what a procedure says: the name of its result, its parameters, of which there are 255 at most, and its
/// statements.
pub fn note_body(notes: &mut Notes, body: Body<'_>) -> Result<(), Memory>
    ensures { Adds result notes.old notes.new (spec.in_body (body_seen body.entry)) }
{
    note_result(notes, body.line, body.result)?;
    at_most(notes, 255, body.parameters.len(), body.line)?;
    note_parameters(notes, body.line, body.parameters.as_slice())?;
    note_block(notes, around_in(body), body.statements)
}

/// Adds what an item says as a part of the page.
pub fn note_item(notes: &mut Notes, item: &Item) -> Result<(), Memory>
    ensures { Adds result notes.old notes.new (spec.item_notes item.now) }
{
    match item {
        Item::Statement(found) => note_statement(notes, ON_PAGE, found),
        Item::Variables {
            line,
            access: _,
            variables,
        } => note_variables(notes, *line, variables.as_slice()),
        Item::Procedure(found) => add(notes, found.line, NoteKind::Procedure(found.name.copy()?)),
        Item::Class(found) => add(notes, found.line, NoteKind::Class(found.name.copy()?)),
    }
}

/// Adds what a member says as a part of its class.
pub fn note_member(notes: &mut Notes, member: &ClassMember) -> Result<(), Memory>
    ensures { Adds result notes.old notes.new (spec.member_notes member.now) }
{
    match member {
        ClassMember::Fields {
            line,
            access: _,
            fields,
        } => note_variables(notes, *line, fields.as_slice()),
        ClassMember::Method(found) => note_member_name(notes, found.line, &found.name, None),
        ClassMember::Property(found) => note_member_name(
            notes,
            found.line,
            &found.name,
            Some(found.kind),
        ),
    }
}

/// Adds what members say as parts of their class.
pub fn note_members(notes: &mut Notes, members: &[ClassMember]) -> Result<(), Memory>
    ensures { Adds result notes.old notes.new (flat_map spec.member_notes members.now) }
{
    for member in members {
        note_member(notes, member)?;
    }
    Ok(())
}
