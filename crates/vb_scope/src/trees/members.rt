//! The fields of a class, and the numbers of its Subs.
ghost use Rattle.std.specs.Prelude.{◌≡◌, ◌++◌, map, false, true};
ghost use Rattle.std.specs.List.{flat_map};
ghost use Rattle.vb_value.specs.Outcome.{Adds, Gives};
ghost use Rattle.vb_syntax.specs.scope.Programs as spec;
ghost use Rattle.vb_scope.specs.Subs.{sub_found};

use crate::trees::heads::name_number;
use crate::trees::units::Script;
use vb_names::variable_of;
use vb_syntax::program::Field;
use vb_syntax::{ClassMember, Declared, FieldAccess, ProcedureKind};
use vb_value::{List, Memory, is_word};

fn is_private_field(access: FieldAccess) -> bool
    ensures { result ≡ spec.is_private_field access }
{
    match access {
        FieldAccess::Private => true,
        FieldAccess::Public | FieldAccess::Dim => false,
    }
}

/// Adds fields.
fn push_declared_fields(
    all: &mut List<Field>,
    script: Script<'_>,
    line: u32,
    access: FieldAccess,
    fields: &[Declared],
) -> Result<(), Memory>
    ensures { Adds result all.old all.new (map (spec.field_of script.entry.names.now line access) fields.now) }
{
    for field in fields {
        all.push(Field {
            name: name_number(script.names, &field.name),
            is_private: is_private_field(access),
            variable: variable_of(line, &field.bounds)?,
        })?;
    }
    Ok(())
}

/// Adds the fields that a member declares.
fn push_fields(
    all: &mut List<Field>,
    script: Script<'_>,
    member: &ClassMember,
) -> Result<(), Memory>
    ensures { Adds result all.old all.new (spec.fields_of script.entry.names.now member.now) }
{
    match member {
        ClassMember::Fields {
            line,
            access,
            fields,
        } => push_declared_fields(all, script, *line, *access, fields.as_slice()),
        ClassMember::Method(_) | ClassMember::Property(_) => Ok(()),
    }
}

/// The fields of members.
pub fn fields(script: Script<'_>, members: &[ClassMember]) -> Result<List<Field>, Memory>
    ensures { Gives result (flat_map (spec.fields_of script.entry.names.now) members.now) }
{
    let mut all = List::new(script.alloc);
    for member in members {
        push_fields(&mut all, script, member)?;
    }
    Ok(all)
}

/// Whether a member is a procedure, and whether it is a Sub of the name.
fn is_sub(word: &[u8], member: &ClassMember) -> Option<bool>
    ensures { result ≡ sub_found word.now member.now }
{
    match member {
        ClassMember::Fields { .. } => None,
        ClassMember::Method(found) => match found.kind {
            ProcedureKind::Sub => Some(is_word(word, found.name.as_slice())),
            ProcedureKind::Function => Some(false),
        },
        ClassMember::Property(_) => Some(false),
    }
}

/// The number of a Sub among the methods and properties of members.
pub fn sub_number(word: &[u8], mut members: &[ClassMember]) -> Result<Option<u32>, Memory>
    ensures { Gives result (spec.sub_number word.now members.entry.now) }
{
    let mut number = 0u32;
    while let [member, rest @ ..] = members {
        match is_sub(word, member) {
            None => {}
            Some(true) => return Ok(Some(number)),
            Some(false) => {
                if number == u32::MAX {
                    return Err(Memory);
                }
                number += 1;
            }
        }
        members = rest;
    }
    Ok(None)
}
