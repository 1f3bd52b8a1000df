//! Reading classes, where `depth` more constructs may open.
ghost use Rattle.std.specs.Prelude.{◌≡◌};
ghost use Rattle.vb_read.specs.ReadUnits as spec;
ghost use Rattle.vb_value.specs.Outcome.{Runs};
ghost use Rattle.vb_read.specs.Reader.{stopped_at};
ghost use Rattle.vb_read.specs.Depths.{rules};

use crate::condition::passed_texts;
use crate::cursor::{Cursor, ReadStop};
use crate::declaration::{access_word, declared_from, variables_from};
use crate::ends::{with_end, with_last};
use crate::looser::Looser;
use crate::procedure::{procedure, property_alone, property_from};
use std::alloc::Global;
use vb_syntax::{Access, Class, ClassMember, FieldAccess};
use vb_value::{Keyword, List, Text};

/// Fields behind their access, where the name of the first was read.
fn fields_from(
    alloc: Global,
    cursor: &mut Cursor<'_>,
    depth: u32,
    first: (u32, FieldAccess),
    name: Text,
) -> Result<ClassMember, ReadStop>
    ensures { Runs result stopped_at cursor.new.rest.now
        (spec.fields_from depth first.0 first.1 name cursor.old.rest.now) }
{
    let variable = declared_from(alloc, cursor, depth, name)?;
    let fields = variables_from(alloc, cursor, depth, variable)?;
    let (line, access) = first;
    Ok(ClassMember::Fields {
        line,
        access,
        fields,
    })
}

fn dim_fields(alloc: Global, cursor: &mut Cursor<'_>, depth: u32) -> Result<ClassMember, ReadStop>
    ensures { Runs result stopped_at cursor.new.rest.now (spec.dim_fields depth cursor.old.rest.now) }
{
    let line = cursor.keyword(Keyword::Dim)?;
    let name = cursor.name()?;
    fields_from(alloc, cursor, depth, (line, FieldAccess::Dim), name)
}

/// The same word before fields.
fn field_access(access: Access) -> FieldAccess
    ensures { result ≡ spec.field_access access }
{
    match access {
        Access::Public => FieldAccess::Public,
        Access::Private => FieldAccess::Private,
    }
}

/// What stands behind an access and `Property`: a property, or fields of which the first has that name.
fn behind_property(
    alloc: Global,
    cursor: &mut Cursor<'_>,
    looser: Looser,
    depth: u32,
    before: (u32, Access),
    name: Text,
) -> Result<ClassMember, ReadStop>
    ensures { Runs result stopped_at cursor.new.rest.now
        (spec.behind_property (rules looser) depth before name cursor.old.rest.now) }
{
    let (line, access) = before;
    if cursor.sees_property_kind() {
        let found = property_from(alloc, cursor, looser, depth, (line, Some(access)))?;
        Ok(ClassMember::Property(found))
    } else {
        fields_from(alloc, cursor, depth, (line, field_access(access)), name)
    }
}

/// What stands behind `Public` or `Private` in a class.
fn behind_access(
    alloc: Global,
    cursor: &mut Cursor<'_>,
    looser: Looser,
    depth: u32,
    before: (u32, Access),
) -> Result<ClassMember, ReadStop>
    ensures { Runs result stopped_at cursor.new.rest.now
        (spec.behind_access (rules looser) depth before cursor.old.rest.now) }
{
    if cursor.sees_procedure() {
        let found = procedure(alloc, cursor, looser, depth, Some(before))?;
        Ok(ClassMember::Method(found))
    } else if cursor.sees_quoted(b"property") {
        let name = cursor.quoted_name(b"property")?;
        behind_property(alloc, cursor, looser, depth, before, name)
    } else {
        let name = cursor.name()?;
        let (line, access) = before;
        fields_from(alloc, cursor, depth, (line, field_access(access)), name)
    }
}

fn class_member(
    alloc: Global,
    cursor: &mut Cursor<'_>,
    looser: Looser,
    depth: u32,
) -> Result<ClassMember, ReadStop>
    ensures { Runs result stopped_at cursor.new.rest.now
        (spec.class_member (rules looser) depth cursor.old.rest.now) }
{
    if cursor.sees_access() {
        let before = access_word(cursor)?;
        behind_access(alloc, cursor, looser, depth, before)
    } else if cursor.sees_keyword(Keyword::Dim) {
        dim_fields(alloc, cursor, depth)
    } else if cursor.sees_procedure() {
        let found = procedure(alloc, cursor, looser, depth, None)?;
        Ok(ClassMember::Method(found))
    } else {
        let found = property_alone(alloc, cursor, looser, depth)?;
        Ok(ClassMember::Property(found))
    }
}

/// A member and what ends it, with the texts that are allowed behind it.
fn member_line(
    alloc: Global,
    cursor: &mut Cursor<'_>,
    looser: Looser,
    depth: u32,
) -> Result<ClassMember, ReadStop>
    ensures { Runs result stopped_at cursor.new.rest.now (spec.member_line (rules looser) depth cursor.old.rest.now) }
{
    let found = class_member(alloc, cursor, looser, depth)?;
    let found = with_end(cursor, found)?;
    passed_texts(cursor, looser.texts)?;
    Ok(found)
}

fn members(
    alloc: Global,
    cursor: &mut Cursor<'_>,
    looser: Looser,
    depth: u32,
) -> Result<List<ClassMember>, ReadStop>
    ensures { Runs result stopped_at cursor.new.rest.now (spec.members (rules looser) depth cursor.old.rest.now) }
{
    let mut found = List::new(alloc);
    while cursor.begins_member() {
        found.push(member_line(alloc, cursor, looser, depth)?)?;
    }
    Ok(found)
}

/// A class.
#[tactic(auto, using(crate::proofs::Depths::opened_inside))]
pub fn class(
    alloc: Global,
    cursor: &mut Cursor<'_>,
    looser: Looser,
    depth: u32,
) -> Result<Class, ReadStop>
    ensures { Runs result stopped_at cursor.new.rest.now (spec.class (rules looser) depth cursor.old.rest.now) }
{
    if depth == 0 {
        return Err(ReadStop::Fault);
    }
    let line = cursor.keyword(Keyword::Class)?;
    let name = cursor.name()?;
    cursor.end()?;
    passed_texts(cursor, looser.texts)?;
    let members = members(alloc, cursor, looser, depth - 1)?;
    let found = Class {
        line,
        name,
        members,
    };
    with_last(cursor, found, Keyword::Class)
}
