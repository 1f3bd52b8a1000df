//! Reading procedures and properties, where `depth` more constructs may open.
ghost use Rattle.std.specs.Prelude.{◌≡◌};
ghost use Rattle.vb_read.specs.ReadUnits as spec;
ghost use Rattle.vb_value.specs.Outcome.{Runs};
ghost use Rattle.vb_read.specs.Reader.{stopped_at};
ghost use Rattle.vb_read.specs.Depths.{rules};

use crate::cursor::{Cursor, ReadStop};
use crate::declaration::{begun, parameters};
use crate::looser::Looser;
use crate::statement::block;
use std::alloc::Global;
use vb_syntax::{Access, Procedure, ProcedureKind, Property, PropertyKind};
use vb_value::Keyword;

/// The word that a procedure begins and ends with.
fn procedure_word(kind: ProcedureKind) -> Keyword
    ensures { result ≡ spec.procedure_word kind }
{
    match kind {
        ProcedureKind::Sub => Keyword::Sub,
        ProcedureKind::Function => Keyword::Function,
    }
}

/// A procedure of the kind, behind the word before it, which was read.
#[tactic(auto, using(crate::proofs::Depths::opened_inside))]
fn procedure_of(
    alloc: Global,
    cursor: &mut Cursor<'_>,
    looser: Looser,
    depth: u32,
    kind: ProcedureKind,
    before: Option<(u32, Access)>,
) -> Result<Procedure, ReadStop>
    ensures { Runs result stopped_at cursor.new.rest.now
        (spec.procedure_of (rules looser) kind depth before cursor.old.rest.now) }
{
    if depth == 0 {
        return Err(ReadStop::Fault);
    }
    let word = procedure_word(kind);
    let line = cursor.keyword(word)?;
    let name = cursor.name()?;
    let parameters = parameters(alloc, cursor, depth - 1)?;
    cursor.end()?;
    let body = block(alloc, cursor, looser, depth - 1)?;
    cursor.keyword(Keyword::End)?;
    cursor.keyword(word)?;
    let (line, access) = begun(before, line);
    Ok(Procedure {
        line,
        access,
        kind,
        name,
        parameters,
        body,
    })
}

/// A procedure, behind the word before it, which was read.
pub fn procedure(
    alloc: Global,
    cursor: &mut Cursor<'_>,
    looser: Looser,
    depth: u32,
    before: Option<(u32, Access)>,
) -> Result<Procedure, ReadStop>
    ensures { Runs result stopped_at cursor.new.rest.now
        (spec.procedure (rules looser) depth before cursor.old.rest.now) }
{
    let kind = if cursor.sees_keyword(Keyword::Sub) {
        ProcedureKind::Sub
    } else {
        ProcedureKind::Function
    };
    procedure_of(alloc, cursor, looser, depth, kind, before)
}

fn kind_of_property(cursor: &mut Cursor<'_>) -> Result<PropertyKind, ReadStop>
    ensures { Runs result stopped_at cursor.new.rest.now (spec.kind_of_property cursor.old.rest.now) }
{
    if cursor.sees_keyword(Keyword::Get) {
        cursor.keyword(Keyword::Get)?;
        Ok(PropertyKind::Get)
    } else if cursor.sees_keyword(Keyword::Let) {
        cursor.keyword(Keyword::Let)?;
        Ok(PropertyKind::Let)
    } else {
        cursor.keyword(Keyword::Set)?;
        Ok(PropertyKind::Set)
    }
}

/// A property behind the word `Property`, with its line and the word before it.
#[tactic(auto, using(crate::proofs::Depths::opened_inside))]
pub fn property_from(
    alloc: Global,
    cursor: &mut Cursor<'_>,
    looser: Looser,
    depth: u32,
    first: (u32, Option<Access>),
) -> Result<Property, ReadStop>
    ensures { Runs result stopped_at cursor.new.rest.now
        (spec.property_from (rules looser) depth first cursor.old.rest.now) }
{
    if depth == 0 {
        return Err(ReadStop::Fault);
    }
    let kind = kind_of_property(cursor)?;
    let name = cursor.name()?;
    let parameters = parameters(alloc, cursor, depth - 1)?;
    cursor.end()?;
    let body = block(alloc, cursor, looser, depth - 1)?;
    cursor.keyword(Keyword::End)?;
    cursor.quoted(b"property")?;
    let (line, access) = first;
    Ok(Property {
        line,
        access,
        kind,
        name,
        parameters,
        body,
    })
}

/// A property without a word before it.
pub fn property_alone(
    alloc: Global,
    cursor: &mut Cursor<'_>,
    looser: Looser,
    depth: u32,
) -> Result<Property, ReadStop>
    ensures { Runs result stopped_at cursor.new.rest.now
        (spec.property_alone (rules looser) depth cursor.old.rest.now) }
{
    if depth == 0 {
        return Err(ReadStop::Fault);
    }
    let line = cursor.quoted(b"property")?;
    property_from(alloc, cursor, looser, depth, (line, None))
}
