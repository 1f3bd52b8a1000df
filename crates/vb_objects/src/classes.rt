//! Classes and their members, found in a program.
ghost use Rattle.std.specs.Prelude.{◌≡◌, slice_get};
ghost use Rattle.std.specs.Option.{option_copied, option_and_then};
ghost use Rattle.vb_meaning.specs.Objects as spec;

use vb_syntax::program::{Class, DictionaryMember, Field, Procedure, ProcedureKind, Program};
use vb_value::ObjNo;

/// Whether a procedure gives a value where its name is read.
pub fn is_read(kind: ProcedureKind) -> bool
    ensures { result ≡ spec.is_read kind }
{
    !matches!(kind, ProcedureKind::Let | ProcedureKind::Set)
}

/// The class of this number.
pub fn class_at<'a>(program: &'a Program, number: u32) -> Option<&'a Class>
    ensures { option_copied result ≡ slice_get program.now.unit.classes number }
{
    program.unit.classes.get(number as usize)
}

/// Which member of a dictionary a name says.
pub fn dictionary_word(program: &Program, name: u32) -> Option<DictionaryMember>
    ensures { result ≡ spec.dictionary_word program.now name }
{
    match program.unit.dictionary.get(name as usize) {
        Some(found) => *found,
        None => None,
    }
}

/// The number of the public field of this name.
pub fn field_named(name: u32, fields: &[Field]) -> Option<usize>
    ensures { result ≡ spec.field_named name fields.now }
{
    fields
        .iter()
        .position(|field| field.name == name && !field.is_private)
}

/// The number of the first procedure of this name that is read.
#[tactic(auto, using(crate::proofs::Named::named_here, crate::proofs::Named::named_nowhere))]
pub fn read_number(name: u32, procedures: &[Procedure]) -> Option<usize>
    ensures { option_and_then (slice_get procedures.now) result
        ≡ spec.procedure_named name spec.is_read procedures.now }
{
    let mut number = 0;
    while let Some(procedure) = procedures.get(number) {
        if procedure.name == name && is_read(procedure.kind) {
            return Some(number);
        }
        number += 1;
    }
    None
}

/// The first procedure of this name that is read.
pub fn read_named<'a>(name: u32, procedures: &'a [Procedure]) -> Option<&'a Procedure>
    ensures { option_copied result ≡ spec.procedure_named name spec.is_read procedures.now }
{
    procedures.get(read_number(name, procedures)?)
}

/// The number, in the class around, of the method or property that is read, by the number of the first of its name.
pub fn own_read_number(p: &Program, owner: Option<(ObjNo, u32)>, number: u32) -> Option<usize>
    ensures { spec.procedure_at (spec.owner_class p.now owner) result
        ≡ spec.own_procedure number spec.is_read (spec.owner_class p.now owner) }
{
    let (_, class) = owner?;
    let class = class_at(p, class)?;
    let first = class.procedures.get(number as usize)?;
    read_number(first.name, class.procedures.as_slice())
}

/// Of a method or property of the class around, by the number of the first of its name, the one that is read.
pub fn own_read<'a>(
    p: &'a Program,
    owner: Option<(ObjNo, u32)>,
    number: u32,
) -> Option<&'a Procedure>
    ensures { option_copied result ≡ spec.own_procedure number spec.is_read (spec.owner_class p.now owner) }
{
    let (_, class) = owner?;
    class_at(p, class)?
        .procedures
        .get(own_read_number(p, owner, number)?)
}

/// The number of a procedure that is seen through an object.
pub fn public_number(procedures: &[Procedure], number: Option<usize>) -> Option<usize>
    ensures { option_and_then (slice_get procedures.now) result
        ≡ spec.if_public (option_and_then (slice_get procedures.now) number) }
{
    let number = number?;
    match if_public(procedures.get(number)) {
        Some(_) => Some(number),
        None => None,
    }
}

/// A procedure that is seen through an object.
pub fn if_public<'a>(found: Option<&'a Procedure>) -> Option<&'a Procedure>
    ensures { option_copied result ≡ spec.if_public (option_copied found.entry) }
{
    match found {
        Some(found) if !found.is_private => Some(found),
        _ => None,
    }
}
