//! What may be assigned, and the properties that take it.
ghost use Rattle.std.specs.Prelude.{◌≡◌, slice_get};
ghost use Rattle.std.specs.Option.{option_copied, option_and_then};
ghost use Rattle.vb_meaning.specs.Assigning as spec;
ghost use Rattle.vb_meaning.specs.Objects as objects;

use crate::classes::class_at;
use vb_meaning::Assigned;
use vb_syntax::program::{Procedure, ProcedureKind, Program};
use vb_value::{ObjNo, Value, VbError};

/// Whether a value may be assigned so: with `Set` an object or Nothing, else error 424; without it anything else, error 438
/// for an object and 91 for Nothing.
pub fn assignable(how: Assigned, value: &Value) -> Result<(), VbError>
    ensures { result ≡ spec.assignable how value.now }
{
    match (how, value) {
        (Assigned::Set, Value::Obj(_) | Value::Nothing) => Ok(()),
        (Assigned::Set, _) => Err(VbError::OBJECT_REQUIRED),
        (Assigned::Let, Value::Obj(_)) => Err(VbError::UNSUPPORTED),
        (Assigned::Let, Value::Nothing) => Err(VbError::OBJECT_NOT_SET),
        (Assigned::Let, _) => Ok(()),
    }
}

/// Whether a procedure is used where a value is assigned so.
fn takes_assigned(how: Assigned, kind: ProcedureKind) -> bool
    ensures { result ≡ objects.takes_assigned how kind }
{
    matches!(
        (how, kind),
        (Assigned::Let, ProcedureKind::Let) | (Assigned::Set, ProcedureKind::Set)
    )
}

/// The number of the first property of this name that a value is assigned to so.
#[tactic(auto, using(crate::proofs::Named::named_here, crate::proofs::Named::named_nowhere))]
pub fn assigned_number(name: u32, how: Assigned, procedures: &[Procedure]) -> Option<usize>
    ensures { option_and_then (slice_get procedures.now) result
        ≡ objects.procedure_named name (objects.takes_assigned how) procedures.now }
{
    let mut number = 0;
    while let Some(procedure) = procedures.get(number) {
        if procedure.name == name && takes_assigned(how, procedure.kind) {
            return Some(number);
        }
        number += 1;
    }
    None
}

/// The first property of this name that a value is assigned to so.
pub fn assigned_named<'a>(
    name: u32,
    how: Assigned,
    procedures: &'a [Procedure],
) -> Option<&'a Procedure>
    ensures { option_copied result ≡ objects.procedure_named name (objects.takes_assigned how) procedures.now }
{
    procedures.get(assigned_number(name, how, procedures)?)
}

/// The number, in the class around, of the property that a value is assigned to so, by the number of the first of its
/// name.
pub fn own_assigned_number(
    p: &Program,
    owner: Option<(ObjNo, u32)>,
    how: Assigned,
    number: u32,
) -> Option<usize>
    ensures { objects.procedure_at (objects.owner_class p.now owner) result
        ≡ objects.own_procedure number (objects.takes_assigned how) (objects.owner_class p.now owner) }
{
    let (_, class) = owner?;
    let class = class_at(p, class)?;
    let first = class.procedures.get(number as usize)?;
    assigned_number(first.name, how, class.procedures.as_slice())
}

/// Of the properties of the class around, by the number of the first of its name, the one that a value is assigned to so.
pub fn own_assigned<'a>(
    p: &'a Program,
    owner: Option<(ObjNo, u32)>,
    how: Assigned,
    number: u32,
) -> Option<&'a Procedure>
    ensures { option_copied result
        ≡ objects.own_procedure number (objects.takes_assigned how) (objects.owner_class p.now owner) }
{
    let (_, class) = owner?;
    class_at(p, class)?
        .procedures
        .get(own_assigned_number(p, owner, how, number)?)
}
