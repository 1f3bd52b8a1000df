//! Expressions.
ghost use Rattle.std.specs.Prelude.{◌≡◌, map};
ghost use Rattle.vb_value.specs.Outcome.{Adds, Gives};
ghost use Rattle.vb_syntax.specs.scope.Trees as spec;
ghost use Rattle.vb_names.specs.Declarations.{scopes_seen};

use crate::trees::heads::{Place, number, path_head};
use vb_names::class_number;
use vb_syntax::program::{
    Expression as Resolved, Operation as ResolvedOperation, Path as ResolvedPath,
    Step as ResolvedStep,
};
use vb_syntax::{Expression, Operation, Path, PathUse, Step};
use vb_value::{Boxed, Copied, List, Memory};

/// An expression. It recurses once for each expression inside another.
#[cycle(trees)]
pub fn expression(place: Place<'_>, found: &Expression) -> Result<Resolved, Memory>
    ensures { Gives result
        (spec.expression_of place.entry.names.now (scopes_seen place.entry.scopes) found.now) }
{
    match found {
        Expression::Literal(literal) => Ok(Resolved::Literal(literal.copy()?)),
        Expression::Nothing => Ok(Resolved::Nothing),
        Expression::New { class } => Ok(Resolved::New {
            class: class_number(place.scopes.page, class)?,
        }),
        Expression::Path(found) => Ok(Resolved::Path(path(place, found, PathUse::Value)?)),
        Expression::Parenthesis(inner) => {
            let inner = expression(place, inner.get())?;
            Ok(Resolved::Parenthesis(Boxed::new(place.alloc, inner)?))
        }
        Expression::Negative(operand) => {
            let operand = expression(place, operand.get())?;
            Ok(Resolved::Negative(Boxed::new(place.alloc, operand)?))
        }
        Expression::Not(operand) => {
            let operand = expression(place, operand.get())?;
            Ok(Resolved::Not(Boxed::new(place.alloc, operand)?))
        }
        Expression::Chain { first, rest } => {
            let first = expression(place, first.get())?;
            let first = Boxed::new(place.alloc, first)?;
            match operations(place, rest.as_slice()) {
                Ok(rest) => Ok(Resolved::Chain { first, rest }),
                Err(memory) => {
                    drop(first);
                    Err(memory)
                }
            }
        }
    }
}

/// Operators with their right operands.
#[cycle(trees)]
fn operations(place: Place<'_>, found: &[Operation]) -> Result<List<ResolvedOperation>, Memory>
    ensures { Gives result
        (map (spec.operation_of place.entry.names.now (scopes_seen place.entry.scopes)) found.now) }
{
    let mut all = List::with_capacity(place.alloc, found.len())?;
    for operation in found {
        let operand = expression(place, &operation.operand)?;
        all.push(ResolvedOperation {
            operator: operation.operator,
            operand,
        })?;
    }
    Ok(all)
}

/// A path that is used so.
#[cycle(trees)]
pub fn path(place: Place<'_>, found: &Path, used: PathUse) -> Result<ResolvedPath, Memory>
    ensures { Gives result
        (spec.path_of place.entry.names.now (scopes_seen place.entry.scopes) found.now used) }
{
    let (head, count) = path_head(place, used, found)?;
    match kept(place, found.steps.as_slice(), count) {
        Ok(steps) => Ok(ResolvedPath { head, steps }),
        Err(memory) => {
            drop(head);
            Err(memory)
        }
    }
}

/// The steps that stay where so many of them say which member is meant.
#[cycle(trees)]
fn kept(place: Place<'_>, steps: &[Step], mut count: usize) -> Result<List<ResolvedStep>, Memory>
    ensures { Gives result (spec.kept count
        (map (spec.step_of place.entry.names.now (scopes_seen place.entry.scopes)) steps.now)) }
{
    let mut all = List::with_capacity(place.alloc, steps.len())?;
    for found in steps {
        push_kept(found, &mut all, place, count > 0)?;
        count = count.saturating_sub(1);
    }
    Ok(all)
}

/// Adds what stays of a step.
#[cycle(trees)]
fn push_kept(
    found: &Step,
    all: &mut List<ResolvedStep>,
    place: Place<'_>,
    says_member: bool,
) -> Result<(), Memory>
    ensures { Adds result all.old all.new (spec.kept_step says_member
        (spec.step_of place.entry.names.now (scopes_seen place.entry.scopes) found.now)) }
{
    match found {
        Step::Member(name) => {
            if says_member {
                return Ok(());
            }
            all.push(ResolvedStep::Member(number(place, name)))
        }
        Step::Group(given) => {
            let given = expressions(place, given.as_slice())?;
            all.push(ResolvedStep::Group(given))
        }
    }
}

/// Expressions.
#[cycle(trees)]
pub fn expressions(place: Place<'_>, found: &[Expression]) -> Result<List<Resolved>, Memory>
    ensures { Gives result
        (map (spec.expression_of place.entry.names.now (scopes_seen place.entry.scopes)) found.now) }
{
    let mut all = List::with_capacity(place.alloc, found.len())?;
    for one in found {
        all.push(expression(place, one)?)?;
    }
    Ok(all)
}
