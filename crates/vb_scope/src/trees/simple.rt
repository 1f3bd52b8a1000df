//! Parts of statements, and the statements that hold no other.
ghost use Rattle.std.specs.Prelude.{◌≡◌, ◌∷◌, [], map, false};
ghost use Rattle.vb_value.specs.Outcome.{Adds, Gives};
ghost use Rattle.vb_syntax.specs.scope.Trees as spec;
ghost use Rattle.vb_syntax.specs.declared.statement.StatementKind.TheOpen as layer;
ghost use Rattle.vb_names.specs.Declarations.{scopes_seen};

use crate::trees::expressions::{expression, expressions, path};
use crate::trees::heads::Place;
use vb_notes::call_use;
use vb_syntax::program::{
    Condition as ResolvedCondition, Expression as Value, Named, Path as ResolvedPath,
    Repetition as ResolvedRepetition, Resized as ResolvedResized, StatementKind as Resolved,
    Step as ResolvedStep,
};
use vb_syntax::{Condition, Expression, Path, PathUse, Repetition, Resized, StatementKind as Kind};
use vb_value::{List, Memory, Text};

/// What a name stands for that is written alone.
pub fn target(place: Place<'_>, name: &Text) -> Result<Named, Memory>
    ensures { Gives result (spec.target_of place.entry.names.now (scopes_seen place.entry.scopes) name.now) }
{
    place.scopes.named(false, name)
}

/// What names stand for that are written alone.
pub fn targets(place: Place<'_>, names: &[Text]) -> Result<List<Named>, Memory>
    ensures { Gives result
        (map (spec.target_of place.entry.names.now (scopes_seen place.entry.scopes)) names.now) }
{
    let mut all = List::with_capacity(place.alloc, names.len())?;
    for name in names {
        all.push(target(place, name)?)?;
    }
    Ok(all)
}

/// An array that gets new bounds.
fn resized(place: Place<'_>, found: &Resized) -> Result<ResolvedResized, Memory>
    ensures { Gives result (spec.resized_of place.entry.names.now (scopes_seen place.entry.scopes) found.now) }
{
    match (
        target(place, &found.name),
        expressions(place, found.bounds.as_slice()),
    ) {
        (Ok(name), Ok(bounds)) => Ok(ResolvedResized { name, bounds }),
        (name, bounds) => {
            drop(name);
            drop(bounds);
            Err(Memory)
        }
    }
}

/// Adds an array that gets new bounds.
fn push_resized(
    all: &mut List<ResolvedResized>,
    place: Place<'_>,
    found: &Resized,
) -> Result<(), Memory>
    ensures { Adds result all.old all.new
        (spec.resized_of place.entry.names.now (scopes_seen place.entry.scopes) found.now ∷ []) }
{
    all.push(resized(place, found)?)
}

/// Arrays that get new bounds.
pub fn arrays(place: Place<'_>, found: &[Resized]) -> Result<List<ResolvedResized>, Memory>
    ensures { Gives result
        (map (spec.resized_of place.entry.names.now (scopes_seen place.entry.scopes)) found.now) }
{
    let mut all = List::with_capacity(place.alloc, found.len())?;
    for array in found {
        if let Err(memory) = push_resized(&mut all, place, array) {
            drop(all);
            return Err(memory);
        }
    }
    Ok(all)
}

/// An expression, where there is one.
pub fn optional(place: Place<'_>, found: &Option<Expression>) -> Result<Option<Value>, Memory>
    ensures { Gives result (spec.optional_of place.entry.names.now (scopes_seen place.entry.scopes) found.now) }
{
    match found {
        None => Ok(None),
        Some(found) => Ok(Some(expression(place, found)?)),
    }
}

/// The expression that a For Each goes over.
pub fn group(place: Place<'_>, found: &Expression) -> Result<Value, Memory>
    ensures { Gives result (spec.group_of place.entry.names.now (scopes_seen place.entry.scopes) found.now) }
{
    match found {
        Expression::Path(found) => Ok(Value::Path(path(place, found, PathUse::Group)?)),
        _ => expression(place, found),
    }
}

/// The condition of a `Do`.
fn condition(place: Place<'_>, found: &Condition) -> Result<ResolvedCondition, Memory>
    ensures { Gives result (spec.condition_of place.entry.names.now (scopes_seen place.entry.scopes) found.now) }
{
    Ok(ResolvedCondition {
        is_until: found.is_until,
        test: expression(place, &found.test)?,
    })
}

/// Which condition a `Do` has.
pub fn repetition(place: Place<'_>, found: &Repetition) -> Result<ResolvedRepetition, Memory>
    ensures { Gives result (spec.repetition_of place.entry.names.now (scopes_seen place.entry.scopes) found.now) }
{
    match found {
        Repetition::Endless => Ok(ResolvedRepetition::Endless),
        Repetition::Before(found) => Ok(ResolvedRepetition::Before(condition(place, found)?)),
        Repetition::After {
            line,
            condition: found,
        } => Ok(ResolvedRepetition::After {
            line: *line,
            condition: condition(place, found)?,
        }),
    }
}

/// A `ReDim`.
pub fn redim(place: Place<'_>, preserve: bool, found: &List<Resized>) -> Result<Resolved, Memory>
    ensures { Gives result (spec.kind_layer place.entry.names.now (scopes_seen place.entry.scopes)
        (layer.ReDim preserve found.now)) }
{
    Ok(Resolved::ReDim {
        preserve,
        arrays: arrays(place, found.as_slice())?,
    })
}

/// A `Set`.
pub fn set(place: Place<'_>, target: &Path, value: &Expression) -> Result<Resolved, Memory>
    ensures { Gives result (spec.kind_layer place.entry.names.now (scopes_seen place.entry.scopes)
        (layer.Set target.now value.now)) }
{
    match (
        path(place, target, PathUse::Target),
        expression(place, value),
    ) {
        (Ok(target), Ok(value)) => Ok(Resolved::Set { target, value }),
        (target, value) => {
            drop(target);
            drop(value);
            Err(Memory)
        }
    }
}

/// An assignment.
pub fn assignment(place: Place<'_>, target: &Path, value: &Expression) -> Result<Resolved, Memory>
    ensures { Gives result (spec.kind_layer place.entry.names.now (scopes_seen place.entry.scopes)
        (layer.Assign target.now value.now)) }
{
    match (
        path(place, target, PathUse::Target),
        expression(place, value),
    ) {
        (Ok(target), Ok(value)) => Ok(Resolved::Assign { target, value }),
        (target, value) => {
            drop(target);
            drop(value);
            Err(Memory)
        }
    }
}

/// A call with arguments.
pub fn call(place: Place<'_>, callee: &Path, given: &List<Expression>) -> Result<Resolved, Memory>
    ensures { Gives result (spec.kind_layer place.entry.names.now (scopes_seen place.entry.scopes)
        (layer.Call callee.now given.now)) }
{
    let used = call_use(given.as_slice(), callee.steps.as_slice());
    let mut path = path(place, callee, used)?;
    if used == PathUse::CalleeWithArguments {
        let given = expressions(place, given.as_slice())?;
        path.steps.push(ResolvedStep::Group(given))?;
    }
    Ok(Resolved::Call { callee: path })
}

/// An `Erase`.
pub fn erase(place: Place<'_>, names: &List<Text>) -> Result<Resolved, Memory>
    ensures { Gives result (spec.kind_layer place.entry.names.now (scopes_seen place.entry.scopes)
        (layer.Erase names.now)) }
{
    Ok(Resolved::Erase {
        arrays: targets(place, names.as_slice())?,
    })
}
