//! What statements that hold no other say of names.
ghost use Rattle.std.specs.Prelude.{◌≡◌, ◌++◌, None, length, map};
ghost use Rattle.vb_syntax.specs.scope.Shapes.{shape_of, call_use};
ghost use Rattle.std.specs.List.{flat_map};
ghost use Rattle.vb_syntax.specs.scope.Notes as spec;
ghost use Rattle.vb_syntax.specs.scope.Notes.{expression_notes, path_notes};
ghost use Rattle.vb_value.specs.Outcome.{Adds};

use crate::notes::expressions::{note_expression, note_expressions, note_path};
use crate::notes::words::{Notes, at_most, call_use, note, note_write, unless};
use vb_syntax::{
    Around, Constant, Declared, ExitKind, Expression, NoteKind, Path, PathUse, Repetition, Resized,
    ScopeFault,
};
use vb_value::{Copied, List, Memory, Text};

/// Adds declared constants.
pub fn note_constants(notes: &mut Notes, line: u32, constants: &[Constant]) -> Result<(), Memory>
    ensures { Adds result notes.old notes.new (flat_map (spec.constant_notes line) constants.now) }
{
    for constant in constants {
        let constant = constant.copy()?;
        note(notes, line, NoteKind::Constant(constant))?;
    }
    Ok(())
}

/// Adds a declared variable, and its dimensions.
fn note_variable(notes: &mut Notes, line: u32, variable: &Declared) -> Result<(), Memory>
    ensures { Adds result notes.old notes.new (spec.variable_notes line variable.now) }
{
    let kind = NoteKind::Variable(variable.copy()?);
    note(notes, line, kind)?;
    match &variable.bounds {
        None => Ok(()),
        Some(bounds) => at_most(notes, 60, bounds.len(), line),
    }
}

/// Adds declared variables.
pub fn note_variables(notes: &mut Notes, line: u32, variables: &[Declared]) -> Result<(), Memory>
    ensures { Adds result notes.old notes.new (flat_map (spec.variable_notes line) variables.now) }
{
    for variable in variables {
        note_variable(notes, line, variable)?;
    }
    Ok(())
}

/// Adds an array that gets new bounds.
fn note_resized(notes: &mut Notes, line: u32, around: Around, array: &Resized) -> Result<(), Memory>
    ensures { Adds result notes.old notes.new (spec.resized_notes line around array.now) }
{
    note(notes, line, NoteKind::Resize(array.name.copy()?))?;
    at_most(notes, 60, array.bounds.len(), line)?;
    note_expressions(notes, line, around, array.bounds.as_slice())
}

/// Adds arrays that get new bounds.
pub fn note_arrays(
    notes: &mut Notes,
    line: u32,
    around: Around,
    arrays: &[Resized],
) -> Result<(), Memory>
    ensures { Adds result notes.old notes.new (flat_map (spec.resized_notes line around) arrays.now) }
{
    for array in arrays {
        note_resized(notes, line, around, array)?;
    }
    Ok(())
}

/// Adds an assignment.
pub fn note_assignment(
    notes: &mut Notes,
    line: u32,
    around: Around,
    target: &Path,
    value: &Expression,
) -> Result<(), Memory>
    ensures { Adds result notes.old notes.new
        (path_notes line around target.now PathUse.Target ++ expression_notes line around value.now) }
{
    note_path(notes, line, around, target, PathUse::Target)?;
    note_expression(notes, line, around, value)
}

/// Adds a call with arguments.
pub fn note_call(
    notes: &mut Notes,
    line: u32,
    around: Around,
    callee: &Path,
    given: &List<Expression>,
) -> Result<(), Memory>
    ensures { Adds result notes.old notes.new
        (path_notes line around callee.now (call_use given.now (map shape_of callee.now.steps))
        ++ spec.arguments (length given.now) line ++ spec.expressions_notes line around given.now) }
{
    let used = call_use(given.as_slice(), callee.steps.as_slice());
    note_path(notes, line, around, callee, used)?;
    at_most(notes, 255, given.len(), line)?;
    note_expressions(notes, line, around, given.as_slice())
}

/// Adds names that are written alone.
pub fn note_writes(notes: &mut Notes, line: u32, names: &[Text]) -> Result<(), Memory>
    ensures { Adds result notes.old notes.new (flat_map (spec.write_notes line) names.now) }
{
    for name in names {
        note_write(notes, line, name)?;
    }
    Ok(())
}

/// Whether an Exit stands inside what it names.
fn is_inside(around: Around, kind: ExitKind) -> bool
    ensures { result ≡ spec.is_inside around kind }
{
    match kind {
        ExitKind::Do => around.in_do,
        ExitKind::For => around.in_for,
        ExitKind::Sub => matches!(around.procedure, Some(ExitKind::Sub)),
        ExitKind::Function => matches!(around.procedure, Some(ExitKind::Function)),
        ExitKind::Property => matches!(around.procedure, Some(ExitKind::Property)),
    }
}

/// Adds the fault of an Exit that does not stand inside what it names.
pub fn note_exit(notes: &mut Notes, line: u32, around: Around, kind: ExitKind) -> Result<(), Memory>
    ensures { Adds result notes.old notes.new
        (spec.unless (spec.is_inside around kind) ScopeFault.BadExit line) }
{
    unless(notes, is_inside(around, kind), ScopeFault::BadExit, line)
}

/// Adds the condition of a `Do` where it stands before the block.
pub fn note_before(
    notes: &mut Notes,
    line: u32,
    around: Around,
    repetition: &Repetition,
) -> Result<(), Memory>
    ensures { Adds result notes.old notes.new (spec.before_notes line around repetition.now) }
{
    match repetition {
        Repetition::Before(condition) => note_expression(notes, line, around, &condition.test),
        Repetition::Endless | Repetition::After { .. } => Ok(()),
    }
}

/// Adds the condition of a `Do` where it stands behind the block, in its own line.
pub fn note_after(notes: &mut Notes, around: Around, repetition: &Repetition) -> Result<(), Memory>
    ensures { Adds result notes.old notes.new (spec.after_notes around repetition.now) }
{
    match repetition {
        Repetition::After { line, condition } => note_expression(
            notes,
            *line,
            around,
            &condition.test,
        ),
        Repetition::Endless | Repetition::Before(_) => Ok(()),
    }
}

/// Adds an expression, where there is one.
pub fn note_optional(
    notes: &mut Notes,
    line: u32,
    around: Around,
    found: &Option<Expression>,
) -> Result<(), Memory>
    ensures { Adds result notes.old notes.new (spec.optional_notes line around found.now) }
{
    match found {
        None => Ok(()),
        Some(found) => note_expression(notes, line, around, found),
    }
}

/// Adds the expression that a For Each goes over.
pub fn note_group(
    notes: &mut Notes,
    line: u32,
    around: Around,
    group: &Expression,
) -> Result<(), Memory>
    ensures { Adds result notes.old notes.new (spec.group_notes line around group.now) }
{
    match group {
        Expression::Path(path) => note_path(notes, line, around, path, PathUse::Group),
        _ => note_expression(notes, line, around, group),
    }
}
