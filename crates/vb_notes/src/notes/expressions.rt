//! What expressions say of names.
ghost use Rattle.std.specs.Prelude.{◌≡◌, ◌++◌, map};
ghost use Rattle.std.specs.List.{flat_map};
ghost use Rattle.vb_syntax.specs.scope.Notes as spec;
ghost use Rattle.vb_syntax.specs.declared.expression.Step.{Step};
ghost use Rattle.vb_syntax.specs.scope.Notes.{Notes};
ghost use Rattle.vb_value.specs.Outcome.{Adds, Gives};
ghost use Rattle.vb_syntax.specs.scope.Shapes.{shape_of, used_steps};

use crate::notes::words::{Notes, at_most, note, note_part, note_write, shapes, unless};
use std::alloc::Global;
use vb_syntax::{
    Around, Expression, NoteKind, Operation, Path, PathHead, PathUse, ScopeFault, Shape, Step,
};
use vb_value::{Copied, List, Memory, Text};

/// What the steps look like of a path that is used so, with the parenthesis that a call statement puts behind them.
pub fn steps_used(alloc: Global, used: PathUse, steps: &[Step]) -> Result<List<Shape>, Memory>
    ensures { Gives result (used_steps used (map shape_of steps.now)) }
{
    let mut all = shapes(alloc, steps)?;
    if used == PathUse::CalleeWithArguments {
        all.push(Shape::Group)?;
    }
    Ok(all)
}

/// Adds a name at the head of a path.
fn note_named(
    notes: &mut Notes,
    line: u32,
    used: PathUse,
    name: &Text,
    steps: &[Step],
) -> Result<(), Memory>
    ensures { Adds result notes.old notes.new
        (spec.named_notes line used name.now (used_steps used (map shape_of steps.now))) }
{
    if used == PathUse::Target && steps.is_empty() {
        return note_write(notes, line, name);
    }
    let steps = steps_used(*notes.allocator(), used, steps)?;
    let kind = NoteKind::Use {
        name: name.copy()?,
        steps,
        is_group: used == PathUse::Group,
    };
    note(notes, line, kind)
}

/// Adds the head of a path.
fn note_head(
    notes: &mut Notes,
    line: u32,
    around: Around,
    used: PathUse,
    path: &Path,
) -> Result<(), Memory>
    ensures { Adds result notes.old notes.new
        (spec.head_notes line around used path.now.head (used_steps used (map shape_of path.now.steps))) }
{
    match &path.head {
        PathHead::Name(name) => note_named(notes, line, used, name, path.steps.as_slice()),
        PathHead::Me => unless(notes, around.in_class, ScopeFault::BadMember, line),
        PathHead::With(name) => {
            unless(notes, around.in_with, ScopeFault::BadMember, line)?;
            note_part(notes, line, name)
        }
    }
}

/// Adds an expression. It recurses once for each expression inside another.
#[cycle(expressions)]
pub fn note_expression(
    notes: &mut Notes,
    line: u32,
    around: Around,
    expression: &Expression,
) -> Result<(), Memory>
    ensures { Adds result notes.old notes.new (spec.expression_notes line around expression.now) }
{
    match expression {
        Expression::Literal(_) => Ok(()),
        Expression::Nothing => Ok(()),
        Expression::New { class } => note_part(notes, line, class),
        Expression::Path(path) => note_path(notes, line, around, path, PathUse::Value),
        Expression::Parenthesis(inner) => note_expression(notes, line, around, inner.get()),
        Expression::Negative(operand) => note_expression(notes, line, around, operand.get()),
        Expression::Not(operand) => note_expression(notes, line, around, operand.get()),
        Expression::Chain { first, rest } => {
            note_expression(notes, line, around, first.get())?;
            note_operations(notes, line, around, rest.as_slice())
        }
    }
}

/// Adds the right operands of operators.
#[cycle(expressions)]
fn note_operations(
    notes: &mut Notes,
    line: u32,
    around: Around,
    operations: &[Operation],
) -> Result<(), Memory>
    ensures { Adds result notes.old notes.new
        (flat_map (λ (x : Notes). x) (map (spec.operation_notes line around) operations.now)) }
{
    for operation in operations {
        note_expression(notes, line, around, &operation.operand)?;
    }
    Ok(())
}

/// Adds a path that is used so.
#[cycle(expressions)]
pub fn note_path(
    notes: &mut Notes,
    line: u32,
    around: Around,
    path: &Path,
    used: PathUse,
) -> Result<(), Memory>
    ensures { Adds result notes.old notes.new (spec.path_notes line around path.now used) }
{
    note_head(notes, line, around, used, path)?;
    note_steps(notes, line, around, path.steps.as_slice())
}

/// Adds what stands behind a path's head.
#[cycle(expressions)]
fn note_steps(notes: &mut Notes, line: u32, around: Around, steps: &[Step]) -> Result<(), Memory>
    ensures { Adds result notes.old notes.new
        (flat_map (λ (step : Step). (spec.step_notes line around step).1) steps.now) }
{
    for step in steps {
        note_step(notes, line, around, step)?;
    }
    Ok(())
}

/// Adds a step of a path.
#[cycle(expressions)]
fn note_step(notes: &mut Notes, line: u32, around: Around, step: &Step) -> Result<(), Memory>
    ensures { Adds result notes.old notes.new (spec.step_notes line around step.now).1 }
{
    match step {
        Step::Member(name) => note_part(notes, line, name),
        Step::Group(given) => {
            at_most(notes, 255, given.len(), line)?;
            note_expressions(notes, line, around, given.as_slice())
        }
    }
}

/// Adds expressions.
#[cycle(expressions)]
pub fn note_expressions(
    notes: &mut Notes,
    line: u32,
    around: Around,
    expressions: &[Expression],
) -> Result<(), Memory>
    ensures { Adds result notes.old notes.new (spec.expressions_notes line around expressions.now) }
{
    for expression in expressions {
        note_expression(notes, line, around, expression)?;
    }
    Ok(())
}
