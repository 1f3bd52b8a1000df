//! Single notes.
ghost use Rattle.std.specs.Prelude.{◌≡◌, map};
ghost use Rattle.vb_value.specs.Outcome.{Adds, Gives};
ghost use Rattle.vb_syntax.specs.scope.Notes as spec;
ghost use Rattle.vb_syntax.specs.scope.Shapes.{shape_of, call_use, ends_in_group};

use std::alloc::Global;
use vb_syntax::{Expression, Note, NoteKind, PathUse, ScopeFault, Shape, Step};
use vb_value::{Copied, List, Memory, Text};

/// What is said, in the order of its places.
pub type Notes = List<Note>;

/// Adds one thing that is said in a line.
pub fn note(notes: &mut Notes, line: u32, kind: NoteKind) -> Result<(), Memory>
    ensures { Adds result notes.old notes.new (spec.note line kind) }
{
    notes.push(Note { line, kind })
}

/// Adds a fault, unless something holds.
pub fn unless(notes: &mut Notes, holds: bool, fault: ScopeFault, line: u32) -> Result<(), Memory>
    ensures { Adds result notes.old notes.new (spec.unless holds fault line) }
{
    if holds {
        return Ok(());
    }
    note(notes, line, NoteKind::Fault(fault))
}

/// Adds a fault, where there are more than so many.
pub fn at_most(notes: &mut Notes, most: usize, count: usize, line: u32) -> Result<(), Memory>
    ensures { Adds result notes.old notes.new (spec.at_most most count line) }
{
    unless(notes, most >= count, ScopeFault::TooMany, line)
}

/// Adds a name that is written alone.
pub fn note_write(notes: &mut Notes, line: u32, name: &Text) -> Result<(), Memory>
    ensures { Adds result notes.old notes.new (spec.write_notes line name.now) }
{
    note(notes, line, NoteKind::Write(name.copy()?))
}

/// Adds a name of a member or of a class.
pub fn note_part(notes: &mut Notes, line: u32, name: &Text) -> Result<(), Memory>
    ensures { Adds result notes.old notes.new (spec.note line (NoteKind.Part name.now)) }
{
    note(notes, line, NoteKind::Part(name.copy()?))
}

/// How a call statement uses its callee.
pub fn call_use(given: &[Expression], steps: &[Step]) -> PathUse
    ensures { result ≡ call_use given.now (map shape_of steps.now) }
{
    if given.is_empty() && !ends_in_group(steps) {
        return PathUse::Callee;
    }
    PathUse::CalleeWithArguments
}

/// Whether the last step is a parenthesis.
fn ends_in_group(steps: &[Step]) -> bool
    ensures { result ≡ ends_in_group (map shape_of steps.now) }
{
    let mut ended = false;
    for step in steps {
        ended = matches!(step, Step::Group(_));
    }
    ended
}

/// What the steps of a path look like.
pub fn shapes(alloc: Global, steps: &[Step]) -> Result<List<Shape>, Memory>
    ensures { Gives result (map shape_of steps.now) }
{
    let mut shapes = List::with_capacity(alloc, steps.len())?;
    for step in steps {
        shapes.push(match step {
            Step::Member(name) => Shape::Member(name.copy()?),
            Step::Group(_) => Shape::Group,
        })?;
    }
    Ok(shapes)
}
