//! What a page, a class or a procedure declares.
ghost use Rattle.std.specs.Prelude.{◌≡◌, ◌≤◌, ◌++◌, ◌+◌, IfOk, length};
ghost use Rattle.vb_value.specs.Outcome.{Gives};
ghost use Rattle.vb_syntax.specs.scope.Scopes as spec;
ghost use Rattle.vb_names.specs.Declarations.{declarations_seen};

use crate::key::{Key, copy_name};
use crate::names::Names;
use std::alloc::Global;
use vb_syntax::program::{Constant, Named, Slot, Variable};
use vb_syntax::{Level, Note, NoteKind, copy_bounds};
use vb_value::{Copied, List, Memory, Text};

/// The names that a page, a class or a procedure declares, and what they stand for.
#[derive(Debug, Drop)]
pub struct Declarations {
    /// The names, as written, in the order of their declaration. Those last that undeclared names make.
    pub names: Names,
    /// What they stand for.
    pub meanings: List<Named>,
    /// The variables, parameters or fields, by their numbers.
    pub variables: List<Variable>,
    /// The constants, by their numbers.
    pub constants: List<Constant>,
    /// How many procedures of a page.
    pub procedures: u32,
    /// How many classes.
    pub classes: u32,
    /// How many methods and properties of a class.
    pub members: u32,
}

impl Declarations {
    /// Nothing, with room for `count` names.
    pub fn with_capacity(alloc: Global, count: usize) -> Result<Declarations, Memory>
        ensures { IfOk result (λ found. declarations_seen found ≡ spec.nothing_declared) }
    {
        Ok(Declarations {
            names: Names::with_capacity(alloc, count)?,
            meanings: List::with_capacity(alloc, count)?,
            variables: List::new(alloc),
            constants: List::new(alloc),
            procedures: 0,
            classes: 0,
            members: 0,
        })
    }

    /// Nothing.
    pub fn new(alloc: Global) -> Declarations
        ensures { declarations_seen result ≡ spec.nothing_declared }
    {
        Declarations {
            names: Names::new(alloc),
            meanings: List::new(alloc),
            variables: List::new(alloc),
            constants: List::new(alloc),
            procedures: 0,
            classes: 0,
            members: 0,
        }
    }
}

/// The next number. Memory is the answer where there is none.
fn next(number: u32) -> Result<u32, Memory>
    ensures { Gives result (number + 1) }
{
    if number == u32::MAX {
        return Err(Memory);
    }
    Ok(number + 1)
}

/// A count as a number. Memory is the answer where it is too great for one.
fn as_number(count: usize) -> Result<u32, Memory>
    ensures { Gives result count }
{
    match u32::try_from(count) {
        Ok(number) => Ok(number),
        Err(_) => Err(Memory),
    }
}

/// Adds a name and what it stands for.
fn push_name(found: &mut Declarations, name: &Text, meaning: Named) -> Result<(), Memory>
    ensures { IfOk result (λ _. declarations_seen found.new
        ≡ spec.with_name name.now meaning (declarations_seen found.old)) }
{
    found.names.push(copy_name(name)?, Key::of(name))?;
    found.meanings.push(meaning)
}

/// The place of a variable, by its number.
fn place_at(level: Level, number: u32) -> Slot
    ensures { result ≡ spec.place_at level number }
{
    match level {
        Level::Page => Slot::Page(number),
        Level::Class => Slot::Field(number),
        Level::Body => Slot::Local(number),
    }
}

/// A constant, by its number.
fn constant_at(level: Level, number: u32) -> Named
    ensures { result ≡ spec.constant_at level number }
{
    match level {
        Level::Body => Named::LocalConstant(number),
        Level::Page | Level::Class => Named::PageConstant(number),
    }
}

/// A variable of a line, with the bounds that it is declared with if it is an array.
pub fn variable_of(line: u32, bounds: &Option<List<i32>>) -> Result<Variable, Memory>
    ensures { Gives result (spec.variable_of line bounds.now) }
{
    Ok(Variable {
        line,
        bounds: copy_bounds(bounds)?,
    })
}

/// Adds a variable.
pub fn push_variable(
    found: &mut Declarations,
    level: Level,
    name: &Text,
    variable: Variable,
) -> Result<(), Memory>
    ensures { IfOk result (λ _. declarations_seen found.new
        ≡ spec.with_variable level name.now variable (declarations_seen found.old)) }
{
    let number = as_number(found.variables.len())?;
    found.variables.push(variable)?;
    push_name(found, name, Named::Place(place_at(level, number)))
}

/// Adds what is declared at one place.
fn declare(found: &mut Declarations, level: Level, line: u32, kind: &NoteKind) -> Result<(), Memory>
    ensures { IfOk result (λ _. declarations_seen found.new
        ≡ spec.declare level line (declarations_seen found.old) kind.now) }
{
    match kind {
        NoteKind::Variable(variable) => {
            let made = variable_of(line, &variable.bounds)?;
            push_variable(found, level, &variable.name, made)
        }
        NoteKind::Constant(constant) => {
            let number = as_number(found.constants.len())?;
            let before = as_number(found.variables.len())?;
            let value = constant.value.copy()?;
            found.constants.push(Constant {
                line,
                before,
                value,
            })?;
            push_name(found, &constant.name, constant_at(level, number))
        }
        NoteKind::Procedure(name) => {
            let number = found.procedures;
            found.procedures = next(number)?;
            push_name(found, name, Named::Procedure(number))
        }
        NoteKind::Class(name) => {
            let number = found.classes;
            found.classes = next(number)?;
            push_name(found, name, Named::Class(number))
        }
        NoteKind::Member { name, accessor: _ } => {
            let number = found.members;
            found.members = next(number)?;
            push_name(found, name, Named::Own(number))
        }
        NoteKind::Result(name) => push_name(found, name, Named::Place(Slot::Result)),
        NoteKind::Fault(_)
        | NoteKind::Use { .. }
        | NoteKind::Write(_)
        | NoteKind::Resize(_)
        | NoteKind::Part(_) => Ok(()),
    }
}

/// Whether what is said at one place declares a name.
fn is_declaration(kind: &NoteKind) -> bool {
    match kind {
        NoteKind::Variable(_)
        | NoteKind::Constant(_)
        | NoteKind::Procedure(_)
        | NoteKind::Class(_)
        | NoteKind::Member { .. }
        | NoteKind::Result(_) => true,
        NoteKind::Fault(_)
        | NoteKind::Use { .. }
        | NoteKind::Write(_)
        | NoteKind::Resize(_)
        | NoteKind::Part(_) => false,
    }
}

/// How many names notes declare.
fn count_declarations(notes: &[Note]) -> usize
    ensures { result ≤ length notes.now }
{
    let mut count = 0;
    for note in notes {
        if is_declaration(&note.kind) {
            count += 1;
        }
    }
    count
}

/// What notes declare.
pub fn declared(alloc: Global, level: Level, notes: &[Note]) -> Result<Declarations, Memory>
    ensures { IfOk result (λ found. declarations_seen found ≡ spec.declared level notes.now) }
{
    let mut found = Declarations::with_capacity(alloc, count_declarations(notes))?;
    for note in notes {
        declare(&mut found, level, note.line, &note.kind)?;
    }
    Ok(found)
}
