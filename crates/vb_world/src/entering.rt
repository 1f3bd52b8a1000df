//! How the names of a procedure come and go.
ghost use Rattle.std.specs.Prelude.{◌≡◌, drop};
ghost use Rattle.vb_meaning.specs.Calling as spec;
ghost use Rattle.vb_meaning.specs.Step.{Ran};
ghost use Rattle.vb_meaning.specs.Shown.{shown};

use crate::declaring::{constants_made, declared_cell, fault_before, first_fault};
use crate::places::{cell_place, drop_cells, hold, new_cell, read_place};
use std::alloc::Global;
use std::mem;
use vb_heap::{CellNo, Place};
use vb_meaning::{Argument, ConstantFault, Frame, Stop, World};
use vb_syntax::program::{Procedure, ProcedureKind, Variable};
use vb_value::{List, ObjNo, Value};

/// The names of a procedure that is entered: none yet.
pub fn fresh_frame(alloc: Global, owner: Option<(ObjNo, u32)>) -> Frame
    ensures { result ≡ spec.fresh_frame owner }
{
    Frame {
        places: List::new(alloc),
        own: List::new(alloc),
        result: None,
        constants: List::new(alloc),
        owner,
        resumes: false,
        subjects: List::new(alloc),
    }
}

/// A variable more, in a cell of its own.
fn add_own(alloc: Global, world: &mut World, cell: CellNo) -> Result<(), Stop>
    ensures { Ran (spec.in_frame (spec.with_own cell) (shown world.old)) result (shown world.new) }
{
    world.frame.places.push(cell_place(alloc, cell))?;
    Ok(world.frame.own.push(cell)?)
}

/// A variable more, of this value.
fn own_variable(alloc: Global, world: &mut World, value: Value) -> Result<(), Stop>
    ensures { Ran (spec.own_variable value (shown world.old)) result (shown world.new) }
{
    let cell = new_cell(world, value)?;
    add_own(alloc, world, cell)
}

/// A parameter that is the caller's place, or a copy of what that holds.
fn placed(alloc: Global, world: &mut World, by_value: bool, place: Place) -> Result<(), Stop>
    ensures { Ran (spec.parameter by_value (Argument.Place place) (shown world.old)) result (shown world.new) }
{
    if by_value {
        let value = read_place(alloc, world, &place)?;
        own_variable(alloc, world, value)
    } else {
        Ok(world.frame.places.push(place)?)
    }
}

/// A parameter and its argument.
fn parameter(
    alloc: Global,
    world: &mut World,
    by_value: bool,
    argument: Argument,
) -> Result<(), Stop>
    ensures { Ran (spec.parameter by_value argument (shown world.old)) result (shown world.new) }
{
    match argument {
        Argument::Place(place) => placed(alloc, world, by_value, place),
        Argument::Value(value) => own_variable(alloc, world, value),
    }
}

/// The parameters and their arguments.
fn parameters(
    alloc: Global,
    world: &mut World,
    mut by_value: &[bool],
    arguments: List<Argument>,
) -> Result<(), Stop>
    ensures { Ran (spec.parameters by_value.entry.now arguments (shown world.old)) result (shown world.new) }
{
    let mut rest = arguments.into_vec().into_iter();
    while let [first, others @ ..] = by_value {
        let Some(argument) = rest.next() else {
            return Ok(());
        };
        parameter(alloc, world, *first, argument)?;
        by_value = others;
    }
    Ok(())
}

/// The variables that a procedure declares in their order, from a number on.
fn variables(
    alloc: Global,
    world: &mut World,
    fault: Option<ConstantFault>,
    mut number: usize,
    mut variables: &[Variable],
) -> Result<(), Stop>
    ensures { Ran (spec.variables fault number variables.entry.now (shown world.old)) result (shown world.new) }
{
    while let [first, others @ ..] = variables {
        fault_before(world, fault, number)?;
        let cell = declared_cell(alloc, world, first)?;
        add_own(alloc, world, cell)?;
        if number == usize::MAX {
            return Err(Stop::Memory);
        }
        number += 1;
        variables = others;
    }
    Ok(())
}

/// Whether a procedure gives a value of its own.
fn gives_value(kind: ProcedureKind) -> bool
    ensures { result ≡ spec.gives_value kind }
{
    matches!(kind, ProcedureKind::Function | ProcedureKind::Get)
}

/// The cell of the value that a procedure is to give.
fn result_cell(world: &mut World, gives_value: bool) -> Result<(), Stop>
    ensures { Ran (spec.result_cell gives_value (shown world.old)) result (shown world.new) }
{
    if gives_value {
        let cell = new_cell(world, Value::Empty)?;
        world.frame.result = Some(cell);
    }
    Ok(())
}

/// What stands behind so many items.
fn behind(items: &[Variable], count: usize) -> &[Variable]
    ensures { result.now ≡ drop count items.now }
{
    if items.len() < count {
        &[]
    } else {
        &items[count..]
    }
}

/// What a procedure makes before its first statement.
pub fn begins(
    alloc: Global,
    world: &mut World,
    procedure: &Procedure,
    arguments: List<Argument>,
) -> Result<(), Stop>
    ensures { Ran (spec.begins procedure.now arguments (shown world.old)) result (shown world.new) }
{
    result_cell(world, gives_value(procedure.kind))?;
    let by_value = procedure.by_value.as_slice();
    parameters(alloc, world, by_value, arguments)?;
    let fault = first_fault(procedure.constants.as_slice())?;
    let declared = behind(procedure.variables.as_slice(), by_value.len());
    variables(alloc, world, fault, by_value.len(), declared)?;
    world.frame.constants = constants_made(alloc, world, procedure.constants.as_slice())?;
    Ok(())
}

/// The value that the procedure that runs gives.
fn result_value(alloc: Global, world: &World) -> Result<Value, Stop>
    ensures { Ran (spec.result_value world.now.frame.result (shown world.now)) result (shown world.now) }
{
    match world.frame.result {
        Some(cell) => read_place(alloc, world, &cell_place(alloc, cell)),
        None => Ok(Value::Empty),
    }
}

/// The value that the procedure that runs gives, which is held.
pub fn given_value(alloc: Global, world: &mut World) -> Result<Value, Stop>
    ensures { Ran (spec.given_value (shown world.old)) result (shown world.new) }
{
    let value = result_value(alloc, world)?;
    hold(world, &value)?;
    Ok(value)
}

/// The names of the procedure that runs go, and the caller's are there again.
#[tactic(auto, using(crate::proofs::Dropping::dropped_both))]
pub fn leave(world: &mut World, caller: Frame, calls: u32)
    ensures { shown world.new ≡ spec.left (record (shown world.old) { frame = caller; calls = calls })
        (shown world.old) }
{
    let names = mem::replace(&mut world.frame, caller);
    world.calls = calls;
    drop_cells(world, names.own.as_slice());
    if let Some(cell) = names.result {
        world.heap.drop_cell(cell);
    }
}
