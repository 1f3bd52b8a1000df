//! What declarations make at the start of their scope.
ghost use Rattle.std.specs.Prelude.{◌≡◌, [], None};
ghost use Rattle.vb_value.specs.Outcome.{Gives};
ghost use Rattle.vb_meaning.specs.Acts as acts;
ghost use Rattle.vb_meaning.specs.Declaring as spec;
ghost use Rattle.vb_meaning.specs.Places as places;
ghost use Rattle.vb_meaning.specs.Step.{Ran, and_then, given};
ghost use Rattle.vb_meaning.specs.Values as values;
ghost use Rattle.vb_meaning.specs.Values.{empty_array};
ghost use Rattle.vb_meaning.specs.Shown.{shown};
ghost use Rattle.vb_value.specs.declared.value.Value.TheViews.{Arr};

use crate::arrays::{empty_array, has_bad_bound, is_too_heavy, item_count};
use crate::places::new_cell;
use crate::values::constant_value;
use std::alloc::Global;
use vb_heap::CellNo;
use vb_meaning::{ConstantFault, Stop, World, stop_in};
use vb_ops::apply1;
use vb_syntax::ConstantValue;
use vb_syntax::program::{Constant, Unit, Variable};
use vb_value::{LimitKind, List, Memory, Op1, Value, VbError, VbFault};

/// The value of a constant. An error is in the line of its declaration.
fn constant_made(world: &World, constant: &Constant) -> Result<Value, Stop>
    ensures { Ran (spec.constant_made constant.now (shown world.now)) result (shown world.now) }
{
    match constant_value(&constant.value) {
        Ok(value) => Ok(value),
        Err(why) => Err(stop_in(constant.line, why)),
    }
}

/// The values of constants, in their order.
pub fn constants_made(
    alloc: Global,
    world: &World,
    mut constants: &[Constant],
) -> Result<List<Value>, Stop>
    ensures { Ran (spec.constants_made constants.entry.now (shown world.now)) result (shown world.now) }
{
    let mut values = List::with_capacity(alloc, constants.len())?;
    while let [first, others @ ..] = constants {
        values.push(constant_made(world, first)?)?;
        constants = others;
    }
    Ok(values)
}

/// The fault of a constant.
fn fault_of(constant: &Constant) -> Result<Option<ConstantFault>, Memory>
    ensures { Gives result (spec.fault_or constant.now (values.constant_value constant.now.value) None) }
{
    let answer = match &constant.value {
        ConstantValue::Literal(_) => return Ok(None),
        ConstantValue::NegativeInteger(number) => apply1(Op1::Minus, &Value::Int(*number)),
        ConstantValue::NegativeLong(number) => apply1(Op1::Minus, &Value::Long(*number)),
    };
    match answer {
        Ok(_) => Ok(None),
        Err(VbFault::Error(number)) => Ok(Some(ConstantFault {
            before: constant.before,
            line: constant.line,
            error: VbError { number },
        })),
        Err(VbFault::Memory) => Err(Memory),
    }
}

/// The first constant that stands for no value.
#[tactic(auto, using(crate::proofs::Declared::no_fault, crate::proofs::Declared::first_fault_stays))]
pub fn first_fault(mut constants: &[Constant]) -> Result<Option<ConstantFault>, Memory>
    ensures { Gives result (spec.first_fault constants.entry.now) }
{
    while let [first, others @ ..] = constants {
        if let Some(fault) = fault_of(first)? {
            return Ok(Some(fault));
        }
        constants = others;
    }
    Ok(None)
}

/// The fault of a constant that stands before the variable of this number.
pub fn fault_before(world: &World, fault: Option<ConstantFault>, number: usize) -> Result<(), Stop>
    ensures { Ran (spec.fault_before fault number (shown world.now)) result (shown world.now) }
{
    match fault {
        Some(fault) if fault.before as usize <= number => {
            Err(stop_in(fault.line, Stop::from(fault.error)))
        }
        _ => Ok(()),
    }
}

/// A cell for an array of Empty items. One for which the page has no room takes no memory.
#[tactic(auto, using(crate::proofs::Declared::refused_cell))]
fn array_cell(
    alloc: Global,
    world: &mut World,
    is_fixed: bool,
    bounds: &[i32],
) -> Result<CellNo, Stop>
    ensures { Ran (places.new_cell (Arr (empty_array is_fixed bounds.now)) (shown world.old)) result (shown world.new) }
{
    if is_too_heavy(world, item_count(bounds)) {
        return Err(Stop::Limit(LimitKind::Data, None));
    }
    let array = empty_array(alloc, is_fixed, List::from_slice(alloc, bounds)?)?;
    new_cell(world, Value::Arr(array))
}

/// A cell for an array as it is declared. Error 9 for a bound below -1.
fn declared_array(alloc: Global, world: &mut World, bounds: &[i32]) -> Result<CellNo, Stop>
    ensures { Ran (and_then (given (values.declared_array bounds.now) (shown world.old)) places.new_cell) result
        (shown world.new) }
{
    match bounds {
        [] => array_cell(alloc, world, false, bounds),
        [_, ..] => {
            if has_bad_bound(bounds) {
                return Err(Stop::from(VbError::OUT_OF_RANGE));
            }
            array_cell(alloc, world, true, bounds)
        }
    }
}

/// A cell for a variable that is declared so.
fn first_cell(alloc: Global, world: &mut World, bounds: &Option<List<i32>>) -> Result<CellNo, Stop>
    ensures { Ran (spec.first_cell bounds.now (shown world.old)) result (shown world.new) }
{
    match bounds {
        Some(bounds) => declared_array(alloc, world, bounds.as_slice()),
        None => new_cell(world, Value::Empty),
    }
}

/// A cell for a declared variable. What goes wrong is in its line.
pub fn declared_cell(alloc: Global, world: &mut World, variable: &Variable) -> Result<CellNo, Stop>
    ensures { Ran (spec.declared_cell variable.now (shown world.old)) result (shown world.new) }
{
    match first_cell(alloc, world, &variable.bounds) {
        Ok(cell) => Ok(cell),
        Err(why) => Err(stop_in(variable.line, why)),
    }
}

/// The cells of declared variables, in their order.
fn declared_cells(
    alloc: Global,
    world: &mut World,
    fault: Option<ConstantFault>,
    mut variables: &[Variable],
) -> Result<List<CellNo>, Stop>
    ensures { Ran (spec.declared_cells [] fault variables.entry.now (shown world.old)) result (shown world.new) }
{
    let mut cells = List::with_capacity(alloc, variables.len())?;
    while let [first, others @ ..] = variables {
        fault_before(world, fault, cells.len())?;
        cells.push(declared_cell(alloc, world, first)?)?;
        variables = others;
    }
    Ok(cells)
}

/// The page's variables and constants come.
pub fn page_begins(alloc: Global, world: &mut World, unit: &Unit) -> Result<(), Stop>
    ensures { Ran (acts.page_begins unit.now (shown world.old)) result (shown world.new) }
{
    let fault = first_fault(unit.constants.as_slice())?;
    world.page = declared_cells(alloc, world, fault, unit.variables.as_slice())?;
    let _values = constants_made(alloc, world, unit.constants.as_slice())?;
    Ok(())
}
