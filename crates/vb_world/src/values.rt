//! Values that are written down.
ghost use Rattle.std.specs.Prelude.{◌≡◌, slice_get};
ghost use Rattle.vb_value.specs.Outcome.{Answers, Gives};
ghost use Rattle.vb_meaning.specs.Reading as reading;
ghost use Rattle.vb_meaning.specs.Shown.{shown};
ghost use Rattle.vb_meaning.specs.Step.{Ran, raising};
ghost use Rattle.vb_meaning.specs.Values as spec;
ghost use Rattle.vb_meaning.specs.declared.stop.Stop.TheVariants as stop;

use std::alloc::Global;
use vb_meaning::{Stop, World, raise};
use vb_ops::apply1;
use vb_syntax::program::Program;
use vb_syntax::{ConstantValue, Literal};
use vb_value::{Copied, Memory, ObjNo, Op1, Value, VbError, copy};

/// A value that is written down.
pub fn literal_value(literal: &Literal) -> Result<Value, Memory>
    ensures { Gives result (spec.literal_value literal.now) }
{
    Ok(match literal {
        Literal::Empty => Value::Empty,
        Literal::Null => Value::Null,
        Literal::Boolean(truth) => Value::Bool(*truth),
        Literal::Integer(number) => Value::Int(*number),
        Literal::Long(number) => Value::Long(*number),
        Literal::Text(text) => Value::Str(text.copy()?),
    })
}

/// What a constant stands for. Error 6 where the negative of its number is out of range.
pub fn constant_value(constant: &ConstantValue) -> Result<Value, Stop>
    ensures { Answers result stop.Memory (raising (spec.constant_value constant.now)) }
{
    match constant {
        ConstantValue::Literal(literal) => Ok(literal_value(literal)?),
        ConstantValue::NegativeInteger(number) => raise(apply1(Op1::Minus, &Value::Int(*number))),
        ConstantValue::NegativeLong(number) => raise(apply1(Op1::Minus, &Value::Long(*number))),
    }
}

/// The value of a constant of the page.
pub fn page_constant(p: &Program, number: u32) -> Result<Value, Stop>
    ensures { Answers result stop.Memory (raising (reading.constant_of (slice_get p.now.unit.constants number))) }
{
    match p.unit.constants.get(number as usize) {
        Some(constant) => constant_value(&constant.value),
        None => Err(Stop::from(VbError::UNDEFINED_VARIABLE)),
    }
}

/// The value of a constant of the procedure that runs.
pub fn local_constant(alloc: Global, world: &World, number: u32) -> Result<Value, Stop>
    ensures { Answers result stop.Memory (raising (reading.value_of_constant (slice_get world.now.frame.constants number))) }
{
    match world.frame.constants.get(number as usize) {
        Some(value) => Ok(copy(alloc, value)?),
        None => Err(Stop::from(VbError::UNDEFINED_VARIABLE)),
    }
}

/// The object that a value is. Error 91 for Nothing, and 424 for any other value.
pub fn object_in(value: &Value) -> Result<ObjNo, VbError>
    ensures { result ≡ spec.object_in value.now }
{
    match value {
        Value::Obj(object) => Ok(*object),
        Value::Nothing => Err(VbError::OBJECT_NOT_SET),
        _ => Err(VbError::OBJECT_REQUIRED),
    }
}
