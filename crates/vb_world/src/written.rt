//! Expressions that take no level: values that are written down, and constants.
ghost use Rattle.std.specs.Prelude.{◌≡◌};
ghost use Rattle.vb_syntax.specs.declared.program.expression.Expression.{out-Expression};
ghost use Rattle.vb_meaning.specs.Expressions as spec;
ghost use Rattle.vb_meaning.specs.Step.{Ran};
ghost use Rattle.vb_meaning.specs.Shown.{shown};

use crate::values::{literal_value, local_constant, page_constant};
use std::alloc::Global;
use vb_meaning::{Stop, World};
use vb_syntax::program::{Expression, Head, Named, Program};
use vb_value::{Value, VbError};

/// Whether a name is a constant.
fn is_constant_name(head: &Head) -> bool
    ensures { result ≡ spec.is_constant_name head.now }
{
    matches!(
        head,
        Head::Named(Named::Value(_) | Named::PageConstant(_) | Named::LocalConstant(_))
    )
}

/// Whether an expression is a value that is written down, or a constant.
pub fn is_written(expression: &Expression) -> bool
    ensures { result ≡ spec.is_written (out-Expression expression.now) }
{
    match expression {
        Expression::Literal(_) | Expression::Nothing => true,
        Expression::Path(path) => path.steps.is_empty() && is_constant_name(&path.head),
        _ => false,
    }
}

/// The value of the name of a constant.
fn constant_at(alloc: Global, p: &Program, world: &World, head: &Head) -> Result<Value, Stop>
    ensures { Ran (spec.constant_at p.now head.now (shown world.now)) result (shown world.now) }
{
    match head {
        Head::Named(Named::Value(literal)) => Ok(literal_value(literal)?),
        Head::Named(Named::PageConstant(number)) => page_constant(p, *number),
        Head::Named(Named::LocalConstant(number)) => local_constant(alloc, world, *number),
        _ => Err(Stop::from(VbError::UNDEFINED_VARIABLE)),
    }
}

/// The value of an expression that is written down.
pub fn written_value(
    alloc: Global,
    p: &Program,
    world: &World,
    expression: &Expression,
) -> Result<Value, Stop>
    ensures { Ran (spec.written_value p.now (out-Expression expression.now) (shown world.now)) result
        (shown world.now) }
{
    match expression {
        Expression::Literal(literal) => Ok(literal_value(literal)?),
        Expression::Nothing => Ok(Value::Nothing),
        Expression::Path(path) => constant_at(alloc, p, world, &path.head),
        _ => Err(Stop::from(VbError::UNDEFINED_VARIABLE)),
    }
}
