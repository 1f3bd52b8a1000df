//! Copies of what is declared and of values that are written down.
ghost use Rattle.vb_value.specs.Outcome.{Gives};

use crate::declaration::{Constant, ConstantValue, Declared};
use crate::expression::Literal;
use vb_value::{Copied, List, Memory};

impl Copied for Literal {
    fn copy(&self) -> Result<Literal, Memory> {
        Ok(match self {
            Literal::Empty => Literal::Empty,
            Literal::Null => Literal::Null,
            Literal::Boolean(truth) => Literal::Boolean(*truth),
            Literal::Integer(number) => Literal::Integer(*number),
            Literal::Long(number) => Literal::Long(*number),
            Literal::Text(text) => Literal::Text(text.copy()?),
        })
    }
}

impl Copied for ConstantValue {
    fn copy(&self) -> Result<ConstantValue, Memory> {
        Ok(match self {
            ConstantValue::Literal(literal) => ConstantValue::Literal(literal.copy()?),
            ConstantValue::NegativeInteger(number) => ConstantValue::NegativeInteger(*number),
            ConstantValue::NegativeLong(number) => ConstantValue::NegativeLong(*number),
        })
    }
}

impl Copied for Constant {
    fn copy(&self) -> Result<Constant, Memory> {
        Ok(Constant {
            name: self.name.copy()?,
            value: self.value.copy()?,
        })
    }
}

impl Copied for Declared {
    fn copy(&self) -> Result<Declared, Memory> {
        Ok(Declared {
            name: self.name.copy()?,
            bounds: copy_bounds(&self.bounds)?,
        })
    }
}

/// The bounds of an array, once more.
pub fn copy_bounds(bounds: &Option<List<i32>>) -> Result<Option<List<i32>>, Memory>
    ensures { Gives result bounds.now }
{
    match bounds {
        None => Ok(None),
        Some(bounds) => Ok(Some(bounds.copy()?)),
    }
}
