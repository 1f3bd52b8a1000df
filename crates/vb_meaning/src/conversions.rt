//! Values as texts and numbers, where an error of the conversion is one of the script.
ghost use Rattle.vb_value.specs.Conversions.{to_long_of, to_str_of};
ghost use Rattle.vb_value.specs.Outcome.{Answers};
ghost use Rattle.vb_meaning.specs.Step.{raising};
ghost use Rattle.vb_meaning.specs.declared.stop.Stop.TheVariants as stop;

use crate::raising::raise;
use crate::stop::Stop;
use std::alloc::Global;
use vb_value::{Text, Value, to_long, to_str};

/// A value as a text.
pub fn text_of(alloc: Global, value: &Value) -> Result<Text, Stop>
    ensures { Answers result stop.Memory (raising (to_str_of value.now)) }
{
    raise(to_str(alloc, value))
}

/// A value as a Long.
pub fn long_of(value: &Value) -> Result<i32, Stop>
    ensures { Answers result stop.Memory (raising (to_long_of value.now)) }
{
    Ok(to_long(value)?)
}
