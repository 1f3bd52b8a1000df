//! Names of kinds of values.
ghost use Rattle.std.specs.Prelude.{◌≡◌};
ghost use Rattle.vb_value.specs.Outcome.{Gives};
ghost use Rattle.vb_funcs.specs.TypeNames as spec;

use std::alloc::Global;
use vb_value::{Copied, Memory, Text, Value};

/// The name of the value's kind, as `TypeName` tells it. `class` is the name of an object's class as declared, or
/// `Dictionary`; it counts for an object alone.
pub fn type_name(alloc: Global, value: &Value, class: &Text) -> Result<Text, Memory>
    ensures { Gives result (spec.type_name_of value.now class.now) }
{
    match value {
        Value::Empty => Text::from_slice(alloc, &['E', 'm', 'p', 't', 'y']),
        Value::Null => Text::from_slice(alloc, &['N', 'u', 'l', 'l']),
        Value::Bool(_) => Text::from_slice(alloc, &['B', 'o', 'o', 'l', 'e', 'a', 'n']),
        Value::Int(_) => Text::from_slice(alloc, &['I', 'n', 't', 'e', 'g', 'e', 'r']),
        Value::Long(_) => Text::from_slice(alloc, &['L', 'o', 'n', 'g']),
        Value::Cur(_) => Text::from_slice(alloc, &['C', 'u', 'r', 'r', 'e', 'n', 'c', 'y']),
        Value::Str(_) => Text::from_slice(alloc, &['S', 't', 'r', 'i', 'n', 'g']),
        Value::Arr(_) => Text::from_slice(alloc, &['V', 'a', 'r', 'i', 'a', 'n', 't', '(', ')']),
        Value::Obj(_) => class.copy(),
        Value::Nothing => Text::from_slice(alloc, &['N', 'o', 't', 'h', 'i', 'n', 'g']),
    }
}
