//! The members of Err.
ghost use Rattle.std.specs.Prelude.{◌≡◌};
ghost use Rattle.std.specs.Option.{option_copied};
ghost use Rattle.vb_value.specs.Outcome.{Answers};
ghost use Rattle.vb_meaning.specs.ErrObject as spec;
ghost use Rattle.vb_meaning.specs.Step.{Ran, raising};
ghost use Rattle.vb_meaning.specs.declared.stop.Stop.TheVariants as stop;
ghost use Rattle.vb_meaning.specs.Shown.{shown};

use crate::errors::{clear, language_source};
use std::alloc::Global;
use vb_meaning::{Cause, Raised, Stop, World, long_of, text_of};
use vb_syntax::program::ErrMember;
use vb_value::{Copied, Value, VbError, error_text};

/// The error that Raise raises with this number, source and description, those that are left out as the language's.
fn raised(
    alloc: Global,
    number: i32,
    source: Option<&Value>,
    description: Option<&Value>,
) -> Result<Raised, Stop>
    ensures { Answers result stop.Memory
        (raising (spec.raised number (option_copied source.entry) (option_copied description.entry))) }
{
    if number == 0 {
        return Err(Stop::from(VbError::INVALID_CALL));
    }
    let source = match source {
        Some(value) => text_of(alloc, value)?,
        None => language_source(alloc)?,
    };
    let description = match description {
        Some(value) => text_of(alloc, value)?,
        None => error_text(alloc, number)?,
    };
    Ok(Raised {
        number,
        source,
        description,
    })
}

/// The error that Raise raises with these arguments.
fn raise_of(alloc: Global, arguments: &[Value]) -> Result<Raised, Stop>
    ensures { Answers result stop.Memory (raising (spec.raise_of arguments.now)) }
{
    match arguments {
        [number] => raised(alloc, long_of(number)?, None, None),
        [number, source] => raised(alloc, long_of(number)?, Some(source), None),
        [number, source, description] => {
            raised(alloc, long_of(number)?, Some(source), Some(description))
        }
        _ => Err(Stop::from(VbError::WRONG_NUMBER)),
    }
}

/// A member of Err that is read or called.
#[tactic(auto, unfolding(vb_meaning::specs::ErrObject::err_value))]
pub fn err_value(
    alloc: Global,
    world: &mut World,
    member: ErrMember,
    arguments: &[Value],
) -> Result<Value, Stop>
    ensures { Ran (spec.err_value member arguments.now (shown world.old)) result (shown world.new) }
{
    match member {
        ErrMember::Raise => Err(Stop::Error(Cause::Raised(raise_of(alloc, arguments)?), None)),
        ErrMember::Absent => Err(Stop::from(VbError::UNSUPPORTED)),
        ErrMember::Number if arguments.is_empty() => Ok(Value::Long(world.err.number)),
        ErrMember::Description if arguments.is_empty() => Ok(Value::Str(
            world.err.description.copy()?,
        )),
        ErrMember::Source if arguments.is_empty() => Ok(Value::Str(world.err.source.copy()?)),
        ErrMember::Clear if arguments.is_empty() => {
            clear(alloc, world);
            Ok(Value::Empty)
        }
        _ => Err(Stop::from(VbError::WRONG_NUMBER)),
    }
}

/// A member of Err that is assigned to.
#[tactic(auto, unfolding(vb_meaning::specs::ErrObject::set_err))]
pub fn set_err(
    alloc: Global,
    world: &mut World,
    member: ErrMember,
    value: &Value,
) -> Result<(), Stop>
    ensures { Ran (spec.set_err member value.now (shown world.old)) result (shown world.new) }
{
    match member {
        ErrMember::Number => world.err.number = long_of(value)?,
        ErrMember::Description => world.err.description = text_of(alloc, value)?,
        ErrMember::Source => world.err.source = text_of(alloc, value)?,
        _ => return Err(Stop::from(VbError::UNSUPPORTED)),
    }
    Ok(())
}
