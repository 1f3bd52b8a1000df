//! The object whose method runs, and the subject of the With around.
ghost use Rattle.std.specs.Prelude.{◌≡◌, unwrap_or};
ghost use Rattle.std.specs.Option.{option_copied};
ghost use Rattle.vb_value.specs.declared.value.Value.{Nothing as NoObject};
ghost use Rattle.vb_meaning.specs.Reading as spec;
ghost use Rattle.vb_meaning.specs.Step.{Ran};
ghost use Rattle.vb_meaning.specs.Shown.{shown};

use std::alloc::Global;
use vb_meaning::{Stop, World};
use vb_value::{Value, VbError, copy};

/// The object whose method runs. Error 91 where no method runs.
pub fn me_value(world: &World) -> Result<Value, Stop>
    ensures { Ran (spec.me_value world.now.frame.owner (shown world.now)) result (shown world.now) }
{
    match world.frame.owner {
        Some((object, _)) => Ok(Value::Obj(object)),
        None => Err(Stop::from(VbError::OBJECT_NOT_SET)),
    }
}

/// The last of some subjects, if there is one.
#[tactic(auto, using(crate::proofs::Subjects::last_subject))]
fn innermost<'a>(subjects: &'a [Value]) -> Option<&'a Value>
    ensures { spec.last_of subjects.now ≡ unwrap_or (option_copied result) NoObject }
{
    subjects.last()
}

/// The subject of the innermost With around, `Nothing` where there is none.
pub fn subject(alloc: Global, world: &World) -> Result<Value, Stop>
    ensures { Ran (spec.subject (shown world.now)) result (shown world.now) }
{
    match innermost(world.frame.subjects.as_slice()) {
        Some(value) => Ok(copy(alloc, value)?),
        None => Ok(Value::Nothing),
    }
}
