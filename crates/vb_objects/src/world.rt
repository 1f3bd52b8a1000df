//! Why one construct more is too many.
ghost use Rattle.std.specs.Prelude.{◌≡◌};
ghost use Rattle.vb_meaning.specs.Errors as spec;
ghost use Rattle.vb_meaning.specs.Shown.{shown};

use vb_meaning::{Cause, Stop, World};
use vb_value::LimitKind;

/// Why one construct more is too many.
pub fn depth_stop(world: &World) -> Stop
    ensures { result ≡ spec.depth_stop (shown world.now) }
{
    if world.terminates {
        Stop::Limit(LimitKind::Depth, None)
    } else {
        Stop::Error(Cause::Language(28), None)
    }
}
