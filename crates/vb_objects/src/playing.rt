//! What an evaluator holds of an act.
ghost use Rattle.std.specs.Prelude.{◌≡◌};
ghost use Rattle.vb_meaning.specs.Step.{Step, Ran};
ghost use Rattle.vb_meaning.specs.State.{State};
ghost use Rattle.vb_meaning.specs.Errors as errors;
ghost use Rattle.vb_meaning.specs.Asking as asking;
ghost use Rattle.vb_objects.specs.Seen.{seen};

use crate::errors::raised_by;
use std::alloc::Global;
use vb_meaning::{Stop, World, stop_in};
use vb_syntax::Intrinsics;
use vb_value::{AppReply, LimitKind};

/// The world, the ticks, and the replies of the Application object that no call has taken yet.
#[derive(Drop)]
pub struct Playing<'r> {
    /// All that statements change.
    pub world: World,
    /// How many ticks are left.
    pub ticks: u32,
    /// The replies that are left, the next one first.
    pub replies: &'r [AppReply],
}

/// One tick is taken, if one is left.
#[tactic(auto, unfolding(vb_meaning::specs::Errors::tick))]
pub fn tick<I: Intrinsics>(playing: &mut Playing<'_>, env: &I) -> Result<(), Stop>
    ensures runs { Ran (errors.tick (seen playing.old env.now)) result (seen playing.new env.now) }
    ensures world { playing.new.world ≡ playing.old.world }
{
    if playing.ticks == 0 {
        return Err(Stop::Limit(LimitKind::Ticks, None));
    }
    playing.ticks -= 1;
    Ok(())
}

/// Under On Error Resume Next an error only changes Err, and `instead` is given.
pub fn resumed<I: Intrinsics, T: Drop>(
    alloc: Global,
    playing: &mut Playing<'_>,
    env: &I,
    gave: Result<T, Stop>,
    instead: T,
) -> Result<T, Stop>
    ensures { (step : Step (State I) T) → Ran step gave (seen playing.old env.now)
        → Ran (errors.resumed instead step) result (seen playing.new env.now) }
{
    match gave {
        Err(Stop::Error(cause, line)) => {
            if !playing.world.frame.resumes {
                return Err(Stop::Error(cause, line));
            }
            playing.world.err = raised_by(alloc, cause)?;
            Ok(instead)
        }
        other => other,
    }
}

/// A line for an error or a limit that has none.
pub fn in_line<I: Intrinsics, T: Drop>(
    line: u32,
    playing: &Playing<'_>,
    env: &I,
    gave: Result<T, Stop>,
) -> Result<T, Stop>
    ensures { (step : Step (State I) T) → Ran step gave (seen playing.now env.now)
        → Ran (errors.in_line line step) result (seen playing.now env.now) }
{
    match gave {
        Ok(value) => Ok(value),
        Err(why) => Err(stop_in(line, why)),
    }
}
