//! Statements as wholes.
ghost use Rattle.vb_meaning.specs.declared.world.Exit.TheVariants.{Next};
ghost use Rattle.vb_meaning.specs.Errors as errors;
ghost use Rattle.vb_meaning.specs.Executing as spec;
ghost use Rattle.vb_meaning.specs.State.{on_world};
ghost use Rattle.vb_meaning.specs.Step.{Ran};
ghost use Rattle.vb_syntax.specs.declared.program.statement.StatementKind.{out-StatementKind};
ghost use Rattle.vb_objects.specs.Seen.{seen};

use std::alloc::Global;
use vb_meaning::{Exit, Stop};
use vb_objects::playing::{Playing, in_line, resumed};
use vb_objects::world::depth_stop;
use vb_syntax::Intrinsics;
use vb_syntax::program::{Statement, StatementKind};

/// One construct too many.
fn deep<I: Intrinsics>(playing: &Playing<'_>, env: &I) -> Result<Exit, Stop>
    ensures { Ran (on_world errors.too_deep (seen playing.now env.now)) result (seen playing.now env.now) }
{
    Err(depth_stop(&playing.world))
}

/// The same as an error in a statement of this line.
fn too_deep<I: Intrinsics>(
    alloc: Global,
    playing: &mut Playing<'_>,
    env: &I,
    line: u32,
) -> Result<Exit, Stop>
    ensures { Ran (errors.in_line line (errors.resumed Next (on_world errors.too_deep (seen playing.old env.now)))) result
        (seen playing.new env.now) }
{
    let gave = deep(playing, env);
    let gave = resumed(alloc, playing, env, gave, Exit::Next);
    in_line(line, playing, env, gave)
}

/// A statement where no more constructs may be begun, which is an error in it. A declaration is no statement.
pub fn refused<I: Intrinsics>(
    alloc: Global,
    playing: &mut Playing<'_>,
    env: &I,
    statement: &Statement,
) -> Result<Exit, Stop>
    ensures { Ran (spec.refused statement.now.line (out-StatementKind statement.now.kind) (seen playing.old env.now)) result
        (seen playing.new env.now) }
{
    match &statement.kind {
        StatementKind::Declaration => Ok(Exit::Next),
        _ => too_deep(alloc, playing, env, statement.line),
    }
}
