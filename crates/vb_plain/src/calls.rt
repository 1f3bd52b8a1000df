//! A path that a statement calls.
ghost use Rattle.std.specs.Prelude.{◌≡◌, []};
ghost use Rattle.vb_meaning.specs.declared.reached.Reached.TheVariants.{Place as AtPlace};
ghost use Rattle.vb_meaning.specs.Accesses.{accesses};
ghost use Rattle.vb_meaning.specs.Meaning.{inside};
ghost use Rattle.vb_meaning.specs.Statements as spec;
ghost use Rattle.vb_meaning.specs.Paths.{element};
ghost use Rattle.vb_meaning.specs.Places.{variable};
ghost use Rattle.vb_meaning.specs.Step.{Ran, and_then, pure};
ghost use Rattle.vb_meaning.specs.Shown.{shown};
ghost use Rattle.vb_plain.specs.Nests.{Evaluates, Passes, Enters};
ghost use Rattle.vb_objects.specs.Seen.{seen, host};

use crate::rules::Rules;
use std::alloc::Global;
use vb_meaning::{Argument, Reached, Stop, World};
use vb_objects::playing::Playing;
use vb_syntax::Intrinsics;
use vb_syntax::program::{Expression, Head, Named, Path, Procedure, Program, Slot, Step};
use vb_value::{List, ObjNo, Value, VbError};
use vb_world::accesses::first_access;
use vb_world::paths::element;
use vb_world::places::variable;

/// A variable alone that is called: it is asked for an element.
fn call_variable(alloc: Global, world: &mut World, slot: Slot) -> Result<(), Stop>
    ensures { Ran (and_then (variable slot (shown world.old))
        (λ place w. and_then (element (AtPlace place) [] w) (λ reached. pure tt))) result (shown world.new) }
{
    let place = variable(alloc, world, slot)?;
    element(alloc, world, Reached::Place(place), &[])?;
    Ok(())
}

impl<
    I: Intrinsics,
    V: Fn(Global, u32, &Program, &mut Playing<'_>, &mut I, &Expression) -> Result<Value, Stop>,
    A: Fn(Global, u32, &Program, &mut Playing<'_>, &mut I, &Expression) -> Result<Argument, Stop>,
    S,
    C,
    T,
    N: Fn(
        Global,
        u32,
        &Program,
        &mut Playing<'_>,
        &mut I,
        Option<(ObjNo, u32)>,
        &Procedure,
        List<Argument>,
    ) -> Result<Value, Stop>,
> Rules<I, V, A, S, C, T, N> {
    /// A call of where a path begins, where nothing stands behind. Error 13 for a constant and for a name that stands for
    /// nothing.
    fn call_alone(
        &self,
        p: &Program,
        playing: &mut Playing<'_>,
        env: &mut I,
        head: &Head,
    ) -> Result<(), Stop>
        requires evaluates { Evaluates I (host I.asked I.answered) self.now.levels (V.pre self.now.value)
            (V.post self.now.value) }
        requires passes { Passes I (host I.asked I.answered) self.now.levels (A.pre self.now.argument)
            (A.post self.now.argument) }
        requires enters { Enters I (host I.asked I.answered) self.now.levels (N.pre self.now.enter)
            (N.post self.now.enter) }
        ensures { Ran (spec.call_head I (inside I (host I.asked I.answered) p.now self.now.levels) head.now [] (seen
            playing.old env.old)) result (seen playing.new env.new) }
    {
        match head {
            Head::Named(Named::Place(slot)) => call_variable(self.alloc, &mut playing.world, *slot),
            Head::Named(
                Named::PageConstant(_) | Named::LocalConstant(_) | Named::Value(_) | Named::Unknown,
            ) => Err(Stop::from(VbError::TYPE_MISMATCH)),
            _ => {
                self.from_head(p, playing, env, head, &[])?;
                Ok(())
            }
        }
    }

    /// A call of where a path begins, with what stands behind.
    #[tactic(auto, using(vb_meaning::proofs::CallSteps::call_more))]
    fn call_head(
        &self,
        p: &Program,
        playing: &mut Playing<'_>,
        env: &mut I,
        head: &Head,
        steps: &[Step],
    ) -> Result<(), Stop>
        requires evaluates { Evaluates I (host I.asked I.answered) self.now.levels (V.pre self.now.value)
            (V.post self.now.value) }
        requires passes { Passes I (host I.asked I.answered) self.now.levels (A.pre self.now.argument)
            (A.post self.now.argument) }
        requires enters { Enters I (host I.asked I.answered) self.now.levels (N.pre self.now.enter)
            (N.post self.now.enter) }
        ensures { Ran (spec.call_head I (inside I (host I.asked I.answered) p.now self.now.levels) head.now (accesses
            steps.now) (seen playing.old env.old)) result (seen playing.new env.new) }
    {
        if first_access(steps).is_none() {
            return self.call_alone(p, playing, env, head);
        }
        self.from_head(p, playing, env, head, steps)?;
        Ok(())
    }

    /// Calls a path, as a statement does.
    #[tactic(auto, unfolding(vb_meaning::specs::Statements::call_of))]
    pub fn call_of(
        &self,
        p: &Program,
        playing: &mut Playing<'_>,
        env: &mut I,
        path: &Path,
    ) -> Result<(), Stop>
        requires evaluates { Evaluates I (host I.asked I.answered) self.now.levels (V.pre self.now.value)
            (V.post self.now.value) }
        requires passes { Passes I (host I.asked I.answered) self.now.levels (A.pre self.now.argument)
            (A.post self.now.argument) }
        requires enters { Enters I (host I.asked I.answered) self.now.levels (N.pre self.now.enter)
            (N.post self.now.enter) }
        ensures { Ran (spec.call_of I (inside I (host I.asked I.answered) p.now self.now.levels) path.now (seen
            playing.old env.old)) result (seen playing.new env.new) }
    {
        self.call_head(p, playing, env, &path.head, path.steps.as_slice())
    }
}
