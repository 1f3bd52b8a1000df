//! Release points: objects end to which nothing refers any more.
ghost use Rattle.vb_meaning.specs.Meaning.{inside};
ghost use Rattle.vb_meaning.specs.Places.{let_go};
ghost use Rattle.vb_meaning.specs.Releases as spec;
ghost use Rattle.vb_meaning.specs.State.{State};
ghost use Rattle.vb_meaning.specs.Step.{Step, Ran};
ghost use Rattle.vb_meaning.specs.Stored as stored;
ghost use Rattle.vb_meaning.specs.Shown.{shown};
ghost use Rattle.vb_plain.specs.Nests.{Enters};
ghost use Rattle.vb_objects.specs.Seen.{seen, host};

use crate::rules::Rules;
use std::alloc::Global;
use std::mem;
use vb_meaning::{Argument, Stop};
use vb_objects::ending::{class_number, end_object, terminator};
use vb_objects::errors::no_error;
use vb_objects::playing::Playing;
use vb_syntax::Intrinsics;
use vb_syntax::program::{Procedure, Program};
use vb_value::{List, ObjNo, Value};

impl<
    I: Intrinsics,
    V,
    A,
    S,
    C,
    T,
    N: Fn(
        Global,
        u32,
        &Program,
        &mut Playing<'_>,
        &mut I,
        Option<(ObjNo, u32)>,
        &Procedure,
        List<Argument>,
    ) -> Result<Value, Stop>,
> Rules<I, V, A, S, C, T, N> {
    /// Runs the terminator of an object, if its class has one.
    fn run_terminator(
        &self,
        p: &Program,
        playing: &mut Playing<'_>,
        env: &mut I,
        object: ObjNo,
    ) -> Result<Value, Stop>
        requires { Enters I (host I.asked I.answered) self.now.levels (N.pre self.now.enter) (N.post self.now.enter) }
        ensures { Ran (spec.terminator_of I (inside I (host I.asked I.answered) p.now self.now.levels) object.0
            (stored.class_number object.0 (shown playing.old.world).store) (seen playing.old env.old))
            result (seen playing.new env.new) }
    {
        let class = class_number(&playing.world, object);
        let found = terminator(p, class);
        match (class, found) {
            (Some(class), Some(procedure)) => self.enter(
                p,
                playing,
                env,
                Some((object, class)),
                procedure,
                List::new(self.alloc),
            ),
            _ => Ok(Value::Empty),
        }
    }

    /// Runs the terminator of an ending object, if its class has one, and ends the object. An error ends the terminator
    /// alone, and so does a page stop once the page has ended.
    #[tactic(auto, unfolding(vb_meaning::specs::Releases::terminate))]
    pub fn terminate(
        &self,
        p: &Program,
        playing: &mut Playing<'_>,
        env: &mut I,
        object: ObjNo,
    ) -> Result<(), Stop>
        requires { Enters I (host I.asked I.answered) self.now.levels (N.pre self.now.enter) (N.post self.now.enter) }
        ensures { Ran (spec.terminate I (inside I (host I.asked I.answered) p.now self.now.levels) object.0
            (seen playing.old env.old)) result (seen playing.new env.new) }
    {
        let terminates = playing.world.terminates;
        let page_ended = playing.world.page_ended;
        let err = mem::replace(&mut playing.world.err, no_error(self.alloc));
        playing.world.terminates = true;
        match self.run_terminator(p, playing, env, object) {
            Ok(_) | Err(Stop::Error(_, _)) => {
                end_object(&mut playing.world, object, err, terminates)?;
                Ok(())
            }
            Err(Stop::Page) => {
                end_object(&mut playing.world, object, err, terminates)?;
                if page_ended { Ok(()) } else { Err(Stop::Page) }
            }
            Err(why) => Err(why),
        }
    }

    /// While some live object has no reference, the oldest such ends.
    #[tactic(auto, using(vb_meaning::proofs::Endings::settle_more, vb_meaning::proofs::Endings::settle_none), unfolding(vb_meaning::specs::Releases::settle))]
    pub fn settle(&self, p: &Program, playing: &mut Playing<'_>, env: &mut I) -> Result<(), Stop>
        requires { Enters I (host I.asked I.answered) self.now.levels (N.pre self.now.enter) (N.post self.now.enter) }
        ensures { Ran (spec.settle I (inside I (host I.asked I.answered) p.now self.now.levels)
            (seen playing.old env.old)) result (seen playing.new env.new) }
    {
        let mut more = u32::MAX - playing.world.finished;
        while more > 0 {
            more -= 1;
            match playing.world.heap.release_point() {
                Some(object) => self.terminate(p, playing, env, object)?,
                None => return Ok(()),
            }
        }
        Ok(())
    }

    /// Lets go what is held since so many references were, and objects end.
    pub fn let_go(
        &self,
        p: &Program,
        playing: &mut Playing<'_>,
        env: &mut I,
        mark: u32,
    ) -> Result<(), Stop>
        requires { Enters I (host I.asked I.answered) self.now.levels (N.pre self.now.enter) (N.post self.now.enter) }
        ensures { Ran (spec.settle I (inside I (host I.asked I.answered) p.now self.now.levels)
            (spec.in_world I (let_go mark (shown playing.old.world)) (seen playing.old env.old))) result
            (seen playing.new env.new) }
    {
        playing.world.heap.let_go(mark);
        self.settle(p, playing, env)
    }

    /// The end of a statement or of a head that gave this, where so many references were held before it: what it held is
    /// held no more, and objects end. An error goes on behind it.
    pub fn release<X: Drop>(
        &self,
        p: &Program,
        playing: &mut Playing<'_>,
        env: &mut I,
        mark: u32,
        gave: Result<X, Stop>,
    ) -> Result<X, Stop>
        requires { Enters I (host I.asked I.answered) self.now.levels (N.pre self.now.enter) (N.post self.now.enter) }
        ensures { (step : Step (State I) X) → Ran step gave (seen playing.old env.old)
            → Ran (spec.release I (inside I (host I.asked I.answered) p.now self.now.levels) mark step)
            result (seen playing.new env.new) }
    {
        match gave {
            Ok(value) => {
                self.let_go(p, playing, env, mark)?;
                Ok(value)
            }
            Err(Stop::Error(cause, line)) => {
                self.let_go(p, playing, env, mark)?;
                Err(Stop::Error(cause, line))
            }
            Err(why) => Err(why),
        }
    }
}
