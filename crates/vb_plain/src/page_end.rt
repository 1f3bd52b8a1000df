//! The end of the page: each object that is left ends.
ghost use Rattle.std.specs.Prelude.{◌≡◌};
ghost use Rattle.vb_meaning.specs.Meaning.{inside};
ghost use Rattle.vb_meaning.specs.Releases as spec;
ghost use Rattle.vb_meaning.specs.Step.{Ran};
ghost use Rattle.vb_meaning.specs.Shown.{shown};
ghost use Rattle.vb_meaning.specs.Ends.{ends_last};
ghost use Rattle.vb_plain.specs.Nests.{Enters};
ghost use Rattle.vb_objects.specs.Seen.{seen, host};

use crate::rules::Rules;
use std::alloc::Global;
use vb_meaning::{Argument, Stop, stop_in};
use vb_objects::ending::{class_number, terminator};
use vb_objects::playing::Playing;
use vb_syntax::Intrinsics;
use vb_syntax::program::{Procedure, Program};
use vb_value::{List, ObjNo, Value};

impl<
    I: Intrinsics,
    V,
    A,
    S,
    C,
    T,
    N: Fn(
        Global,
        u32,
        &Program,
        &mut Playing<'_>,
        &mut I,
        Option<(ObjNo, u32)>,
        &Procedure,
        List<Argument>,
    ) -> Result<Value, Stop>,
> Rules<I, V, A, S, C, T, N> {
    /// The line in which the terminator of an object begins, or 0 where there is none.
    fn line_of(&self, p: &Program, playing: &Playing<'_>, object: ObjNo) -> u32
        ensures { result ≡ spec.line_of I (inside I (host I.asked I.answered) p.now self.now.levels) object.0
            (shown playing.now.world) }
    {
        match terminator(p, class_number(&playing.world, object)) {
            Some(procedure) => procedure.line,
            None => 0,
        }
    }

    /// Ends an object where no statement does, so that its terminator is entered in its own line. The page has ended: a
    /// page stop in a terminator ends that terminator alone.
    #[tactic(auto, unfolding(vb_meaning::specs::Ends::ends_last))]
    fn end_one(
        &self,
        p: &Program,
        playing: &mut Playing<'_>,
        env: &mut I,
        object: ObjNo,
    ) -> Result<(), Stop>
        requires { Enters I (host I.asked I.answered) self.now.levels (N.pre self.now.enter) (N.post self.now.enter) }
        ensures { Ran (ends_last I (inside I (host I.asked I.answered) p.now self.now.levels) object.0
            (seen playing.old env.old)) result (seen playing.new env.new) }
    {
        let line = self.line_of(p, playing, object);
        playing.world.page_ended = true;
        match self.terminate(p, playing, env, object) {
            Ok(()) => Ok(()),
            Err(why) => Err(stop_in(line, why)),
        }
    }

    /// While some live object has no reference, the oldest such ends. It is the page's end.
    #[tactic(auto, using(vb_meaning::proofs::Endings::settle_last_more, vb_meaning::proofs::Endings::settle_last_none), unfolding(vb_meaning::specs::Releases::settle_last))]
    pub fn settle_last(
        &self,
        p: &Program,
        playing: &mut Playing<'_>,
        env: &mut I,
    ) -> Result<(), Stop>
        requires { Enters I (host I.asked I.answered) self.now.levels (N.pre self.now.enter) (N.post self.now.enter) }
        ensures { Ran (spec.settle_last I (inside I (host I.asked I.answered) p.now self.now.levels)
            (seen playing.old env.old)) result (seen playing.new env.new) }
    {
        let mut more = u32::MAX - playing.world.finished;
        while more > 0 {
            more -= 1;
            match playing.world.heap.release_point() {
                Some(object) => self.end_one(p, playing, env, object)?,
                None => return Ok(()),
            }
        }
        Ok(())
    }

    /// Each object that is left ends in the order of creation, and after each what it leaves without references.
    #[tactic(auto, using(vb_meaning::proofs::Endings::end_more, vb_meaning::proofs::Endings::end_none), unfolding(vb_meaning::specs::Releases::end_all))]
    pub fn end_all(&self, p: &Program, playing: &mut Playing<'_>, env: &mut I) -> Result<(), Stop>
        requires { Enters I (host I.asked I.answered) self.now.levels (N.pre self.now.enter) (N.post self.now.enter) }
        ensures { Ran (spec.end_all I (inside I (host I.asked I.answered) p.now self.now.levels)
            (seen playing.old env.old)) result (seen playing.new env.new) }
    {
        let mut more = u32::MAX - playing.world.finished;
        while more > 0 {
            more -= 1;
            match playing.world.heap.last_point() {
                Some(object) => self.end_one(p, playing, env, object)?,
                None => return Ok(()),
            }
            self.settle_last(p, playing, env)?;
        }
        Ok(())
    }
}
