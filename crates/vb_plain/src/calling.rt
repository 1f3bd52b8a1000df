//! Procedures: how they are entered with their arguments, and how they are left.
ghost use Rattle.std.specs.Prelude.{◌≡◌, ◌<◌};
ghost use Rattle.vb_value.specs.declared.value.Value.{Value as Given};
ghost use Rattle.vb_meaning.specs.Calling as spec;
ghost use Rattle.vb_meaning.specs.Meaning.{inside};
ghost use Rattle.vb_meaning.specs.Places.{letting_go};
ghost use Rattle.vb_meaning.specs.Releases as releases;
ghost use Rattle.vb_meaning.specs.Releases.{in_world};
ghost use Rattle.vb_meaning.specs.State.{State};
ghost use Rattle.vb_meaning.specs.Step.{Step, Ran};
ghost use Rattle.vb_meaning.specs.Shown.{shown};
ghost use Rattle.vb_plain.specs.Nests.{Executes, Enters};
ghost use Rattle.vb_objects.specs.Seen.{seen, host};

use crate::rules::Rules;
use std::alloc::Global;
use std::mem;
use vb_meaning::{Argument, Exit, Frame, Stop};
use vb_objects::playing::{Playing, tick};
use vb_objects::world::depth_stop;
use vb_syntax::Intrinsics;
use vb_syntax::program::{Procedure, Program, Statement};
use vb_value::{List, ObjNo, Value, VbError};
use vb_world::entering::{begins, fresh_frame, given_value, leave};

/// How many procedures may be open.
const MOST_CALLS: u32 = 200;

impl<
    I: Intrinsics,
    V,
    A,
    S,
    C,
    T: Fn(Global, u32, &Program, &mut Playing<'_>, &mut I, &Statement) -> Result<Exit, Stop>,
    N: Fn(
        Global,
        u32,
        &Program,
        &mut Playing<'_>,
        &mut I,
        Option<(ObjNo, u32)>,
        &Procedure,
        List<Argument>,
    ) -> Result<Value, Stop>,
> Rules<I, V, A, S, C, T, N> {
    /// The names of a procedure go, and objects end.
    fn departs(
        &self,
        p: &Program,
        playing: &mut Playing<'_>,
        env: &mut I,
        caller: Frame,
        calls: u32,
    ) -> Result<(), Stop>
        requires enters { Enters I (host I.asked I.answered) self.now.levels (N.pre self.now.enter)
            (N.post self.now.enter) }
        ensures { Ran (releases.settle I (inside I (host I.asked I.answered) p.now self.now.levels)
            (in_world I (spec.left (record (shown playing.old.world) { frame = caller; calls = calls })
            (shown playing.old.world))
            (seen playing.old env.old)))
            result (seen playing.new env.new) }
    {
        leave(&mut playing.world, caller, calls);
        self.settle(p, playing, env)
    }

    /// How a procedure is left, by how its own part ended. An error goes on as one of the caller's statement.
    fn abandoned(
        &self,
        p: &Program,
        playing: &mut Playing<'_>,
        env: &mut I,
        caller: Frame,
        calls: u32,
        gave: Result<Value, Stop>,
    ) -> Result<Value, Stop>
        requires enters { Enters I (host I.asked I.answered) self.now.levels (N.pre self.now.enter)
            (N.post self.now.enter) }
        ensures { (step : Step (State I) Given) → Ran step gave (seen playing.old env.old)
            → Ran (spec.abandoned I (inside I (host I.asked I.answered) p.now self.now.levels)
            (record (shown playing.old.world) { frame = caller; calls = calls }) step) result (seen playing.new env.new) }
    {
        match gave {
            Ok(value) => {
                self.departs(p, playing, env, caller, calls)?;
                Ok(value)
            }
            Err(Stop::Error(cause, line)) => {
                self.departs(p, playing, env, caller, calls)?;
                Err(Stop::Error(cause, line))
            }
            Err(Stop::Page) => {
                leave(&mut playing.world, caller, calls);
                Err(Stop::Page)
            }
            Err(why) => Err(why),
        }
    }

    /// The procedure's own part, and the value that it gives, which is held.
    fn runs(
        &self,
        p: &Program,
        playing: &mut Playing<'_>,
        env: &mut I,
        procedure: &Procedure,
        arguments: List<Argument>,
    ) -> Result<Value, Stop>
        requires executes { Executes I (host I.asked I.answered) self.now.levels (T.pre self.now.statement)
            (T.post self.now.statement) }
        ensures { Ran (spec.runs I (inside I (host I.asked I.answered) p.now self.now.levels) procedure.now arguments
            (seen playing.old env.old))
            result (seen playing.new env.new) }
    {
        begins(self.alloc, &mut playing.world, procedure, arguments)?;
        self.block(p, playing, env, procedure.body.as_slice())?;
        given_value(self.alloc, &mut playing.world)
    }

    /// A procedure from its first name to its last.
    fn entered(
        &self,
        p: &Program,
        playing: &mut Playing<'_>,
        env: &mut I,
        owner: Option<(ObjNo, u32)>,
        procedure: &Procedure,
        arguments: List<Argument>,
    ) -> Result<Value, Stop>
        requires few { playing.old.world.calls < 200 }
        requires executes { Executes I (host I.asked I.answered) self.now.levels (T.pre self.now.statement)
            (T.post self.now.statement) }
        requires enters { Enters I (host I.asked I.answered) self.now.levels (N.pre self.now.enter)
            (N.post self.now.enter) }
        ensures { Ran (spec.abandoned I (inside I (host I.asked I.answered) p.now self.now.levels)
            (shown playing.old.world)
            (spec.runs I (inside I (host I.asked I.answered) p.now self.now.levels) procedure.now arguments
            (in_world I (spec.entered owner (shown playing.old.world)) (seen playing.old env.old))))
            result (seen playing.new env.new) }
    {
        let calls = playing.world.calls;
        let caller = mem::replace(&mut playing.world.frame, fresh_frame(self.alloc, owner));
        playing.world.calls = calls + 1;
        let gave = self.runs(p, playing, env, procedure, arguments);
        self.abandoned(p, playing, env, caller, calls, gave)
    }

    /// The same, and behind it its value is held no more.
    fn call_made(
        &self,
        p: &Program,
        playing: &mut Playing<'_>,
        env: &mut I,
        owner: Option<(ObjNo, u32)>,
        procedure: &Procedure,
        arguments: List<Argument>,
    ) -> Result<Value, Stop>
        requires few { playing.old.world.calls < 200 }
        requires executes { Executes I (host I.asked I.answered) self.now.levels (T.pre self.now.statement)
            (T.post self.now.statement) }
        requires enters { Enters I (host I.asked I.answered) self.now.levels (N.pre self.now.enter)
            (N.post self.now.enter) }
        ensures { Ran (letting_go (spec.called I (inside I (host I.asked I.answered) p.now self.now.levels) owner
            procedure.now arguments) (seen playing.old env.old)) result (seen playing.new env.new) }
    {
        let mark = playing.world.heap.mark();
        let value = self.entered(p, playing, env, owner, procedure, arguments)?;
        playing.world.heap.let_go(mark);
        Ok(value)
    }

    /// One more call, while not too many are open.
    #[tactic(auto, unfolding(vb_meaning::specs::Errors::tick))]
    fn opened(
        &self,
        p: &Program,
        playing: &mut Playing<'_>,
        env: &mut I,
        owner: Option<(ObjNo, u32)>,
        procedure: &Procedure,
        arguments: List<Argument>,
    ) -> Result<Value, Stop>
        requires executes { Executes I (host I.asked I.answered) self.now.levels (T.pre self.now.statement)
            (T.post self.now.statement) }
        requires enters { Enters I (host I.asked I.answered) self.now.levels (N.pre self.now.enter)
            (N.post self.now.enter) }
        ensures { Ran (spec.opened I (inside I (host I.asked I.answered) p.now self.now.levels) owner procedure.now
            arguments (seen playing.old env.old))
            result (seen playing.new env.new) }
    {
        if playing.world.calls >= MOST_CALLS {
            return Err(depth_stop(&playing.world));
        }
        tick(playing, env)?;
        self.call_made(p, playing, env, owner, procedure, arguments)
    }

    /// A procedure with its arguments: what it gives. Error 450 for another number of arguments comes first.
    #[tactic(auto, unfolding(vb_meaning::specs::Calling::enter_of))]
    pub fn enter_of(
        &self,
        p: &Program,
        playing: &mut Playing<'_>,
        env: &mut I,
        owner: Option<(ObjNo, u32)>,
        procedure: &Procedure,
        arguments: List<Argument>,
    ) -> Result<Value, Stop>
        requires executes { Executes I (host I.asked I.answered) self.now.levels (T.pre self.now.statement)
            (T.post self.now.statement) }
        requires enters { Enters I (host I.asked I.answered) self.now.levels (N.pre self.now.enter)
            (N.post self.now.enter) }
        ensures { Ran (spec.enter_of I (inside I (host I.asked I.answered) p.now self.now.levels) owner procedure.now
            arguments (seen playing.old env.old))
            result (seen playing.new env.new) }
    {
        if arguments.len() != procedure.by_value.len() {
            return Err(Stop::from(VbError::WRONG_NUMBER));
        }
        self.opened(p, playing, env, owner, procedure, arguments)
    }
}
