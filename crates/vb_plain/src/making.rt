//! `New`: an object of a class.
ghost use Rattle.std.specs.Prelude.{◌≡◌};
ghost use Rattle.std.specs.Option.{option_copied};
ghost use Rattle.vb_meaning.specs.Making as spec;
ghost use Rattle.vb_meaning.specs.Meaning.{inside};
ghost use Rattle.vb_meaning.specs.Step.{Ran};
ghost use Rattle.vb_plain.specs.Nests.{Enters};
ghost use Rattle.vb_objects.specs.Seen.{seen, host};

use crate::rules::Rules;
use std::alloc::Global;
use vb_meaning::{Argument, Stop};
use vb_objects::classes::class_at;
use vb_objects::playing::Playing;
use vb_syntax::Intrinsics;
use vb_syntax::program::{Class, Expression, Procedure, Program};
use vb_value::{List, ObjNo, Value, VbError};
use vb_world::fields::{initializer, object_made};

impl<
    I: Intrinsics,
    V: Fn(Global, u32, &Program, &mut Playing<'_>, &mut I, &Expression) -> Result<Value, Stop>,
    A: Fn(Global, u32, &Program, &mut Playing<'_>, &mut I, &Expression) -> Result<Argument, Stop>,
    S,
    C,
    T,
    N: Fn(
        Global,
        u32,
        &Program,
        &mut Playing<'_>,
        &mut I,
        Option<(ObjNo, u32)>,
        &Procedure,
        List<Argument>,
    ) -> Result<Value, Stop>,
> Rules<I, V, A, S, C, T, N> {
    /// Runs Class_Initialize, if the class has one, and gives the object.
    fn initialized(
        &self,
        p: &Program,
        playing: &mut Playing<'_>,
        env: &mut I,
        object: ObjNo,
        number: u32,
        initialize: Option<&Procedure>,
    ) -> Result<Value, Stop>
        requires enters { Enters I (host I.asked I.answered) self.now.levels (N.pre self.now.enter)
            (N.post self.now.enter) }
        ensures { Ran (spec.initialized I (inside I (host I.asked I.answered) p.now self.now.levels) object number
            (option_copied initialize.entry) (seen playing.old env.old)) result (seen playing.new env.new) }
    {
        if let Some(procedure) = initialize {
            self.enter(
                p,
                playing,
                env,
                Some((object, number)),
                procedure,
                List::new(self.alloc),
            )?;
        }
        Ok(Value::Obj(object))
    }

    /// An object of a class, which is held until it is given.
    fn made(
        &self,
        p: &Program,
        playing: &mut Playing<'_>,
        env: &mut I,
        number: u32,
        class: &Class,
    ) -> Result<Value, Stop>
        requires enters { Enters I (host I.asked I.answered) self.now.levels (N.pre self.now.enter)
            (N.post self.now.enter) }
        ensures { Ran (spec.made I (inside I (host I.asked I.answered) p.now self.now.levels) number class.now (seen
            playing.old env.old)) result (seen playing.new env.new) }
    {
        let mark = playing.world.heap.mark();
        let object = object_made(
            self.alloc,
            &mut playing.world,
            number,
            class.fields.as_slice(),
        )?;
        let value = self.initialized(p, playing, env, object, number, initializer(class))?;
        playing.world.heap.let_go(mark);
        Ok(value)
    }

    /// An object of the class of this number. Error 506 where the program has no such class.
    #[tactic(auto, unfolding(vb_meaning::specs::Making::new_of))]
    pub fn new_of(
        &self,
        p: &Program,
        playing: &mut Playing<'_>,
        env: &mut I,
        number: Option<u32>,
    ) -> Result<Value, Stop>
        requires enters { Enters I (host I.asked I.answered) self.now.levels (N.pre self.now.enter)
            (N.post self.now.enter) }
        ensures { Ran (spec.new_of I (inside I (host I.asked I.answered) p.now self.now.levels) number (seen
            playing.old env.old)) result (seen playing.new env.new) }
    {
        let Some(number) = number else {
            return Err(Stop::from(VbError::UNDEFINED_CLASS));
        };
        match class_at(p, number) {
            Some(class) => self.made(p, playing, env, number, class),
            None => Err(Stop::from(VbError::UNDEFINED_CLASS)),
        }
    }
}
