//! The names that a path begins with.
ghost use Rattle.std.specs.Prelude.{◌≡◌};
ghost use Rattle.vb_syntax.specs.declared.program.name.Named.TheVariants as named;
ghost use Rattle.vb_meaning.specs.Accesses.{accesses};
ghost use Rattle.vb_meaning.specs.Meaning.{inside};
ghost use Rattle.vb_meaning.specs.Reading as spec;
ghost use Rattle.vb_meaning.specs.Step.{Ran};
ghost use Rattle.vb_plain.specs.Nests.{Evaluates, Passes, Enters};
ghost use Rattle.vb_objects.specs.Seen.{seen, host};

use crate::rules::Rules;
use std::alloc::Global;
use vb_meaning::{Argument, Reached, Stop};
use vb_objects::classes::own_read;
use vb_objects::functions::{create_object, type_name};
use vb_objects::playing::Playing;
use vb_syntax::Intrinsics;
use vb_syntax::program::{Expression, Named, Procedure, Program, Step};
use vb_value::{List, ObjNo, Value, VbError};
use vb_world::accesses::split_call;
use vb_world::values::{literal_value, local_constant, page_constant};

impl<
    I: Intrinsics,
    V: Fn(Global, u32, &Program, &mut Playing<'_>, &mut I, &Expression) -> Result<Value, Stop>,
    A: Fn(Global, u32, &Program, &mut Playing<'_>, &mut I, &Expression) -> Result<Argument, Stop>,
    S,
    C,
    T,
    N: Fn(
        Global,
        u32,
        &Program,
        &mut Playing<'_>,
        &mut I,
        Option<(ObjNo, u32)>,
        &Procedure,
        List<Argument>,
    ) -> Result<Value, Stop>,
> Rules<I, V, A, S, C, T, N> {
    /// A name that stands for nothing. A call of it is error 13, once its arguments are evaluated.
    #[tactic(auto, using(vb_meaning::proofs::Unknown::unknown_member))]
    pub fn unknown(
        &self,
        p: &Program,
        playing: &mut Playing<'_>,
        env: &mut I,
        steps: &[Step],
    ) -> Result<Reached, Stop>
        requires { Evaluates I (host I.asked I.answered) self.now.levels (V.pre self.now.value)
            (V.post self.now.value) }
        ensures { Ran (spec.unknown I (inside I (host I.asked I.answered) p.now self.now.levels)
            (accesses steps.now) (seen playing.old env.old)) result (seen playing.new env.new) }
    {
        match steps {
            [Step::Group(supplied), ..] => {
                self.values(p, playing, env, supplied.as_slice())?;
                Err(Stop::from(VbError::TYPE_MISMATCH))
            }
            [] | [Step::Member(_), ..] => Err(Stop::from(VbError::UNDEFINED_VARIABLE)),
        }
    }

    /// `TypeName` with its argument, and what is reached from the name.
    fn type_name(
        &self,
        p: &Program,
        playing: &mut Playing<'_>,
        env: &mut I,
        steps: &[Step],
    ) -> Result<Reached, Stop>
        requires evaluates { Evaluates I (host I.asked I.answered) self.now.levels (V.pre self.now.value)
            (V.post self.now.value) }
        requires passes { Passes I (host I.asked I.answered) self.now.levels (A.pre self.now.argument)
            (A.post self.now.argument) }
        requires enters { Enters I (host I.asked I.answered) self.now.levels (N.pre self.now.enter)
            (N.post self.now.enter) }
        ensures { Ran (spec.from_name I (inside I (host I.asked I.answered) p.now self.now.levels) named.TypeName
            (accesses steps.now) (seen playing.old env.old)) result (seen playing.new env.new) }
    {
        let (supplied, rest) = split_call(steps);
        let arguments = self.values(p, playing, env, supplied)?;
        let name = type_name(self.alloc, p, &playing.world, arguments.as_slice())?;
        self.walk(p, playing, env, Reached::Value(name), rest)
    }

    /// `CreateObject` with its argument, and what is reached from the object.
    fn create_object(
        &self,
        p: &Program,
        playing: &mut Playing<'_>,
        env: &mut I,
        steps: &[Step],
    ) -> Result<Reached, Stop>
        requires evaluates { Evaluates I (host I.asked I.answered) self.now.levels (V.pre self.now.value)
            (V.post self.now.value) }
        requires passes { Passes I (host I.asked I.answered) self.now.levels (A.pre self.now.argument)
            (A.post self.now.argument) }
        requires enters { Enters I (host I.asked I.answered) self.now.levels (N.pre self.now.enter)
            (N.post self.now.enter) }
        ensures { Ran (spec.from_name I (inside I (host I.asked I.answered) p.now self.now.levels) named.CreateObject
            (accesses steps.now) (seen playing.old env.old)) result (seen playing.new env.new) }
    {
        let (supplied, rest) = split_call(steps);
        let arguments = self.values(p, playing, env, supplied)?;
        let object = create_object(self.alloc, &mut playing.world, arguments.as_slice())?;
        self.walk(p, playing, env, Reached::Value(object), rest)
    }

    /// A method or a property of the class around that is read, and what is reached from what it gives.
    fn own(
        &self,
        p: &Program,
        playing: &mut Playing<'_>,
        env: &mut I,
        number: u32,
        steps: &[Step],
    ) -> Result<Reached, Stop>
        requires evaluates { Evaluates I (host I.asked I.answered) self.now.levels (V.pre self.now.value)
            (V.post self.now.value) }
        requires passes { Passes I (host I.asked I.answered) self.now.levels (A.pre self.now.argument)
            (A.post self.now.argument) }
        requires enters { Enters I (host I.asked I.answered) self.now.levels (N.pre self.now.enter)
            (N.post self.now.enter) }
        ensures { Ran (spec.from_name I (inside I (host I.asked I.answered) p.now self.now.levels) (named.Own number)
            (accesses steps.now) (seen playing.old env.old)) result (seen playing.new env.new) }
    {
        let owner = playing.world.frame.owner;
        let found = own_read(p, owner, number);
        self.procedure(p, playing, env, owner, found, steps)
    }

    /// A constant of the page, and what is reached from its value.
    fn page_constant(
        &self,
        p: &Program,
        playing: &mut Playing<'_>,
        env: &mut I,
        number: u32,
        steps: &[Step],
    ) -> Result<Reached, Stop>
        requires evaluates { Evaluates I (host I.asked I.answered) self.now.levels (V.pre self.now.value)
            (V.post self.now.value) }
        requires passes { Passes I (host I.asked I.answered) self.now.levels (A.pre self.now.argument)
            (A.post self.now.argument) }
        requires enters { Enters I (host I.asked I.answered) self.now.levels (N.pre self.now.enter)
            (N.post self.now.enter) }
        ensures { Ran (spec.from_name I (inside I (host I.asked I.answered) p.now self.now.levels) (named.PageConstant number)
            (accesses steps.now) (seen playing.old env.old)) result (seen playing.new env.new) }
    {
        let value = page_constant(p, number)?;
        self.walk(p, playing, env, Reached::Value(value), steps)
    }

    /// A constant of the procedure, and what is reached from its value.
    fn local_constant(
        &self,
        p: &Program,
        playing: &mut Playing<'_>,
        env: &mut I,
        number: u32,
        steps: &[Step],
    ) -> Result<Reached, Stop>
        requires evaluates { Evaluates I (host I.asked I.answered) self.now.levels (V.pre self.now.value)
            (V.post self.now.value) }
        requires passes { Passes I (host I.asked I.answered) self.now.levels (A.pre self.now.argument)
            (A.post self.now.argument) }
        requires enters { Enters I (host I.asked I.answered) self.now.levels (N.pre self.now.enter)
            (N.post self.now.enter) }
        ensures { Ran (spec.from_name I (inside I (host I.asked I.answered) p.now self.now.levels) (named.LocalConstant number)
            (accesses steps.now) (seen playing.old env.old)) result (seen playing.new env.new) }
    {
        let value = local_constant(self.alloc, &playing.world, number)?;
        self.walk(p, playing, env, Reached::Value(value), steps)
    }

    /// What is reached from a name.
    pub fn from_name(
        &self,
        p: &Program,
        playing: &mut Playing<'_>,
        env: &mut I,
        name: &Named,
        steps: &[Step],
    ) -> Result<Reached, Stop>
        requires evaluates { Evaluates I (host I.asked I.answered) self.now.levels (V.pre self.now.value)
            (V.post self.now.value) }
        requires passes { Passes I (host I.asked I.answered) self.now.levels (A.pre self.now.argument)
            (A.post self.now.argument) }
        requires enters { Enters I (host I.asked I.answered) self.now.levels (N.pre self.now.enter)
            (N.post self.now.enter) }
        ensures { Ran (spec.from_name I (inside I (host I.asked I.answered) p.now self.now.levels) name.now
            (accesses steps.now) (seen playing.old env.old)) result (seen playing.new env.new) }
    {
        match name {
            Named::Place(slot) => self.from_variable(p, playing, env, *slot, steps),
            Named::Own(number) => self.own(p, playing, env, *number, steps),
            Named::PageConstant(number) => self.page_constant(p, playing, env, *number, steps),
            Named::LocalConstant(number) => self.local_constant(p, playing, env, *number, steps),
            Named::Value(literal) => {
                let value = literal_value(literal)?;
                self.walk(p, playing, env, Reached::Value(value), steps)
            }
            Named::Procedure(number) => {
                let found = p.unit.procedures.get(*number as usize);
                self.procedure(p, playing, env, None, found, steps)
            }
            Named::StringFunction(found) => self.string_function(p, playing, env, *found, steps),
            Named::PlainFunction(found) => self.plain_function(p, playing, env, *found, steps),
            Named::TypeName => self.type_name(p, playing, env, steps),
            Named::CreateObject => self.create_object(p, playing, env, steps),
            Named::Unknown => self.unknown(p, playing, env, steps),
            Named::Class(_) | Named::Err => Err(Stop::from(VbError::TYPE_MISMATCH)),
        }
    }
}
