//! A path whose value is wanted.
ghost use Rattle.std.specs.Prelude.{◌≡◌, Option};
ghost use Rattle.std.specs.Option.{option_copied};
ghost use Rattle.vb_meaning.specs.Accesses.{accesses, given_arguments};
ghost use Rattle.vb_meaning.specs.Meaning.{inside};
ghost use Rattle.vb_meaning.specs.Reading as spec;
ghost use Rattle.vb_meaning.specs.Step.{Ran};
ghost use Rattle.vb_plain.specs.Nests.{Evaluates, Passes, Enters};
ghost use Rattle.vb_objects.specs.Seen.{seen, host};
ghost use Rattle.vb_world.specs.Steps.{access_seen};

use crate::rules::Rules;
use std::alloc::Global;
use vb_meaning::{Argument, Reached, Stop};
use vb_objects::classes::{class_at, dictionary_word, field_named, if_public, read_named};
use vb_objects::playing::Playing;
use vb_syntax::Intrinsics;
use vb_syntax::program::{Class, Expression, Procedure, Program, Step};
use vb_value::{List, ObjNo, Value, VbError};
use vb_world::accesses::{Access, first_access};
use vb_world::dictionaries::named_member;
use vb_world::paths::{element, hold_reached, reached_value};
use vb_world::places::{cell_place, hold};
use vb_world::values::object_in;

impl<
    I: Intrinsics,
    V: Fn(Global, u32, &Program, &mut Playing<'_>, &mut I, &Expression) -> Result<Value, Stop>,
    A: Fn(Global, u32, &Program, &mut Playing<'_>, &mut I, &Expression) -> Result<Argument, Stop>,
    S,
    C,
    T,
    N: Fn(
        Global,
        u32,
        &Program,
        &mut Playing<'_>,
        &mut I,
        Option<(ObjNo, u32)>,
        &Procedure,
        List<Argument>,
    ) -> Result<Value, Stop>,
> Rules<I, V, A, S, C, T, N> {
    /// A procedure with its arguments. Error 438, once they are evaluated, where there is none.
    pub fn called(
        &self,
        p: &Program,
        playing: &mut Playing<'_>,
        env: &mut I,
        owner: Option<(ObjNo, u32)>,
        procedure: Option<&Procedure>,
        supplied: &[Expression],
    ) -> Result<Reached, Stop>
        requires passes { Passes I (host I.asked I.answered) self.now.levels (A.pre self.now.argument)
            (A.post self.now.argument) }
        requires enters { Enters I (host I.asked I.answered) self.now.levels (N.pre self.now.enter)
            (N.post self.now.enter) }
        ensures { Ran (spec.called I (inside I (host I.asked I.answered) p.now self.now.levels) owner
            (option_copied procedure.entry) supplied.now (seen playing.old env.old)) result (seen playing.new env.new) }
    {
        let arguments = self.arguments(p, playing, env, supplied)?;
        let Some(procedure) = procedure else {
            return Err(Stop::from(VbError::UNSUPPORTED));
        };
        let value = self.enter(p, playing, env, owner, procedure, arguments)?;
        Ok(Reached::Value(value))
    }

    /// A field of an object, and an element of it where arguments stand behind.
    fn field_reached(
        &self,
        p: &Program,
        playing: &mut Playing<'_>,
        env: &mut I,
        object: ObjNo,
        field: u32,
        supplied: Option<&[Expression]>,
    ) -> Result<Reached, Stop>
        requires { Evaluates I (host I.asked I.answered) self.now.levels (V.pre self.now.value)
            (V.post self.now.value) }
        ensures { Ran (spec.field_reached I (inside I (host I.asked I.answered) p.now self.now.levels) object field
            (option_copied supplied.entry) (seen playing.old env.old)) result (seen playing.new env.new) }
    {
        let cell = playing.world.heap.field(object, field)?;
        let place = Reached::Place(cell_place(self.alloc, cell));
        let Some(indices) = supplied else {
            return Ok(place);
        };
        let indices = self.values(p, playing, env, indices)?;
        element(self.alloc, &mut playing.world, place, indices.as_slice())
    }

    /// A public member of an object of a class.
    fn class_member(
        &self,
        p: &Program,
        playing: &mut Playing<'_>,
        env: &mut I,
        object: ObjNo,
        number: u32,
        class: &Class,
        name: u32,
        supplied: Option<&[Expression]>,
    ) -> Result<Reached, Stop>
        requires evaluates { Evaluates I (host I.asked I.answered) self.now.levels (V.pre self.now.value)
            (V.post self.now.value) }
        requires passes { Passes I (host I.asked I.answered) self.now.levels (A.pre self.now.argument)
            (A.post self.now.argument) }
        requires enters { Enters I (host I.asked I.answered) self.now.levels (N.pre self.now.enter)
            (N.post self.now.enter) }
        ensures { Ran (spec.member_in I (inside I (host I.asked I.answered) p.now self.now.levels) object number
            (Some class.now) name (option_copied supplied.entry) (seen playing.old env.old))
            result (seen playing.new env.new) }
    {
        if let Some(field) = field_named(name, class.fields.as_slice()) {
            let Ok(field) = u32::try_from(field) else {
                return Err(Stop::Memory);
            };
            return self.field_reached(p, playing, env, object, field, supplied);
        }
        let procedure = if_public(read_named(name, class.procedures.as_slice()));
        self.called(
            p,
            playing,
            env,
            Some((object, number)),
            procedure,
            supplied.unwrap_or(&[]),
        )
    }

    /// A member of an object: of a dictionary, or of an object of a class.
    fn object_member(
        &self,
        p: &Program,
        playing: &mut Playing<'_>,
        env: &mut I,
        object: ObjNo,
        name: u32,
        supplied: Option<&[Expression]>,
        class: Option<u32>,
    ) -> Result<Reached, Stop>
        requires evaluates { Evaluates I (host I.asked I.answered) self.now.levels (V.pre self.now.value)
            (V.post self.now.value) }
        requires passes { Passes I (host I.asked I.answered) self.now.levels (A.pre self.now.argument)
            (A.post self.now.argument) }
        requires enters { Enters I (host I.asked I.answered) self.now.levels (N.pre self.now.enter)
            (N.post self.now.enter) }
        ensures { Ran (spec.object_member I (inside I (host I.asked I.answered) p.now self.now.levels) object name
            (option_copied supplied.entry) class (seen playing.old env.old)) result (seen playing.new env.new) }
    {
        let Some(number) = class else {
            return self.dictionary_member(p, playing, env, object, name, supplied.unwrap_or(&[]));
        };
        match class_at(p, number) {
            Some(class) => self.class_member(
                p, playing, env, object, number, class, name, supplied,
            ),
            None => Err(Stop::from(VbError::UNSUPPORTED)),
        }
    }

    /// A member of a dictionary.
    fn dictionary_member(
        &self,
        p: &Program,
        playing: &mut Playing<'_>,
        env: &mut I,
        object: ObjNo,
        name: u32,
        supplied: &[Expression],
    ) -> Result<Reached, Stop>
        requires { Evaluates I (host I.asked I.answered) self.now.levels (V.pre self.now.value)
            (V.post self.now.value) }
        ensures { Ran (spec.of_dictionary I (inside I (host I.asked I.answered) p.now self.now.levels) object name
            supplied.now (seen playing.old env.old)) result (seen playing.new env.new) }
    {
        let arguments = self.values(p, playing, env, supplied)?;
        let word = dictionary_word(p, name);
        let value = named_member(
            self.alloc,
            &mut playing.world,
            object,
            word,
            arguments.as_slice(),
        )?;
        Ok(Reached::Value(value))
    }

    /// A member of a value, which has to be an object that has not ended. The object is held.
    #[tactic(auto, unfolding(vb_meaning::specs::Reading::member_of))]
    pub fn member_of(
        &self,
        p: &Program,
        playing: &mut Playing<'_>,
        env: &mut I,
        value: &Value,
        name: u32,
        supplied: Option<&[Expression]>,
    ) -> Result<Reached, Stop>
        requires evaluates { Evaluates I (host I.asked I.answered) self.now.levels (V.pre self.now.value)
            (V.post self.now.value) }
        requires passes { Passes I (host I.asked I.answered) self.now.levels (A.pre self.now.argument)
            (A.post self.now.argument) }
        requires enters { Enters I (host I.asked I.answered) self.now.levels (N.pre self.now.enter)
            (N.post self.now.enter) }
        ensures { Ran (spec.member_of I (inside I (host I.asked I.answered) p.now self.now.levels) value.now name
            (option_copied supplied.entry) (seen playing.old env.old)) result (seen playing.new env.new) }
    {
        hold(&mut playing.world, value)?;
        let object = object_in(value)?;
        let class = playing.world.heap.class(object)?;
        self.object_member(p, playing, env, object, name, supplied, class)
    }

    /// What one access reaches from what is reached.
    pub fn access(
        &self,
        p: &Program,
        playing: &mut Playing<'_>,
        env: &mut I,
        from: Reached,
        access: Access<'_>,
    ) -> Result<Reached, Stop>
        requires evaluates { Evaluates I (host I.asked I.answered) self.now.levels (V.pre self.now.value)
            (V.post self.now.value) }
        requires passes { Passes I (host I.asked I.answered) self.now.levels (A.pre self.now.argument)
            (A.post self.now.argument) }
        requires enters { Enters I (host I.asked I.answered) self.now.levels (N.pre self.now.enter)
            (N.post self.now.enter) }
        ensures { Ran (spec.access I (inside I (host I.asked I.answered) p.now self.now.levels) from
            (access_seen access.entry) (seen playing.old env.old)) result (seen playing.new env.new) }
    {
        match access {
            Access::Group(indices) => {
                hold_reached(&mut playing.world, &from)?;
                let indices = self.values(p, playing, env, indices)?;
                element(self.alloc, &mut playing.world, from, indices.as_slice())
            }
            Access::Member(name, supplied) => {
                let value = reached_value(self.alloc, &playing.world, from)?;
                self.member_of(p, playing, env, &value, name, supplied)
            }
        }
    }

    /// What some steps reach from what is reached.
    pub fn walk(
        &self,
        p: &Program,
        playing: &mut Playing<'_>,
        env: &mut I,
        mut from: Reached,
        mut steps: &[Step],
    ) -> Result<Reached, Stop>
        requires evaluates { Evaluates I (host I.asked I.answered) self.now.levels (V.pre self.now.value)
            (V.post self.now.value) }
        requires passes { Passes I (host I.asked I.answered) self.now.levels (A.pre self.now.argument)
            (A.post self.now.argument) }
        requires enters { Enters I (host I.asked I.answered) self.now.levels (N.pre self.now.enter)
            (N.post self.now.enter) }
        ensures { Ran (spec.walk I (inside I (host I.asked I.answered) p.now self.now.levels) from
            (accesses steps.entry.now) (seen playing.old env.old)) result (seen playing.new env.new) }
    {
        while let Some((access, rest)) = first_access(steps) {
            from = self.access(p, playing, env, from, access)?;
            steps = rest;
        }
        Ok(from)
    }
}
