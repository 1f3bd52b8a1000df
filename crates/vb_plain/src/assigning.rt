//! A value that is assigned to what accesses come to.
ghost use Rattle.std.specs.Prelude.{◌≡◌, Some, None};
ghost use Rattle.std.specs.Option.{option_copied};
ghost use Rattle.vb_meaning.specs.Accesses.{accesses};
ghost use Rattle.vb_meaning.specs.Assigning as spec;
ghost use Rattle.vb_meaning.specs.Meaning.{inside};
ghost use Rattle.vb_meaning.specs.Reading.{field_place};
ghost use Rattle.vb_meaning.specs.Step.{Ran, and_then};
ghost use Rattle.vb_plain.specs.Nests.{Evaluates, Passes, Enters};
ghost use Rattle.vb_objects.specs.Seen.{seen, host};
ghost use Rattle.vb_world.specs.Steps.{access_seen};

use crate::rules::Rules;
use std::alloc::Global;
use vb_meaning::{Argument, Assigned, Reached, Stop};
use vb_objects::assigned::assigned_named;
use vb_objects::classes::{class_at, dictionary_word, field_named, if_public};
use vb_objects::playing::Playing;
use vb_syntax::Intrinsics;
use vb_syntax::program::{Class, Expression, Procedure, Program, Step};
use vb_value::{List, ObjNo, Value, VbError};
use vb_world::accesses::{Access, first_access};
use vb_world::dictionaries::set_member;
use vb_world::paths::{hold_reached, reached_value, store_element};
use vb_world::places::{cell_place, hold, store_place};
use vb_world::values::object_in;

impl<
    I: Intrinsics,
    V: Fn(Global, u32, &Program, &mut Playing<'_>, &mut I, &Expression) -> Result<Value, Stop>,
    A: Fn(Global, u32, &Program, &mut Playing<'_>, &mut I, &Expression) -> Result<Argument, Stop>,
    S,
    C,
    T,
    N: Fn(
        Global,
        u32,
        &Program,
        &mut Playing<'_>,
        &mut I,
        Option<(ObjNo, u32)>,
        &Procedure,
        List<Argument>,
    ) -> Result<Value, Stop>,
> Rules<I, V, A, S, C, T, N> {
    /// A property of an object with its arguments and then the value. Error 438, once the arguments are evaluated, where
    /// there is none.
    pub fn property(
        &self,
        p: &Program,
        playing: &mut Playing<'_>,
        env: &mut I,
        owner: Option<(ObjNo, u32)>,
        how: Assigned,
        procedure: Option<&Procedure>,
        supplied: &[Expression],
        value: Value,
    ) -> Result<(), Stop>
        requires evaluates { Evaluates I (host I.asked I.answered) self.now.levels (V.pre self.now.value)
            (V.post self.now.value) }
        requires passes { Passes I (host I.asked I.answered) self.now.levels (A.pre self.now.argument)
            (A.post self.now.argument) }
        requires enters { Enters I (host I.asked I.answered) self.now.levels (N.pre self.now.enter)
            (N.post self.now.enter) }
        ensures { Ran (spec.property I (inside I (host I.asked I.answered) p.now self.now.levels) how owner
            (option_copied procedure.entry) supplied.now value (seen playing.old env.old)) result (seen playing.new
            env.new) }
    {
        let mut arguments = self.arguments(p, playing, env, supplied)?;
        let Some(procedure) = procedure else {
            return Err(Stop::from(VbError::UNSUPPORTED));
        };
        arguments.push(Argument::Value(value))?;
        self.enter(p, playing, env, owner, procedure, arguments)?;
        Ok(())
    }

    /// A field of an object, or an element of it where indices stand behind.
    fn into_field(
        &self,
        p: &Program,
        playing: &mut Playing<'_>,
        env: &mut I,
        object: ObjNo,
        how: Assigned,
        field: u32,
        supplied: Option<&[Expression]>,
        value: Value,
    ) -> Result<(), Stop>
        requires { Evaluates I (host I.asked I.answered) self.now.levels (V.pre self.now.value)
            (V.post self.now.value) }
        ensures { Ran (and_then (field_place I (inside I (host I.asked I.answered) p.now self.now.levels) object field
            (seen playing.old env.old)) (λ reached. spec.into_field I (inside I (host I.asked I.answered) p.now
            self.now.levels) how (option_copied supplied.entry) reached value)) result (seen playing.new env.new) }
    {
        let cell = playing.world.heap.field(object, field)?;
        let place = cell_place(self.alloc, cell);
        let Some(indices) = supplied else {
            return store_place(&mut playing.world, &place, value);
        };
        let indices = self.values(p, playing, env, indices)?;
        store_element(
            self.alloc,
            &mut playing.world,
            Reached::Place(place),
            indices.as_slice(),
            value,
        )
    }

    /// A public member of an object of a class.
    fn into_class(
        &self,
        p: &Program,
        playing: &mut Playing<'_>,
        env: &mut I,
        object: ObjNo,
        how: Assigned,
        number: u32,
        class: &Class,
        name: u32,
        supplied: Option<&[Expression]>,
        value: Value,
    ) -> Result<(), Stop>
        requires evaluates { Evaluates I (host I.asked I.answered) self.now.levels (V.pre self.now.value)
            (V.post self.now.value) }
        requires passes { Passes I (host I.asked I.answered) self.now.levels (A.pre self.now.argument)
            (A.post self.now.argument) }
        requires enters { Enters I (host I.asked I.answered) self.now.levels (N.pre self.now.enter)
            (N.post self.now.enter) }
        ensures { Ran (spec.into_class_of I (inside I (host I.asked I.answered) p.now self.now.levels) how object
            number (Some class.now) name (option_copied supplied.entry) value (seen playing.old env.old)) result
            (seen playing.new env.new) }
    {
        if let Some(field) = field_named(name, class.fields.as_slice()) {
            let Ok(field) = u32::try_from(field) else {
                return Err(Stop::Memory);
            };
            return self.into_field(p, playing, env, object, how, field, supplied, value);
        }
        let procedure = if_public(assigned_named(name, how, class.procedures.as_slice()));
        self.property(
            p,
            playing,
            env,
            Some((object, number)),
            how,
            procedure,
            supplied.unwrap_or(&[]),
            value,
        )
    }

    /// A member of a dictionary.
    fn into_dictionary(
        &self,
        p: &Program,
        playing: &mut Playing<'_>,
        env: &mut I,
        object: ObjNo,
        how: Assigned,
        name: u32,
        supplied: Option<&[Expression]>,
        value: Value,
    ) -> Result<(), Stop>
        requires { Evaluates I (host I.asked I.answered) self.now.levels (V.pre self.now.value)
            (V.post self.now.value) }
        ensures { Ran (spec.into_object I (inside I (host I.asked I.answered) p.now self.now.levels) how object name
            (option_copied supplied.entry) value None (seen playing.old env.old)) result (seen playing.new env.new) }
    {
        let arguments = self.values(p, playing, env, supplied.unwrap_or(&[]))?;
        let word = dictionary_word(p, name);
        set_member(
            self.alloc,
            &mut playing.world,
            object,
            word,
            arguments.as_slice(),
            value,
        )
    }

    /// A member of an object: of a dictionary, or of an object of a class.
    fn into_object(
        &self,
        p: &Program,
        playing: &mut Playing<'_>,
        env: &mut I,
        object: ObjNo,
        how: Assigned,
        name: u32,
        supplied: Option<&[Expression]>,
        value: Value,
        class: Option<u32>,
    ) -> Result<(), Stop>
        requires evaluates { Evaluates I (host I.asked I.answered) self.now.levels (V.pre self.now.value)
            (V.post self.now.value) }
        requires passes { Passes I (host I.asked I.answered) self.now.levels (A.pre self.now.argument)
            (A.post self.now.argument) }
        requires enters { Enters I (host I.asked I.answered) self.now.levels (N.pre self.now.enter)
            (N.post self.now.enter) }
        ensures { Ran (spec.into_object I (inside I (host I.asked I.answered) p.now self.now.levels) how object name
            (option_copied supplied.entry) value class (seen playing.old env.old)) result (seen playing.new env.new) }
    {
        let Some(number) = class else {
            return self.into_dictionary(p, playing, env, object, how, name, supplied, value);
        };
        match class_at(p, number) {
            Some(class) => self.into_class(
                p, playing, env, object, how, number, class, name, supplied, value,
            ),
            None => Err(Stop::from(VbError::UNSUPPORTED)),
        }
    }

    /// A member of a value, which has to be an object that has not ended. The object is held.
    #[tactic(auto, unfolding(vb_meaning::specs::Assigning::into_member))]
    fn into_member(
        &self,
        p: &Program,
        playing: &mut Playing<'_>,
        env: &mut I,
        whole: &Value,
        how: Assigned,
        name: u32,
        supplied: Option<&[Expression]>,
        value: Value,
    ) -> Result<(), Stop>
        requires evaluates { Evaluates I (host I.asked I.answered) self.now.levels (V.pre self.now.value)
            (V.post self.now.value) }
        requires passes { Passes I (host I.asked I.answered) self.now.levels (A.pre self.now.argument)
            (A.post self.now.argument) }
        requires enters { Enters I (host I.asked I.answered) self.now.levels (N.pre self.now.enter)
            (N.post self.now.enter) }
        ensures { Ran (spec.into_member I (inside I (host I.asked I.answered) p.now self.now.levels) how whole.now
            name (option_copied supplied.entry) value (seen playing.old env.old)) result (seen playing.new env.new) }
    {
        hold(&mut playing.world, whole)?;
        let object = object_in(whole)?;
        let class = playing.world.heap.class(object)?;
        self.into_object(p, playing, env, object, how, name, supplied, value, class)
    }

    /// What the last access comes to.
    fn into_access(
        &self,
        p: &Program,
        playing: &mut Playing<'_>,
        env: &mut I,
        from: Reached,
        how: Assigned,
        access: Access<'_>,
        value: Value,
    ) -> Result<(), Stop>
        requires evaluates { Evaluates I (host I.asked I.answered) self.now.levels (V.pre self.now.value)
            (V.post self.now.value) }
        requires passes { Passes I (host I.asked I.answered) self.now.levels (A.pre self.now.argument)
            (A.post self.now.argument) }
        requires enters { Enters I (host I.asked I.answered) self.now.levels (N.pre self.now.enter)
            (N.post self.now.enter) }
        ensures { Ran (spec.into_access I (inside I (host I.asked I.answered) p.now self.now.levels) how from
            (access_seen access.entry) value (seen playing.old env.old)) result (seen playing.new env.new) }
    {
        match access {
            Access::Group(indices) => {
                hold_reached(&mut playing.world, &from)?;
                let indices = self.values(p, playing, env, indices)?;
                store_element(
                    self.alloc,
                    &mut playing.world,
                    from,
                    indices.as_slice(),
                    value,
                )
            }
            Access::Member(name, supplied) => {
                let whole = reached_value(self.alloc, &playing.world, from)?;
                self.into_member(p, playing, env, &whole, how, name, supplied, value)
            }
        }
    }

    /// What an access and the steps behind it come to.
    pub fn into_steps<'a>(
        &self,
        p: &Program,
        playing: &mut Playing<'_>,
        env: &mut I,
        mut from: Reached,
        how: Assigned,
        mut access: Access<'a>,
        mut steps: &'a [Step],
        value: Value,
    ) -> Result<(), Stop>
        requires evaluates { Evaluates I (host I.asked I.answered) self.now.levels (V.pre self.now.value)
            (V.post self.now.value) }
        requires passes { Passes I (host I.asked I.answered) self.now.levels (A.pre self.now.argument)
            (A.post self.now.argument) }
        requires enters { Enters I (host I.asked I.answered) self.now.levels (N.pre self.now.enter)
            (N.post self.now.enter) }
        ensures { Ran (spec.into I (inside I (host I.asked I.answered) p.now self.now.levels) how from (access_seen
            access.entry) (accesses steps.entry.now) value (seen playing.old env.old)) result (seen playing.new
            env.new) }
    {
        while let Some((next, rest)) = first_access(steps) {
            from = self.access(p, playing, env, from, access)?;
            access = next;
            steps = rest;
        }
        self.into_access(p, playing, env, from, how, access, value)
    }
}
