//! Where a path begins, and what is reached from there.
ghost use Rattle.std.specs.Prelude.{◌≡◌, [], slice_get};
ghost use Rattle.std.specs.Option.{option_copied};
ghost use Rattle.vb_syntax.specs.declared.program.name.Named.TheVariants as named;
ghost use Rattle.vb_meaning.specs.Accesses.{accesses, call_split};
ghost use Rattle.vb_meaning.specs.Meaning.{inside};
ghost use Rattle.vb_meaning.specs.Reading as spec;
ghost use Rattle.vb_meaning.specs.Step.{Ran};
ghost use Rattle.vb_plain.specs.Nests.{Evaluates, Passes, Enters};
ghost use Rattle.vb_objects.specs.Seen.{seen, host};

use crate::lent_calls::{plain_at_once, string_at_once};
use crate::rules::Rules;
use std::alloc::Global;
use vb_funcs::call_func;
use vb_meaning::{Argument, Reached, Stop, raise};
use vb_objects::playing::Playing;
use vb_strings::call_string;
use vb_syntax::Intrinsics;
use vb_syntax::program::{Expression, Procedure, Program, Slot, Step};
use vb_value::{List, ObjNo, PlainFn, StrFn, Value};
use vb_world::accesses::split_call;
use vb_world::places::variable;

/// The most arguments that a function of the language is given.
const MOST_ARGUMENTS: usize = 255;

impl<
    I: Intrinsics,
    V: Fn(Global, u32, &Program, &mut Playing<'_>, &mut I, &Expression) -> Result<Value, Stop>,
    A: Fn(Global, u32, &Program, &mut Playing<'_>, &mut I, &Expression) -> Result<Argument, Stop>,
    S,
    C,
    T,
    N: Fn(
        Global,
        u32,
        &Program,
        &mut Playing<'_>,
        &mut I,
        Option<(ObjNo, u32)>,
        &Procedure,
        List<Argument>,
    ) -> Result<Value, Stop>,
> Rules<I, V, A, S, C, T, N> {
    /// A procedure with its arguments, and what is reached from what it gives.
    pub fn procedure(
        &self,
        p: &Program,
        playing: &mut Playing<'_>,
        env: &mut I,
        owner: Option<(ObjNo, u32)>,
        procedure: Option<&Procedure>,
        steps: &[Step],
    ) -> Result<Reached, Stop>
        requires evaluates { Evaluates I (host I.asked I.answered) self.now.levels (V.pre self.now.value)
            (V.post self.now.value) }
        requires passes { Passes I (host I.asked I.answered) self.now.levels (A.pre self.now.argument)
            (A.post self.now.argument) }
        requires enters { Enters I (host I.asked I.answered) self.now.levels (N.pre self.now.enter)
            (N.post self.now.enter) }
        ensures { Ran (spec.procedure I (inside I (host I.asked I.answered) p.now self.now.levels) owner
            (option_copied procedure.entry) (call_split (accesses steps.now)) (seen playing.old env.old))
            result (seen playing.new env.new) }
    {
        let (supplied, rest) = split_call(steps);
        let from = self.called(p, playing, env, owner, procedure, supplied)?;
        self.walk(p, playing, env, from, rest)
    }

    /// A variable, and what is reached from it.
    pub fn from_variable(
        &self,
        p: &Program,
        playing: &mut Playing<'_>,
        env: &mut I,
        slot: Slot,
        steps: &[Step],
    ) -> Result<Reached, Stop>
        requires evaluates { Evaluates I (host I.asked I.answered) self.now.levels (V.pre self.now.value)
            (V.post self.now.value) }
        requires passes { Passes I (host I.asked I.answered) self.now.levels (A.pre self.now.argument)
            (A.post self.now.argument) }
        requires enters { Enters I (host I.asked I.answered) self.now.levels (N.pre self.now.enter)
            (N.post self.now.enter) }
        ensures { Ran (spec.from_name I (inside I (host I.asked I.answered) p.now self.now.levels) (named.Place slot)
            (accesses steps.now) (seen playing.old env.old)) result (seen playing.new env.new) }
    {
        let place = variable(self.alloc, &playing.world, slot)?;
        self.walk(p, playing, env, Reached::Place(place), steps)
    }

    /// A function of the language on texts, and what is reached from what it gives.
    pub fn string_function(
        &self,
        p: &Program,
        playing: &mut Playing<'_>,
        env: &mut I,
        found: StrFn,
        steps: &[Step],
    ) -> Result<Reached, Stop>
        requires evaluates { Evaluates I (host I.asked I.answered) self.now.levels (V.pre self.now.value)
            (V.post self.now.value) }
        requires passes { Passes I (host I.asked I.answered) self.now.levels (A.pre self.now.argument)
            (A.post self.now.argument) }
        requires enters { Enters I (host I.asked I.answered) self.now.levels (N.pre self.now.enter)
            (N.post self.now.enter) }
        ensures { Ran (spec.from_name I (inside I (host I.asked I.answered) p.now self.now.levels)
            (named.StringFunction found) (accesses steps.now) (seen playing.old env.old))
            result (seen playing.new env.new) }
    {
        let (supplied, rest) = split_call(steps);
        if let Some(value) = string_at_once(
            self.alloc,
            self.levels,
            p,
            playing,
            env,
            found,
            supplied,
        ) {
            return self.walk(p, playing, env, Reached::Value(value), rest);
        }
        let arguments = self.values(p, playing, env, supplied)?;
        if MOST_ARGUMENTS < arguments.len() {
            return Err(Stop::Memory);
        }
        let value = raise(call_string(self.alloc, found, arguments.as_slice()))?;
        self.walk(p, playing, env, Reached::Value(value), rest)
    }

    /// Another function of the language, and what is reached from what it gives.
    pub fn plain_function(
        &self,
        p: &Program,
        playing: &mut Playing<'_>,
        env: &mut I,
        found: PlainFn,
        steps: &[Step],
    ) -> Result<Reached, Stop>
        requires evaluates { Evaluates I (host I.asked I.answered) self.now.levels (V.pre self.now.value)
            (V.post self.now.value) }
        requires passes { Passes I (host I.asked I.answered) self.now.levels (A.pre self.now.argument)
            (A.post self.now.argument) }
        requires enters { Enters I (host I.asked I.answered) self.now.levels (N.pre self.now.enter)
            (N.post self.now.enter) }
        ensures { Ran (spec.from_name I (inside I (host I.asked I.answered) p.now self.now.levels)
            (named.PlainFunction found) (accesses steps.now) (seen playing.old env.old))
            result (seen playing.new env.new) }
    {
        let (supplied, rest) = split_call(steps);
        if let Some(value) = plain_at_once(
            self.alloc,
            self.levels,
            p,
            playing,
            env,
            found,
            supplied,
        ) {
            return self.walk(p, playing, env, Reached::Value(value), rest);
        }
        let arguments = self.values(p, playing, env, supplied)?;
        if MOST_ARGUMENTS < arguments.len() {
            return Err(Stop::Memory);
        }
        let value = raise(call_func(self.alloc, found, arguments.as_slice()))?;
        self.walk(p, playing, env, Reached::Value(value), rest)
    }
}
