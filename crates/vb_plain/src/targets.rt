//! Names that a value is assigned to, with what stands behind them.
ghost use Rattle.std.specs.Prelude.{◌≡◌};
ghost use Rattle.vb_syntax.specs.declared.program.name.Named.TheVariants as named;
ghost use Rattle.vb_meaning.specs.Accesses.{accesses};
ghost use Rattle.vb_meaning.specs.Assigning as spec;
ghost use Rattle.vb_meaning.specs.Meaning.{inside};
ghost use Rattle.vb_meaning.specs.Reading.{from_name};
ghost use Rattle.vb_meaning.specs.Step.{Ran};
ghost use Rattle.vb_meaning.specs.Shown.{shown};
ghost use Rattle.vb_plain.specs.Nests.{Evaluates, Passes, Enters};
ghost use Rattle.vb_objects.specs.Seen.{seen, host};

use crate::rules::Rules;
use std::alloc::Global;
use vb_heap::Place;
use vb_meaning::{Argument, Assigned, Reached, Stop};
use vb_objects::assigned::own_assigned;
use vb_objects::playing::Playing;
use vb_syntax::Intrinsics;
use vb_syntax::program::{Expression, Named, Procedure, Program, Slot, Step};
use vb_value::{List, ObjNo, Value, VbError};
use vb_world::accesses::{call_alone, first_access, first_call, only_groups};
use vb_world::places::{store_place, variable};

impl<
    I: Intrinsics,
    V: Fn(Global, u32, &Program, &mut Playing<'_>, &mut I, &Expression) -> Result<Value, Stop>,
    A: Fn(Global, u32, &Program, &mut Playing<'_>, &mut I, &Expression) -> Result<Argument, Stop>,
    S,
    C,
    T,
    N: Fn(
        Global,
        u32,
        &Program,
        &mut Playing<'_>,
        &mut I,
        Option<(ObjNo, u32)>,
        &Procedure,
        List<Argument>,
    ) -> Result<Value, Stop>,
> Rules<I, V, A, S, C, T, N> {
    /// A place, or what the steps behind it come to.
    fn into_place(
        &self,
        p: &Program,
        playing: &mut Playing<'_>,
        env: &mut I,
        place: Place,
        how: Assigned,
        steps: &[Step],
        value: Value,
    ) -> Result<(), Stop>
        requires evaluates { Evaluates I (host I.asked I.answered) self.now.levels (V.pre self.now.value)
            (V.post self.now.value) }
        requires passes { Passes I (host I.asked I.answered) self.now.levels (A.pre self.now.argument)
            (A.post self.now.argument) }
        requires enters { Enters I (host I.asked I.answered) self.now.levels (N.pre self.now.enter)
            (N.post self.now.enter) }
        ensures { Ran (spec.into_place I (inside I (host I.asked I.answered) p.now self.now.levels) how (accesses
            steps.now) value place (seen playing.old env.old)) result (seen playing.new env.new) }
    {
        match first_access(steps) {
            Some((access, rest)) => self.into_steps(
                p,
                playing,
                env,
                Reached::Place(place),
                how,
                access,
                rest,
                value,
            ),
            None => store_place(&mut playing.world, &place, value),
        }
    }

    /// A variable, or what the steps behind it come to. Error 501 for the result of a procedure with parentheses behind it.
    #[tactic(auto, using(crate::proofs::TargetSteps::slot_member))]
    fn into_slot(
        &self,
        p: &Program,
        playing: &mut Playing<'_>,
        env: &mut I,
        slot: Slot,
        how: Assigned,
        steps: &[Step],
        value: Value,
    ) -> Result<(), Stop>
        requires evaluates { Evaluates I (host I.asked I.answered) self.now.levels (V.pre self.now.value)
            (V.post self.now.value) }
        requires passes { Passes I (host I.asked I.answered) self.now.levels (A.pre self.now.argument)
            (A.post self.now.argument) }
        requires enters { Enters I (host I.asked I.answered) self.now.levels (N.pre self.now.enter)
            (N.post self.now.enter) }
        ensures { Ran (spec.into_slot I (inside I (host I.asked I.answered) p.now self.now.levels) how slot (accesses
            steps.now) value (seen playing.old env.old)) result (seen playing.new env.new) }
    {
        match (slot, steps) {
            (Slot::Result, [Step::Group(_), ..]) => Err(Stop::from(VbError::ILLEGAL_ASSIGNMENT)),
            _ => {
                let place = variable(self.alloc, &playing.world, slot)?;
                self.into_place(p, playing, env, place, how, steps, value)
            }
        }
    }

    /// What stands behind the value of a name. Error 501 where nothing does.
    fn into_rest(
        &self,
        p: &Program,
        playing: &mut Playing<'_>,
        env: &mut I,
        name: &Named,
        how: Assigned,
        call: &[Step],
        steps: &[Step],
        value: Value,
    ) -> Result<(), Stop>
        requires evaluates { Evaluates I (host I.asked I.answered) self.now.levels (V.pre self.now.value)
            (V.post self.now.value) }
        requires passes { Passes I (host I.asked I.answered) self.now.levels (A.pre self.now.argument)
            (A.post self.now.argument) }
        requires enters { Enters I (host I.asked I.answered) self.now.levels (N.pre self.now.enter)
            (N.post self.now.enter) }
        ensures { Ran (spec.into_rest I (inside I (host I.asked I.answered) p.now self.now.levels) how
            (from_name I (inside I (host I.asked I.answered) p.now self.now.levels) name.now (accesses call.now))
            (accesses steps.now) value (seen playing.old env.old)) result (seen playing.new env.new) }
    {
        let Some((access, rest)) = first_access(steps) else {
            return Err(Stop::from(VbError::ILLEGAL_ASSIGNMENT));
        };
        let from = self.from_name(p, playing, env, name, call)?;
        self.into_steps(p, playing, env, from, how, access, rest, value)
    }

    /// What stands behind the call that a path begins with.
    #[tactic(auto, using(crate::proofs::TargetSteps::into_first_call))]
    fn into_called(
        &self,
        p: &Program,
        playing: &mut Playing<'_>,
        env: &mut I,
        name: &Named,
        how: Assigned,
        steps: &[Step],
        value: Value,
    ) -> Result<(), Stop>
        requires evaluates { Evaluates I (host I.asked I.answered) self.now.levels (V.pre self.now.value)
            (V.post self.now.value) }
        requires passes { Passes I (host I.asked I.answered) self.now.levels (A.pre self.now.argument)
            (A.post self.now.argument) }
        requires enters { Enters I (host I.asked I.answered) self.now.levels (N.pre self.now.enter)
            (N.post self.now.enter) }
        ensures { Ran (spec.into_called I (inside I (host I.asked I.answered) p.now self.now.levels) how name.now
            (accesses steps.now) value (seen playing.old env.old)) result (seen playing.new env.new) }
    {
        let (call, rest) = first_call(steps);
        self.into_rest(p, playing, env, name, how, call, rest, value)
    }

    /// A member of what a procedure or a function gives. Error 501 where no member stands behind it.
    fn into_call(
        &self,
        p: &Program,
        playing: &mut Playing<'_>,
        env: &mut I,
        name: &Named,
        how: Assigned,
        steps: &[Step],
        value: Value,
    ) -> Result<(), Stop>
        requires evaluates { Evaluates I (host I.asked I.answered) self.now.levels (V.pre self.now.value)
            (V.post self.now.value) }
        requires passes { Passes I (host I.asked I.answered) self.now.levels (A.pre self.now.argument)
            (A.post self.now.argument) }
        requires enters { Enters I (host I.asked I.answered) self.now.levels (N.pre self.now.enter)
            (N.post self.now.enter) }
        ensures { Ran (spec.into_call I (inside I (host I.asked I.answered) p.now self.now.levels) how name.now
            (accesses steps.now) value (seen playing.old env.old)) result (seen playing.new env.new) }
    {
        if only_groups(steps) {
            return Err(Stop::from(VbError::ILLEGAL_ASSIGNMENT));
        }
        self.into_called(p, playing, env, name, how, steps, value)
    }

    /// A property of the class around, with these arguments.
    fn own_property(
        &self,
        p: &Program,
        playing: &mut Playing<'_>,
        env: &mut I,
        number: u32,
        how: Assigned,
        supplied: &[Expression],
        value: Value,
    ) -> Result<(), Stop>
        requires evaluates { Evaluates I (host I.asked I.answered) self.now.levels (V.pre self.now.value)
            (V.post self.now.value) }
        requires passes { Passes I (host I.asked I.answered) self.now.levels (A.pre self.now.argument)
            (A.post self.now.argument) }
        requires enters { Enters I (host I.asked I.answered) self.now.levels (N.pre self.now.enter)
            (N.post self.now.enter) }
        ensures { Ran (spec.property I (inside I (host I.asked I.answered) p.now self.now.levels) how
            playing.old.world.frame.owner (spec.own_property I (inside I (host I.asked I.answered) p.now self.now.levels)
            how number (shown playing.old.world)) supplied.now value (seen playing.old env.old)) result
            (seen playing.new env.new) }
    {
        let owner = playing.world.frame.owner;
        let found = own_assigned(p, owner, how, number);
        self.property(p, playing, env, owner, how, found, supplied, value)
    }

    /// A property of the class around, where nothing but its arguments stands behind, or what it gives.
    #[tactic(auto, using(crate::proofs::TargetSteps::own_alone, crate::proofs::TargetSteps::own_behind))]
    fn into_own(
        &self,
        p: &Program,
        playing: &mut Playing<'_>,
        env: &mut I,
        number: u32,
        how: Assigned,
        steps: &[Step],
        value: Value,
    ) -> Result<(), Stop>
        requires evaluates { Evaluates I (host I.asked I.answered) self.now.levels (V.pre self.now.value)
            (V.post self.now.value) }
        requires passes { Passes I (host I.asked I.answered) self.now.levels (A.pre self.now.argument)
            (A.post self.now.argument) }
        requires enters { Enters I (host I.asked I.answered) self.now.levels (N.pre self.now.enter)
            (N.post self.now.enter) }
        ensures { Ran (spec.into_own I (inside I (host I.asked I.answered) p.now self.now.levels) how number
            (accesses steps.now) value (seen playing.old env.old)) result (seen playing.new env.new) }
    {
        match call_alone(steps) {
            Some(supplied) => self.own_property(p, playing, env, number, how, supplied, value),
            None => self.into_called(p, playing, env, &Named::Own(number), how, steps, value),
        }
    }

    /// A name that stands for nothing. Error 500, or 13 where arguments stand behind it, once they are evaluated.
    fn into_unknown(
        &self,
        p: &Program,
        playing: &mut Playing<'_>,
        env: &mut I,
        how: Assigned,
        steps: &[Step],
    ) -> Result<(), Stop>
        requires { Evaluates I (host I.asked I.answered) self.now.levels (V.pre self.now.value)
            (V.post self.now.value) }
        ensures { Ran (spec.into_unknown I (inside I (host I.asked I.answered) p.now self.now.levels) how (accesses
            steps.now) (seen playing.old env.old)) result (seen playing.new env.new) }
    {
        self.unknown(p, playing, env, steps)?;
        Ok(())
    }

    /// What a name and the steps behind it come to.
    pub fn into_name(
        &self,
        p: &Program,
        playing: &mut Playing<'_>,
        env: &mut I,
        name: &Named,
        how: Assigned,
        steps: &[Step],
        value: Value,
    ) -> Result<(), Stop>
        requires evaluates { Evaluates I (host I.asked I.answered) self.now.levels (V.pre self.now.value)
            (V.post self.now.value) }
        requires passes { Passes I (host I.asked I.answered) self.now.levels (A.pre self.now.argument)
            (A.post self.now.argument) }
        requires enters { Enters I (host I.asked I.answered) self.now.levels (N.pre self.now.enter)
            (N.post self.now.enter) }
        ensures { Ran (spec.into_name I (inside I (host I.asked I.answered) p.now self.now.levels) how name.now
            (accesses steps.now) value (seen playing.old env.old)) result (seen playing.new env.new) }
    {
        match name {
            Named::Place(slot) => self.into_slot(p, playing, env, *slot, how, steps, value),
            Named::Own(number) => self.into_own(p, playing, env, *number, how, steps, value),
            Named::PageConstant(_) | Named::LocalConstant(_) | Named::Value(_) => {
                self.into_rest(p, playing, env, name, how, &[], steps, value)
            }
            Named::Unknown => self.into_unknown(p, playing, env, how, steps),
            Named::Class(_) => Err(Stop::from(VbError::ILLEGAL_ASSIGNMENT)),
            _ => self.into_call(p, playing, env, name, how, steps, value),
        }
    }
}
