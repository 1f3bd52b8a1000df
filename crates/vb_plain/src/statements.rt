//! Statements but for those that choose and repeat.
ghost use Rattle.std.specs.Prelude.{◌≡◌};
ghost use Rattle.vb_meaning.specs.Meaning.{assign, inside};
ghost use Rattle.vb_meaning.specs.Statements as spec;
ghost use Rattle.vb_meaning.specs.Step.{Returns, Ran};
ghost use Rattle.vb_plain.specs.Nests.{Assigns, Evaluates, Executes};
ghost use Rattle.vb_objects.specs.Seen.{seen, host};

use crate::growing::lengthened;
use crate::rules::Rules;
use std::alloc::Global;
use vb_meaning::{Assigned, Exit, Stop};
use vb_objects::asking::ask;
use vb_objects::assigned::assignable;
use vb_objects::errors::on_error;
use vb_objects::playing::Playing;
use vb_syntax::program::{Expression, Path, Program, Resized, Statement};
use vb_syntax::{Intrinsics, Member};
use vb_value::Value;
use vb_world::places::target_variable;
use vb_world::resizing::{copies, resize};

impl<
    I: Intrinsics,
    V: Fn(Global, u32, &Program, &mut Playing<'_>, &mut I, &Expression) -> Result<Value, Stop>,
    A,
    S,
    C,
    T: Fn(Global, u32, &Program, &mut Playing<'_>, &mut I, &Statement) -> Result<Exit, Stop>,
    N,
> Rules<I, V, A, S, C, T, N> {
    /// With: its subject stays held to the end of the whole statement.
    #[tactic(auto, unfolding(vb_meaning::specs::Statements::with_statement))]
    pub fn with_statement(
        &self,
        p: &Program,
        playing: &mut Playing<'_>,
        env: &mut I,
        subject: &Expression,
        body: &[Statement],
    ) -> Result<Exit, Stop>
        requires evaluates { Evaluates I (host I.asked I.answered) self.now.levels (V.pre self.now.value)
            (V.post self.now.value) }
        requires executes { Executes I (host I.asked I.answered) self.now.levels (T.pre self.now.statement)
            (T.post self.now.statement) }
        ensures { Ran (spec.with_statement I (inside I (host I.asked I.answered) p.now self.now.levels) subject.now
            body.now (seen playing.old env.old)) result (seen playing.new env.new) }
    {
        let found = self.value(p, playing, env, subject)?;
        let around = copies(self.alloc, playing.world.frame.subjects.as_slice())?;
        playing.world.frame.subjects.push(found)?;
        let gave = self.block(p, playing, env, body);
        playing.world.frame.subjects = around;
        gave
    }
}

impl<
    I: Intrinsics,
    V: Fn(Global, u32, &Program, &mut Playing<'_>, &mut I, &Expression) -> Result<Value, Stop>,
    A,
    S: Fn(
        Global,
        u32,
        &Program,
        &mut Playing<'_>,
        &mut I,
        Assigned,
        &Path,
        Value,
    ) -> Result<(), Stop>,
    C,
    T,
    N,
> Rules<I, V, A, S, C, T, N> {
    /// A path inside to which a value is assigned.
    fn assign(
        &self,
        p: &Program,
        playing: &mut Playing<'_>,
        env: &mut I,
        how: Assigned,
        target: &Path,
        found: Value,
    ) -> Result<(), Stop>
        requires { Assigns I (host I.asked I.answered) self.now.levels (S.pre self.now.assign) (S.post self.now.assign) }
        ensures { Ran (assign I (host I.asked I.answered) p.now self.now.levels how target.now found
            (seen playing.old env.old)) result (seen playing.new env.new) }
    {
        (self.assign)(self.alloc, self.levels, p, playing, env, how, target, found)
    }

    /// `target = value`, and `Set target = value`.
    #[tactic(auto, unfolding(vb_meaning::specs::Statements::assignment))]
    pub fn assignment(
        &self,
        p: &Program,
        playing: &mut Playing<'_>,
        env: &mut I,
        how: Assigned,
        target: &Path,
        assigned: &Expression,
    ) -> Result<Exit, Stop>
        requires evaluates { Evaluates I (host I.asked I.answered) self.now.levels (V.pre self.now.value)
            (V.post self.now.value) }
        requires assigns { Assigns I (host I.asked I.answered) self.now.levels (S.pre self.now.assign)
            (S.post self.now.assign) }
        ensures { Ran (spec.assignment I (inside I (host I.asked I.answered) p.now self.now.levels) how target.now
            assigned.now (seen playing.old env.old)) result (seen playing.new env.new) }
    {
        if let Some(gave) = lengthened(
            self.alloc,
            self.levels,
            p,
            playing,
            env,
            how,
            target,
            assigned,
        ) {
            return gave;
        }
        let found = self.value(p, playing, env, assigned)?;
        assignable(how, &found)?;
        self.assign(p, playing, env, how, target, found)?;
        Ok(Exit::Next)
    }
}

impl<
    I: Intrinsics,
    V: Fn(Global, u32, &Program, &mut Playing<'_>, &mut I, &Expression) -> Result<Value, Stop>,
    A,
    S,
    C,
    T,
    N,
> Rules<I, V, A, S, C, T, N> {
    /// ReDim of one array. Its bounds are evaluated first.
    fn redim_one(
        &self,
        p: &Program,
        playing: &mut Playing<'_>,
        env: &mut I,
        preserve: bool,
        resized: &Resized,
    ) -> Result<(), Stop>
        requires { Evaluates I (host I.asked I.answered) self.now.levels (V.pre self.now.value) (V.post self.now.value) }
        ensures { Ran (spec.redim_one I (inside I (host I.asked I.answered) p.now self.now.levels) preserve resized.now
            (seen playing.old env.old)) result (seen playing.new env.new) }
    {
        let bounds = self.values(p, playing, env, resized.bounds.as_slice())?;
        let world = &mut playing.world;
        let place = target_variable(self.alloc, world, &resized.name)?;
        resize(self.alloc, world, preserve, bounds.as_slice(), &place)
    }

    /// ReDim, array by array.
    pub fn redim(
        &self,
        p: &Program,
        playing: &mut Playing<'_>,
        env: &mut I,
        preserve: bool,
        mut arrays: &[Resized],
    ) -> Result<(), Stop>
        requires { Evaluates I (host I.asked I.answered) self.now.levels (V.pre self.now.value) (V.post self.now.value) }
        ensures { Ran (spec.redim I (inside I (host I.asked I.answered) p.now self.now.levels) preserve
            arrays.entry.now (seen playing.old env.old)) result (seen playing.new env.new) }
    {
        while let [first, others @ ..] = arrays {
            self.redim_one(p, playing, env, preserve, first)?;
            arrays = others;
        }
        Ok(())
    }
}

impl<I: Intrinsics, V, A, S, C, T, N> Rules<I, V, A, S, C, T, N> {
    /// Writes a value as Response.Write does.
    pub fn write(
        &self,
        p: &Program,
        playing: &mut Playing<'_>,
        env: &mut I,
        value: Value,
    ) -> Result<Exit, Stop>
        ensures { Ran (spec.write I (inside I (host I.asked I.answered) p.now self.now.levels) value
            (seen playing.old env.old)) result (seen playing.new env.new) }
    {
        ask(self.alloc, playing, env, Member::ResponseWrite, &[value])?;
        Ok(Exit::Next)
    }

    /// On Error Resume Next, and On Error GoTo 0.
    pub fn handles(&self, p: &Program, playing: &mut Playing<'_>, env: &I, resumes: bool) -> Exit
        ensures { spec.handles I (inside I (host I.asked I.answered) p.now self.now.levels) resumes
            (seen playing.old env.now) ≡ Returns result (seen playing.new env.now) }
    {
        on_error(self.alloc, &mut playing.world, resumes);
        Exit::Next
    }
}
