//! For and For Each.
ghost use Rattle.std.specs.Prelude.{◌≡◌, ◌+◌, if◌then◌else◌};
ghost use Rattle.std.specs.Option.{option_copied};
ghost use Rattle.vb_meaning.specs.Loops as spec;
ghost use Rattle.vb_meaning.specs.Meaning.{value, inside};
ghost use Rattle.vb_meaning.specs.Step.{Ran, and_then, given};
ghost use Rattle.vb_meaning.specs.declared.world.Exit.TheVariants.{Next, Leave};
ghost use Rattle.vb_plain.specs.Nests.{Evaluates, Executes, Enters};
ghost use Rattle.vb_objects.specs.Seen.{seen, host};

use crate::rules::Rules;
use std::alloc::Global;
use vb_meaning::{Argument, Exit, Range, Stop};
use vb_objects::playing::Playing;
use vb_syntax::program::{Expression, Named, Procedure, Program, Statement};
use vb_syntax::{ExitKind, Intrinsics};
use vb_value::{LimitKind, List, ObjNo, Value, number_value};
use vb_world::copying::copied;
use vb_world::counting::{add_step, is_within, items_of, range_of, set_variable};

/// How a For ends that an Exit in it leaves: an Exit For goes on behind it.
fn behind_for(kind: ExitKind) -> Exit
    ensures { result ≡ (if spec.leaves_for kind then Next else Leave kind) }
{
    match kind {
        ExitKind::For => Exit::Next,
        other => Exit::Leave(other),
    }
}

impl<
    I: Intrinsics,
    V: Fn(Global, u32, &Program, &mut Playing<'_>, &mut I, &Expression) -> Result<Value, Stop>,
    A,
    S,
    C,
    T: Fn(Global, u32, &Program, &mut Playing<'_>, &mut I, &Statement) -> Result<Exit, Stop>,
    N: Fn(
        Global,
        u32,
        &Program,
        &mut Playing<'_>,
        &mut I,
        Option<(ObjNo, u32)>,
        &Procedure,
        List<Argument>,
    ) -> Result<Value, Stop>,
> Rules<I, V, A, S, C, T, N> {
    /// The value of the step of a For, which is 1 where it is left out.
    fn step_value(
        &self,
        p: &Program,
        playing: &mut Playing<'_>,
        env: &mut I,
        step: Option<&Expression>,
    ) -> Result<Value, Stop>
        requires evaluates { Evaluates I (host I.asked I.answered) self.now.levels (V.pre self.now.value)
            (V.post self.now.value) }
        ensures { Ran (spec.step_value I (inside I (host I.asked I.answered) p.now self.now.levels)
            (option_copied step.entry) (seen playing.old env.old))
            result (seen playing.new env.new) }
    {
        match step {
            Some(step) => self.value(p, playing, env, step),
            None => Ok(Value::Int(1)),
        }
    }

    /// The three numbers of a For, from left to right.
    fn numbers(
        &self,
        p: &Program,
        playing: &mut Playing<'_>,
        env: &mut I,
        from: &Expression,
        to: &Expression,
        step: Option<&Expression>,
    ) -> Result<Range, Stop>
        requires evaluates { Evaluates I (host I.asked I.answered) self.now.levels (V.pre self.now.value)
            (V.post self.now.value) }
        ensures { Ran (and_then (value I (host I.asked I.answered) p.now self.now.levels from.now
            (seen playing.old env.old)) (λ first s. and_then (value I (host I.asked I.answered) p.now self.now.levels
            to.now s) (λ last t. and_then (spec.step_value I (inside I (host I.asked I.answered) p.now self.now.levels)
            (option_copied step.entry) t) (λ by. given (spec.range_of first last by))))) result
            (seen playing.new env.new) }
    {
        let first = self.value(p, playing, env, from)?;
        let last = self.value(p, playing, env, to)?;
        let by = self.step_value(p, playing, env, step)?;
        Ok(range_of(&first, &last, &by)?)
    }

    /// The same as the head of the statement.
    fn range(
        &self,
        p: &Program,
        playing: &mut Playing<'_>,
        env: &mut I,
        from: &Expression,
        to: &Expression,
        step: Option<&Expression>,
    ) -> Result<Range, Stop>
        requires evaluates { Evaluates I (host I.asked I.answered) self.now.levels (V.pre self.now.value)
            (V.post self.now.value) }
        requires enters { Enters I (host I.asked I.answered) self.now.levels (N.pre self.now.enter)
            (N.post self.now.enter) }
        ensures { Ran (spec.range I (inside I (host I.asked I.answered) p.now self.now.levels) from.now to.now
            (option_copied step.entry) (seen playing.old env.old))
            result (seen playing.new env.new) }
    {
        let mark = playing.world.heap.mark();
        let gave = self.numbers(p, playing, env, from, to, step);
        self.release(p, playing, env, mark, gave)
    }

    /// The turns of a For.
    #[tactic(auto, using(vb_meaning::proofs::Turns::for_more, vb_meaning::proofs::Turns::for_none))]
    fn for_turns(
        &self,
        p: &Program,
        playing: &mut Playing<'_>,
        env: &mut I,
        variable: &Named,
        range: Range,
        body: &[Statement],
    ) -> Result<Exit, Stop>
        requires executes { Executes I (host I.asked I.answered) self.now.levels (T.pre self.now.statement)
            (T.post self.now.statement) }
        ensures { Ran (spec.for_turns I (inside I (host I.asked I.answered) p.now self.now.levels)
            (playing.old.ticks + 1) variable.now range body.now (seen playing.old env.old))
            result (seen playing.new env.new) }
    {
        let mut most = u64::from(playing.ticks) + 1;
        while most > 0 {
            most -= 1;
            if !is_within(self.alloc, &playing.world, variable, range)? {
                return Ok(Exit::Next);
            }
            if let Exit::Leave(kind) = self.turn(p, playing, env, body)? {
                return Ok(behind_for(kind));
            }
            add_step(self.alloc, &mut playing.world, variable, range)?;
        }
        Err(Stop::Limit(LimitKind::Ticks, None))
    }

    /// `For` .. `Next`
    #[tactic(auto, unfolding(vb_meaning::specs::Loops::for_statement))]
    pub fn for_statement(
        &self,
        p: &Program,
        playing: &mut Playing<'_>,
        env: &mut I,
        variable: &Named,
        from: &Expression,
        to: &Expression,
        step: Option<&Expression>,
        body: &[Statement],
    ) -> Result<Exit, Stop>
        requires evaluates { Evaluates I (host I.asked I.answered) self.now.levels (V.pre self.now.value)
            (V.post self.now.value) }
        requires executes { Executes I (host I.asked I.answered) self.now.levels (T.pre self.now.statement)
            (T.post self.now.statement) }
        requires enters { Enters I (host I.asked I.answered) self.now.levels (N.pre self.now.enter)
            (N.post self.now.enter) }
        ensures { Ran (spec.for_statement I (inside I (host I.asked I.answered) p.now self.now.levels) variable.now
            from.now to.now (option_copied step.entry) body.now (seen playing.old env.old))
            result (seen playing.new env.new) }
    {
        let range = self.range(p, playing, env, from, to, step)?;
        let first = number_value(range.from);
        set_variable(self.alloc, &mut playing.world, variable, first)?;
        self.for_turns(p, playing, env, variable, range, body)
    }

    /// The turns of a For Each.
    fn each_turns(
        &self,
        p: &Program,
        playing: &mut Playing<'_>,
        env: &mut I,
        variable: &Named,
        mut items: &[Value],
        body: &[Statement],
    ) -> Result<Exit, Stop>
        requires executes { Executes I (host I.asked I.answered) self.now.levels (T.pre self.now.statement)
            (T.post self.now.statement) }
        ensures { Ran (spec.each_turns I (inside I (host I.asked I.answered) p.now self.now.levels) variable.now
            items.entry.now body.now (seen playing.old env.old))
            result (seen playing.new env.new) }
    {
        while let [first, others @ ..] = items {
            let item = copied(self.alloc, first)?;
            set_variable(self.alloc, &mut playing.world, variable, item)?;
            if let Exit::Leave(kind) = self.turn(p, playing, env, body)? {
                return Ok(behind_for(kind));
            }
            items = others;
        }
        Ok(Exit::Next)
    }

    /// `For Each` .. `Next`
    #[tactic(auto, unfolding(vb_meaning::specs::Loops::for_each_statement))]
    pub fn for_each_statement(
        &self,
        p: &Program,
        playing: &mut Playing<'_>,
        env: &mut I,
        variable: &Named,
        group: &Expression,
        body: &[Statement],
    ) -> Result<Exit, Stop>
        requires evaluates { Evaluates I (host I.asked I.answered) self.now.levels (V.pre self.now.value)
            (V.post self.now.value) }
        requires executes { Executes I (host I.asked I.answered) self.now.levels (T.pre self.now.statement)
            (T.post self.now.statement) }
        ensures { Ran (spec.for_each_statement I (inside I (host I.asked I.answered) p.now self.now.levels) variable.now
            group.now body.now (seen playing.old env.old))
            result (seen playing.new env.new) }
    {
        let group = self.value(p, playing, env, group)?;
        let items = items_of(self.alloc, &playing.world, group)?;
        self.each_turns(p, playing, env, variable, items.as_slice(), body)
    }
}
