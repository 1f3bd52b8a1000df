//! Do and While.
ghost use Rattle.std.specs.Prelude.{◌≡◌, ◌+◌, if◌then◌else◌};
ghost use Rattle.vb_syntax.specs.declared.program.statement.Repetition.TheVariants as repetition;
ghost use Rattle.vb_meaning.specs.Blocks as blocks;
ghost use Rattle.vb_meaning.specs.Errors as errors;
ghost use Rattle.vb_meaning.specs.Loops as spec;
ghost use Rattle.vb_meaning.specs.Meaning.{inside};
ghost use Rattle.vb_meaning.specs.Step.{Ran, and_then};
ghost use Rattle.vb_meaning.specs.declared.world.Exit.TheVariants.{Next, Leave};
ghost use Rattle.vb_plain.specs.Nests.{Evaluates, Executes, Enters};
ghost use Rattle.vb_objects.specs.Seen.{seen, host};

use crate::rules::Rules;
use std::alloc::Global;
use vb_meaning::{Argument, Exit, Stop};
use vb_objects::playing::{Playing, in_line, tick};
use vb_syntax::program::{Condition, Expression, Procedure, Program, Repetition, Statement};
use vb_syntax::{ExitKind, Intrinsics};
use vb_value::{LimitKind, List, ObjNo, Value};

/// How a Do ends that an Exit in it leaves: an Exit Do goes on behind it.
fn behind_do(kind: ExitKind) -> Exit
    ensures { result ≡ (if spec.leaves_do kind then Next else Leave kind) }
{
    match kind {
        ExitKind::Do => Exit::Next,
        other => Exit::Leave(other),
    }
}

impl<
    I: Intrinsics,
    V: Fn(Global, u32, &Program, &mut Playing<'_>, &mut I, &Expression) -> Result<Value, Stop>,
    A,
    S,
    C,
    T: Fn(Global, u32, &Program, &mut Playing<'_>, &mut I, &Statement) -> Result<Exit, Stop>,
    N: Fn(
        Global,
        u32,
        &Program,
        &mut Playing<'_>,
        &mut I,
        Option<(ObjNo, u32)>,
        &Procedure,
        List<Argument>,
    ) -> Result<Value, Stop>,
> Rules<I, V, A, S, C, T, N> {
    /// A turn of a loop up to what follows its body: a tick, and the body.
    pub fn turn(
        &self,
        p: &Program,
        playing: &mut Playing<'_>,
        env: &mut I,
        body: &[Statement],
    ) -> Result<Exit, Stop>
        requires executes { Executes I (host I.asked I.answered) self.now.levels (T.pre self.now.statement)
            (T.post self.now.statement) }
        ensures { Ran (and_then (errors.tick (seen playing.old env.old)) (λ _.
            blocks.block I (inside I (host I.asked I.answered) p.now self.now.levels) body.now))
            result (seen playing.new env.new) }
    {
        tick(playing, env)?;
        self.block(p, playing, env, body)
    }

    /// Whether a Do goes on.
    fn goes_on(
        &self,
        p: &Program,
        playing: &mut Playing<'_>,
        env: &mut I,
        asked: &Condition,
    ) -> Result<bool, Stop>
        requires evaluates { Evaluates I (host I.asked I.answered) self.now.levels (V.pre self.now.value)
            (V.post self.now.value) }
        requires enters { Enters I (host I.asked I.answered) self.now.levels (N.pre self.now.enter)
            (N.post self.now.enter) }
        ensures { Ran (spec.goes_on I (inside I (host I.asked I.answered) p.now self.now.levels) asked.now
            (seen playing.old env.old))
            result (seen playing.new env.new) }
    {
        let holds = self.condition(p, playing, env, &asked.test)?;
        Ok(if asked.is_until { !holds } else { holds })
    }

    /// A Do without a condition.
    #[tactic(auto, using(vb_meaning::proofs::Turns::before_more, vb_meaning::proofs::Turns::before_none))]
    fn do_endless(
        &self,
        p: &Program,
        playing: &mut Playing<'_>,
        env: &mut I,
        body: &[Statement],
    ) -> Result<Exit, Stop>
        requires executes { Executes I (host I.asked I.answered) self.now.levels (T.pre self.now.statement)
            (T.post self.now.statement) }
        ensures { Ran (spec.do_turns I (inside I (host I.asked I.answered) p.now self.now.levels)
            (playing.old.ticks + 1) repetition.Endless body.now (seen playing.old env.old))
            result (seen playing.new env.new) }
    {
        let mut most = u64::from(playing.ticks) + 1;
        while most > 0 {
            most -= 1;
            if let Exit::Leave(kind) = self.turn(p, playing, env, body)? {
                return Ok(behind_do(kind));
            }
        }
        Err(Stop::Limit(LimitKind::Ticks, None))
    }

    /// A Do whose condition stands before each turn.
    #[tactic(auto, using(vb_meaning::proofs::Turns::before_more, vb_meaning::proofs::Turns::before_none))]
    fn do_before(
        &self,
        p: &Program,
        playing: &mut Playing<'_>,
        env: &mut I,
        asked: &Condition,
        body: &[Statement],
    ) -> Result<Exit, Stop>
        requires evaluates { Evaluates I (host I.asked I.answered) self.now.levels (V.pre self.now.value)
            (V.post self.now.value) }
        requires executes { Executes I (host I.asked I.answered) self.now.levels (T.pre self.now.statement)
            (T.post self.now.statement) }
        requires enters { Enters I (host I.asked I.answered) self.now.levels (N.pre self.now.enter)
            (N.post self.now.enter) }
        ensures { Ran (spec.do_turns I (inside I (host I.asked I.answered) p.now self.now.levels)
            (playing.old.ticks + 1) (repetition.Before asked.now) body.now (seen playing.old env.old))
            result (seen playing.new env.new) }
    {
        let mut most = u64::from(playing.ticks) + 1;
        while most > 0 {
            most -= 1;
            if !self.goes_on(p, playing, env, asked)? {
                return Ok(Exit::Next);
            }
            if let Exit::Leave(kind) = self.turn(p, playing, env, body)? {
                return Ok(behind_do(kind));
            }
        }
        Err(Stop::Limit(LimitKind::Ticks, None))
    }

    /// Whether a Do goes on whose condition has a line of its own.
    fn goes_on_in(
        &self,
        p: &Program,
        playing: &mut Playing<'_>,
        env: &mut I,
        line: u32,
        asked: &Condition,
    ) -> Result<bool, Stop>
        requires evaluates { Evaluates I (host I.asked I.answered) self.now.levels (V.pre self.now.value)
            (V.post self.now.value) }
        requires enters { Enters I (host I.asked I.answered) self.now.levels (N.pre self.now.enter)
            (N.post self.now.enter) }
        ensures { Ran (errors.in_line line (spec.goes_on I (inside I (host I.asked I.answered) p.now self.now.levels) asked.now
            (seen playing.old env.old))) result (seen playing.new env.new) }
    {
        let gave = self.goes_on(p, playing, env, asked);
        in_line(line, playing, env, gave)
    }

    /// A Do whose condition stands after each turn.
    #[tactic(auto, using(vb_meaning::proofs::AfterTurns::after_more, vb_meaning::proofs::AfterTurns::after_none))]
    fn do_after(
        &self,
        p: &Program,
        playing: &mut Playing<'_>,
        env: &mut I,
        line: u32,
        asked: &Condition,
        body: &[Statement],
    ) -> Result<Exit, Stop>
        requires evaluates { Evaluates I (host I.asked I.answered) self.now.levels (V.pre self.now.value)
            (V.post self.now.value) }
        requires executes { Executes I (host I.asked I.answered) self.now.levels (T.pre self.now.statement)
            (T.post self.now.statement) }
        requires enters { Enters I (host I.asked I.answered) self.now.levels (N.pre self.now.enter)
            (N.post self.now.enter) }
        ensures { Ran (spec.do_turns I (inside I (host I.asked I.answered) p.now self.now.levels)
            (playing.old.ticks + 1) (repetition.After line asked.now) body.now (seen playing.old env.old))
            result (seen playing.new env.new) }
    {
        let mut most = u64::from(playing.ticks) + 1;
        while most > 0 {
            most -= 1;
            match self.turn(p, playing, env, body)? {
                Exit::Next => {
                    if !self.goes_on_in(p, playing, env, line, asked)? {
                        return Ok(Exit::Next);
                    }
                }
                Exit::Leave(kind) => return Ok(behind_do(kind)),
            }
        }
        Err(Stop::Limit(LimitKind::Ticks, None))
    }

    /// `Do` .. `Loop`
    #[tactic(auto, unfolding(vb_meaning::specs::Loops::do_statement))]
    pub fn do_statement(
        &self,
        p: &Program,
        playing: &mut Playing<'_>,
        env: &mut I,
        repeated: &Repetition,
        body: &[Statement],
    ) -> Result<Exit, Stop>
        requires evaluates { Evaluates I (host I.asked I.answered) self.now.levels (V.pre self.now.value)
            (V.post self.now.value) }
        requires executes { Executes I (host I.asked I.answered) self.now.levels (T.pre self.now.statement)
            (T.post self.now.statement) }
        requires enters { Enters I (host I.asked I.answered) self.now.levels (N.pre self.now.enter)
            (N.post self.now.enter) }
        ensures { Ran (spec.do_statement I (inside I (host I.asked I.answered) p.now self.now.levels) repeated.now
            body.now (seen playing.old env.old))
            result (seen playing.new env.new) }
    {
        match repeated {
            Repetition::Endless => self.do_endless(p, playing, env, body),
            Repetition::Before(asked) => self.do_before(p, playing, env, asked, body),
            Repetition::After { line, condition } => {
                self.do_after(p, playing, env, *line, condition, body)
            }
        }
    }

    /// `While` .. `Wend`. No Exit ends it alone.
    #[tactic(auto, using(vb_meaning::proofs::Turns::before_more, vb_meaning::proofs::Turns::before_none), unfolding(vb_meaning::specs::Loops::while_statement))]
    pub fn while_statement(
        &self,
        p: &Program,
        playing: &mut Playing<'_>,
        env: &mut I,
        test: &Expression,
        body: &[Statement],
    ) -> Result<Exit, Stop>
        requires evaluates { Evaluates I (host I.asked I.answered) self.now.levels (V.pre self.now.value)
            (V.post self.now.value) }
        requires executes { Executes I (host I.asked I.answered) self.now.levels (T.pre self.now.statement)
            (T.post self.now.statement) }
        requires enters { Enters I (host I.asked I.answered) self.now.levels (N.pre self.now.enter)
            (N.post self.now.enter) }
        ensures { Ran (spec.while_statement I (inside I (host I.asked I.answered) p.now self.now.levels) test.now
            body.now (seen playing.old env.old))
            result (seen playing.new env.new) }
    {
        let mut most = u64::from(playing.ticks) + 1;
        while most > 0 {
            most -= 1;
            if !self.condition(p, playing, env, test)? {
                return Ok(Exit::Next);
            }
            if let Exit::Leave(kind) = self.turn(p, playing, env, body)? {
                return Ok(Exit::Leave(kind));
            }
        }
        Err(Stop::Limit(LimitKind::Ticks, None))
    }
}
