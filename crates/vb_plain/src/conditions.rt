//! Heads of statements, and what is chosen by conditions: If and Select Case.
ghost use Rattle.std.specs.Prelude.{◌≡◌};
ghost use Rattle.std.specs.Option.{option_copied};
ghost use Rattle.vb_meaning.specs.Meaning.{value, inside};
ghost use Rattle.vb_meaning.specs.Statements as spec;
ghost use Rattle.vb_meaning.specs.Step.{Ran, and_then, given};
ghost use Rattle.vb_ops.specs.Operators.{truth_of};
ghost use Rattle.vb_plain.specs.Nests.{Evaluates, Executes, Enters};
ghost use Rattle.vb_objects.specs.Seen.{seen, host};

use crate::rules::Rules;
use std::alloc::Global;
use vb_meaning::{Argument, Exit, Stop};
use vb_objects::playing::{Playing, in_line, resumed};
use vb_ops::truth;
use vb_syntax::Intrinsics;
use vb_syntax::program::{ElseIf, Expression, Procedure, Program, Statement};
use vb_value::{List, ObjNo, Value};

impl<
    I: Intrinsics,
    V: Fn(Global, u32, &Program, &mut Playing<'_>, &mut I, &Expression) -> Result<Value, Stop>,
    A,
    S,
    C,
    T,
    N: Fn(
        Global,
        u32,
        &Program,
        &mut Playing<'_>,
        &mut I,
        Option<(ObjNo, u32)>,
        &Procedure,
        List<Argument>,
    ) -> Result<Value, Stop>,
> Rules<I, V, A, S, C, T, N> {
    /// Whether an expression holds.
    fn holds(
        &self,
        p: &Program,
        playing: &mut Playing<'_>,
        env: &mut I,
        test: &Expression,
    ) -> Result<bool, Stop>
        requires evaluates { Evaluates I (host I.asked I.answered) self.now.levels (V.pre self.now.value)
            (V.post self.now.value) }
        ensures { Ran (and_then (value I (host I.asked I.answered) p.now self.now.levels test.now
            (seen playing.old env.old)) (λ found. given (truth_of found))) result (seen playing.new env.new) }
    {
        let found = self.value(p, playing, env, test)?;
        Ok(truth(&found)?)
    }

    /// Whether a condition holds, which is a head of its own.
    #[tactic(auto, unfolding(vb_meaning::specs::Statements::condition))]
    pub fn condition(
        &self,
        p: &Program,
        playing: &mut Playing<'_>,
        env: &mut I,
        test: &Expression,
    ) -> Result<bool, Stop>
        requires evaluates { Evaluates I (host I.asked I.answered) self.now.levels (V.pre self.now.value)
            (V.post self.now.value) }
        requires enters { Enters I (host I.asked I.answered) self.now.levels (N.pre self.now.enter)
            (N.post self.now.enter) }
        ensures { Ran (spec.condition I (inside I (host I.asked I.answered) p.now self.now.levels) test.now
            (seen playing.old env.old)) result (seen playing.new env.new) }
    {
        let mark = playing.world.heap.mark();
        let gave = self.holds(p, playing, env, test);
        self.release(p, playing, env, mark, gave)
    }

    /// Whether the branch of a condition is entered.
    fn chooses(
        &self,
        p: &Program,
        playing: &mut Playing<'_>,
        env: &mut I,
        test: &Expression,
    ) -> Result<bool, Stop>
        requires evaluates { Evaluates I (host I.asked I.answered) self.now.levels (V.pre self.now.value)
            (V.post self.now.value) }
        requires enters { Enters I (host I.asked I.answered) self.now.levels (N.pre self.now.enter)
            (N.post self.now.enter) }
        ensures { Ran (spec.chooses I (inside I (host I.asked I.answered) p.now self.now.levels) test.now
            (seen playing.old env.old)) result (seen playing.new env.new) }
    {
        let gave = self.condition(p, playing, env, test);
        resumed(self.alloc, playing, env, gave, true)
    }

    /// Whether the branch of an ElseIf is entered.
    fn else_if_chooses(
        &self,
        p: &Program,
        playing: &mut Playing<'_>,
        env: &mut I,
        found: &ElseIf,
    ) -> Result<bool, Stop>
        requires evaluates { Evaluates I (host I.asked I.answered) self.now.levels (V.pre self.now.value)
            (V.post self.now.value) }
        requires enters { Enters I (host I.asked I.answered) self.now.levels (N.pre self.now.enter)
            (N.post self.now.enter) }
        ensures { Ran (spec.else_if_chooses I (inside I (host I.asked I.answered) p.now self.now.levels) found.now
            (seen playing.old env.old)) result (seen playing.new env.new) }
    {
        let gave = self.chooses(p, playing, env, &found.condition);
        in_line(found.line, playing, env, gave)
    }
}

impl<
    I: Intrinsics,
    V: Fn(Global, u32, &Program, &mut Playing<'_>, &mut I, &Expression) -> Result<Value, Stop>,
    A,
    S,
    C,
    T: Fn(Global, u32, &Program, &mut Playing<'_>, &mut I, &Statement) -> Result<Exit, Stop>,
    N: Fn(
        Global,
        u32,
        &Program,
        &mut Playing<'_>,
        &mut I,
        Option<(ObjNo, u32)>,
        &Procedure,
        List<Argument>,
    ) -> Result<Value, Stop>,
> Rules<I, V, A, S, C, T, N> {
    /// The Else part, if there is one.
    pub fn otherwise_block(
        &self,
        p: &Program,
        playing: &mut Playing<'_>,
        env: &mut I,
        otherwise: Option<&List<Statement>>,
    ) -> Result<Exit, Stop>
        requires { Executes I (host I.asked I.answered) self.now.levels (T.pre self.now.statement)
            (T.post self.now.statement) }
        ensures { Ran (spec.otherwise_block I (inside I (host I.asked I.answered) p.now self.now.levels)
            (option_copied otherwise.entry) (seen playing.old env.old)) result (seen playing.new env.new) }
    {
        match otherwise {
            Some(statements) => self.block(p, playing, env, statements.as_slice()),
            None => Ok(Exit::Next),
        }
    }

    /// The ElseIf parts, and the Else part where none of them is entered.
    fn else_ifs(
        &self,
        p: &Program,
        playing: &mut Playing<'_>,
        env: &mut I,
        mut others: &[ElseIf],
        otherwise: Option<&List<Statement>>,
    ) -> Result<Exit, Stop>
        requires evaluates { Evaluates I (host I.asked I.answered) self.now.levels (V.pre self.now.value)
            (V.post self.now.value) }
        requires executes { Executes I (host I.asked I.answered) self.now.levels (T.pre self.now.statement)
            (T.post self.now.statement) }
        requires enters { Enters I (host I.asked I.answered) self.now.levels (N.pre self.now.enter)
            (N.post self.now.enter) }
        ensures { Ran (spec.else_ifs I (inside I (host I.asked I.answered) p.now self.now.levels) others.entry.now
            (option_copied otherwise.entry) (seen playing.old env.old)) result (seen playing.new env.new) }
    {
        while let [first, rest @ ..] = others {
            if self.else_if_chooses(p, playing, env, first)? {
                return self.block(p, playing, env, first.then.as_slice());
            }
            others = rest;
        }
        self.otherwise_block(p, playing, env, otherwise)
    }

    /// If with its parts.
    #[tactic(auto, unfolding(vb_meaning::specs::Statements::if_statement))]
    pub fn if_statement(
        &self,
        p: &Program,
        playing: &mut Playing<'_>,
        env: &mut I,
        test: &Expression,
        branch: &[Statement],
        others: &[ElseIf],
        otherwise: Option<&List<Statement>>,
    ) -> Result<Exit, Stop>
        requires evaluates { Evaluates I (host I.asked I.answered) self.now.levels (V.pre self.now.value)
            (V.post self.now.value) }
        requires executes { Executes I (host I.asked I.answered) self.now.levels (T.pre self.now.statement)
            (T.post self.now.statement) }
        requires enters { Enters I (host I.asked I.answered) self.now.levels (N.pre self.now.enter)
            (N.post self.now.enter) }
        ensures { Ran (spec.if_statement I (inside I (host I.asked I.answered) p.now self.now.levels) test.now branch.now
            others.now (option_copied otherwise.entry) (seen playing.old env.old)) result (seen playing.new env.new) }
    {
        if self.chooses(p, playing, env, test)? {
            return self.block(p, playing, env, branch);
        }
        self.else_ifs(p, playing, env, others, otherwise)
    }
}
