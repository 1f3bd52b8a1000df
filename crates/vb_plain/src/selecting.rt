//! Select Case: the first Case that holds.
ghost use Rattle.std.specs.Prelude.{◌≡◌};
ghost use Rattle.std.specs.Option.{option_copied};
ghost use Rattle.vb_meaning.specs.Meaning.{inside};
ghost use Rattle.vb_meaning.specs.Statements as spec;
ghost use Rattle.vb_meaning.specs.Step.{Ran};
ghost use Rattle.vb_plain.specs.Selects.{selects};
ghost use Rattle.vb_plain.specs.Nests.{Evaluates, Executes, Enters};
ghost use Rattle.vb_objects.specs.Seen.{seen, host};

use crate::rules::Rules;
use std::alloc::Global;
use vb_meaning::{Argument, Exit, Stop, raise};
use vb_objects::playing::{Playing, in_line};
use vb_ops::{apply2, truth};
use vb_syntax::Intrinsics;
use vb_syntax::program::{Case, Expression, Procedure, Program, Statement};
use vb_value::{List, ObjNo, Op2, Value};

/// The block of the Case of a number, or that of Case Else.
fn case_block<'p>(
    cases: &'p [Case],
    otherwise: Option<&'p List<Statement>>,
    chosen: Option<u32>,
) -> Option<&'p List<Statement>>
    ensures { option_copied result ≡ spec.case_block cases.now (option_copied otherwise.entry) chosen }
{
    match chosen {
        Some(number) => match cases.get(number as usize) {
            Some(found) => Some(&found.body),
            None => None,
        },
        None => otherwise,
    }
}

impl<
    I: Intrinsics,
    V: Fn(Global, u32, &Program, &mut Playing<'_>, &mut I, &Expression) -> Result<Value, Stop>,
    A,
    S,
    C,
    T,
    N,
> Rules<I, V, A, S, C, T, N> {
    /// Whether the subject equals one of some expressions, which are tried from left to right.
    fn is_among(
        &self,
        p: &Program,
        playing: &mut Playing<'_>,
        env: &mut I,
        subject: &Value,
        mut expressions: &[Expression],
    ) -> Result<bool, Stop>
        requires { Evaluates I (host I.asked I.answered) self.now.levels (V.pre self.now.value) (V.post self.now.value) }
        ensures { Ran (spec.is_among I (inside I (host I.asked I.answered) p.now self.now.levels) subject.now
            expressions.entry.now (seen playing.old env.old)) result (seen playing.new env.new) }
    {
        while let [first, others @ ..] = expressions {
            let found = self.value(p, playing, env, first)?;
            let equal = raise(apply2(self.alloc, Op2::Equal, subject, &found))?;
            if truth(&equal)? {
                return Ok(true);
            }
            expressions = others;
        }
        Ok(false)
    }

    /// Whether a Case holds. An error in it has its line.
    fn case_holds(
        &self,
        p: &Program,
        playing: &mut Playing<'_>,
        env: &mut I,
        subject: &Value,
        found: &Case,
    ) -> Result<bool, Stop>
        requires { Evaluates I (host I.asked I.answered) self.now.levels (V.pre self.now.value) (V.post self.now.value) }
        ensures { Ran (spec.case_holds I (inside I (host I.asked I.answered) p.now self.now.levels) subject.now found.now
            (seen playing.old env.old)) result (seen playing.new env.new) }
    {
        let gave = self.is_among(p, playing, env, subject, found.values.as_slice());
        in_line(found.line, playing, env, gave)
    }

    /// The number of the first Case that holds, if one does.
    fn first_case(
        &self,
        p: &Program,
        playing: &mut Playing<'_>,
        env: &mut I,
        subject: &Value,
        mut cases: &[Case],
    ) -> Result<Option<u32>, Stop>
        requires { Evaluates I (host I.asked I.answered) self.now.levels (V.pre self.now.value) (V.post self.now.value) }
        ensures { Ran (spec.first_case I (inside I (host I.asked I.answered) p.now self.now.levels) 0 subject.now
            cases.entry.now (seen playing.old env.old)) result (seen playing.new env.new) }
    {
        let mut number: u32 = 0;
        while let [first, others @ ..] = cases {
            if self.case_holds(p, playing, env, subject, first)? {
                return Ok(Some(number));
            }
            if number == u32::MAX {
                return Err(Stop::Memory);
            }
            number += 1;
            cases = others;
        }
        Ok(None)
    }

    /// The number of the Case that is selected.
    #[tactic(auto, unfolding(crate::specs::Selects::selects))]
    fn selected(
        &self,
        p: &Program,
        playing: &mut Playing<'_>,
        env: &mut I,
        subject: &Expression,
        cases: &[Case],
    ) -> Result<Option<u32>, Stop>
        requires { Evaluates I (host I.asked I.answered) self.now.levels (V.pre self.now.value) (V.post self.now.value) }
        ensures { Ran (selects I (inside I (host I.asked I.answered) p.now self.now.levels) subject.now cases.now
            (seen playing.old env.old)) result (seen playing.new env.new) }
    {
        let found = self.value(p, playing, env, subject)?;
        self.first_case(p, playing, env, &found, cases)
    }
}

impl<
    I: Intrinsics,
    V: Fn(Global, u32, &Program, &mut Playing<'_>, &mut I, &Expression) -> Result<Value, Stop>,
    A,
    S,
    C,
    T,
    N: Fn(
        Global,
        u32,
        &Program,
        &mut Playing<'_>,
        &mut I,
        Option<(ObjNo, u32)>,
        &Procedure,
        List<Argument>,
    ) -> Result<Value, Stop>,
> Rules<I, V, A, S, C, T, N> {
    /// The head of a Select Case, with the number of the Case that is selected.
    fn head(
        &self,
        p: &Program,
        playing: &mut Playing<'_>,
        env: &mut I,
        subject: &Expression,
        cases: &[Case],
    ) -> Result<Option<u32>, Stop>
        requires evaluates { Evaluates I (host I.asked I.answered) self.now.levels (V.pre self.now.value)
            (V.post self.now.value) }
        requires enters { Enters I (host I.asked I.answered) self.now.levels (N.pre self.now.enter)
            (N.post self.now.enter) }
        ensures { Ran (spec.in_head I (inside I (host I.asked I.answered) p.now self.now.levels)
            (selects I (inside I (host I.asked I.answered) p.now self.now.levels) subject.now cases.now)
            (seen playing.old env.old)) result (seen playing.new env.new) }
    {
        let mark = playing.world.heap.mark();
        let gave = self.selected(p, playing, env, subject, cases);
        self.release(p, playing, env, mark, gave)
    }
}

impl<
    I: Intrinsics,
    V: Fn(Global, u32, &Program, &mut Playing<'_>, &mut I, &Expression) -> Result<Value, Stop>,
    A,
    S,
    C,
    T: Fn(Global, u32, &Program, &mut Playing<'_>, &mut I, &Statement) -> Result<Exit, Stop>,
    N: Fn(
        Global,
        u32,
        &Program,
        &mut Playing<'_>,
        &mut I,
        Option<(ObjNo, u32)>,
        &Procedure,
        List<Argument>,
    ) -> Result<Value, Stop>,
> Rules<I, V, A, S, C, T, N> {
    /// Select Case with its parts. The subject and the Case expressions that are tried are one head.
    #[tactic(auto, unfolding(vb_meaning::specs::Statements::select_statement, crate::specs::Selects::selects))]
    pub fn select_statement(
        &self,
        p: &Program,
        playing: &mut Playing<'_>,
        env: &mut I,
        subject: &Expression,
        cases: &[Case],
        otherwise: Option<&List<Statement>>,
    ) -> Result<Exit, Stop>
        requires evaluates { Evaluates I (host I.asked I.answered) self.now.levels (V.pre self.now.value)
            (V.post self.now.value) }
        requires executes { Executes I (host I.asked I.answered) self.now.levels (T.pre self.now.statement)
            (T.post self.now.statement) }
        requires enters { Enters I (host I.asked I.answered) self.now.levels (N.pre self.now.enter)
            (N.post self.now.enter) }
        ensures { Ran (spec.select_statement I (inside I (host I.asked I.answered) p.now self.now.levels) subject.now
            cases.now (option_copied otherwise.entry) (seen playing.old env.old)) result (seen playing.new env.new) }
    {
        let chosen = self.head(p, playing, env, subject, cases)?;
        let block = case_block(cases, otherwise, chosen);
        self.otherwise_block(p, playing, env, block)
    }
}
