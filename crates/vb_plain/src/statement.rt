//! Statements as wholes: the tick, what a statement does by what it says, what becomes of an error in it, and the release
//! point at its end.
ghost use Rattle.std.specs.Prelude.{◌≡◌};
ghost use Rattle.vb_value.specs.declared.value.Value.{Str};
ghost use Rattle.vb_meaning.specs.declared.world.Exit.TheVariants.{Next};
ghost use Rattle.vb_syntax.specs.declared.program.statement.StatementKind.{out-StatementKind};
ghost use Rattle.vb_meaning.specs.Errors as errors;
ghost use Rattle.vb_meaning.specs.Executing as spec;
ghost use Rattle.vb_meaning.specs.Meaning.{call, inside, value};
ghost use Rattle.vb_meaning.specs.State.{on_world};
ghost use Rattle.vb_meaning.specs.Statements as statements;
ghost use Rattle.vb_meaning.specs.Step.{Ran, and_then, pure};
ghost use Rattle.vb_plain.specs.Nests.{Assigns, Calls, Enters, Evaluates, Executes};
ghost use Rattle.vb_objects.specs.Seen.{seen, host};

use crate::rules::Rules;
use std::alloc::Global;
use vb_meaning::{Argument, Assigned, Exit, Stop};
use vb_objects::errors::clear;
use vb_objects::playing::{Playing, in_line, resumed, tick};
use vb_syntax::program::{Expression, Named, Path, Procedure, Program, Statement, StatementKind};
use vb_syntax::{ExitKind, Intrinsics};
use vb_value::{Copied, List, ObjNo, Text, Value};
use vb_world::resizing::erase_all;

/// Whether an Exit clears Err: of a Sub, a Function or a Property.
fn clears_err(kind: ExitKind) -> bool
    ensures { result ≡ statements.clears_err kind }
{
    match kind {
        ExitKind::Sub | ExitKind::Function | ExitKind::Property => true,
        ExitKind::Do | ExitKind::For => false,
    }
}

impl<
    I: Intrinsics,
    V: Fn(Global, u32, &Program, &mut Playing<'_>, &mut I, &Expression) -> Result<Value, Stop>,
    A,
    S: Fn(
        Global,
        u32,
        &Program,
        &mut Playing<'_>,
        &mut I,
        Assigned,
        &Path,
        Value,
    ) -> Result<(), Stop>,
    C: Fn(Global, u32, &Program, &mut Playing<'_>, &mut I, &Path) -> Result<(), Stop>,
    T: Fn(Global, u32, &Program, &mut Playing<'_>, &mut I, &Statement) -> Result<Exit, Stop>,
    N: Fn(
        Global,
        u32,
        &Program,
        &mut Playing<'_>,
        &mut I,
        Option<(ObjNo, u32)>,
        &Procedure,
        List<Argument>,
    ) -> Result<Value, Stop>,
> Rules<I, V, A, S, C, T, N> {
    /// A path inside that a statement calls.
    fn call_path(
        &self,
        p: &Program,
        playing: &mut Playing<'_>,
        env: &mut I,
        path: &Path,
    ) -> Result<Exit, Stop>
        requires { Calls I (host I.asked I.answered) self.now.levels (C.pre self.now.call) (C.post self.now.call) }
        ensures { Ran (and_then (call I (host I.asked I.answered) p.now self.now.levels path.now
            (seen playing.old env.old)) (λ _. pure Next)) result (seen playing.new env.new) }
    {
        (self.call)(self.alloc, self.levels, p, playing, env, path)?;
        Ok(Exit::Next)
    }

    /// What the page writes.
    fn page_text(
        &self,
        p: &Program,
        playing: &mut Playing<'_>,
        env: &mut I,
        text: &Text,
    ) -> Result<Exit, Stop>
        ensures { Ran (statements.write I (inside I (host I.asked I.answered) p.now self.now.levels) (Str text.now)
            (seen playing.old env.old)) result (seen playing.new env.new) }
    {
        self.write(p, playing, env, Value::Str(text.copy()?))
    }

    /// A value that the page writes.
    fn page_write(
        &self,
        p: &Program,
        playing: &mut Playing<'_>,
        env: &mut I,
        written: &Expression,
    ) -> Result<Exit, Stop>
        requires { Evaluates I (host I.asked I.answered) self.now.levels (V.pre self.now.value)
            (V.post self.now.value) }
        ensures { Ran (and_then (value I (host I.asked I.answered) p.now self.now.levels written.now
            (seen playing.old env.old)) (statements.write I (inside I (host I.asked I.answered) p.now self.now.levels)))
            result (seen playing.new env.new) }
    {
        let found = self.value(p, playing, env, written)?;
        self.write(p, playing, env, found)
    }

    /// Exit, which goes on behind what it names. That of a procedure clears Err.
    fn exit(&self, playing: &mut Playing<'_>, env: &I, kind: ExitKind) -> Result<Exit, Stop>
        ensures { Ran (on_world (statements.leave kind) (seen playing.old env.now)) result (seen playing.new env.now) }
    {
        if clears_err(kind) {
            clear(self.alloc, &mut playing.world);
        }
        Ok(Exit::Leave(kind))
    }

    /// Erase.
    fn erase(&self, playing: &mut Playing<'_>, env: &I, arrays: &[Named]) -> Result<Exit, Stop>
        ensures { Ran (and_then (on_world (statements.erase_all arrays.now) (seen playing.old env.now)) (λ _. pure Next))
            result (seen playing.new env.now) }
    {
        erase_all(self.alloc, &mut playing.world, arrays)?;
        Ok(Exit::Next)
    }

    /// What a statement does.
    fn does(
        &self,
        p: &Program,
        playing: &mut Playing<'_>,
        env: &mut I,
        said: &StatementKind,
    ) -> Result<Exit, Stop>
        requires evaluates { Evaluates I (host I.asked I.answered) self.now.levels (V.pre self.now.value)
            (V.post self.now.value) }
        requires assigns { Assigns I (host I.asked I.answered) self.now.levels (S.pre self.now.assign)
            (S.post self.now.assign) }
        requires calls { Calls I (host I.asked I.answered) self.now.levels (C.pre self.now.call)
            (C.post self.now.call) }
        requires executes { Executes I (host I.asked I.answered) self.now.levels (T.pre self.now.statement)
            (T.post self.now.statement) }
        requires enters { Enters I (host I.asked I.answered) self.now.levels (N.pre self.now.enter)
            (N.post self.now.enter) }
        ensures { Ran (spec.does I (inside I (host I.asked I.answered) p.now self.now.levels) (out-StatementKind said.now)
            (seen playing.old env.old)) result (seen playing.new env.new) }
    {
        match said {
            StatementKind::Declaration | StatementKind::Dim => Ok(Exit::Next),
            StatementKind::ReDim { preserve, arrays } => {
                self.redim(p, playing, env, *preserve, arrays.as_slice())?;
                Ok(Exit::Next)
            }
            StatementKind::Set { target, value } => {
                self.assignment(p, playing, env, Assigned::Set, target, value)
            }
            StatementKind::Assign { target, value } => {
                self.assignment(p, playing, env, Assigned::Let, target, value)
            }
            StatementKind::Call { callee } => self.call_path(p, playing, env, callee),
            StatementKind::If {
                condition,
                then,
                others,
                otherwise,
            } => self.if_statement(
                p,
                playing,
                env,
                condition,
                then.as_slice(),
                others.as_slice(),
                otherwise.as_ref(),
            ),
            StatementKind::Select {
                subject,
                cases,
                otherwise,
            } => self.select_statement(
                p,
                playing,
                env,
                subject,
                cases.as_slice(),
                otherwise.as_ref(),
            ),
            StatementKind::For {
                variable,
                from,
                to,
                step,
                body,
            } => self.for_statement(
                p,
                playing,
                env,
                variable,
                from,
                to,
                step.as_ref(),
                body.as_slice(),
            ),
            StatementKind::ForEach {
                variable,
                group,
                body,
            } => self.for_each_statement(p, playing, env, variable, group, body.as_slice()),
            StatementKind::Do { repetition, body } => {
                self.do_statement(p, playing, env, repetition, body.as_slice())
            }
            StatementKind::While { condition, body } => {
                self.while_statement(p, playing, env, condition, body.as_slice())
            }
            StatementKind::With { subject, body } => {
                self.with_statement(p, playing, env, subject, body.as_slice())
            }
            StatementKind::Exit { kind } => self.exit(playing, env, *kind),
            StatementKind::OnErrorResumeNext => Ok(self.handles(p, playing, env, true)),
            StatementKind::OnErrorGoToZero => Ok(self.handles(p, playing, env, false)),
            StatementKind::Erase { arrays } => self.erase(playing, env, arrays.as_slice()),
            StatementKind::PageText { text } => self.page_text(p, playing, env, text),
            StatementKind::PageWrite { value } => self.page_write(p, playing, env, value),
        }
    }

    /// The tick of a statement, and what it does.
    fn ticked(
        &self,
        p: &Program,
        playing: &mut Playing<'_>,
        env: &mut I,
        said: &StatementKind,
    ) -> Result<Exit, Stop>
        requires evaluates { Evaluates I (host I.asked I.answered) self.now.levels (V.pre self.now.value)
            (V.post self.now.value) }
        requires assigns { Assigns I (host I.asked I.answered) self.now.levels (S.pre self.now.assign)
            (S.post self.now.assign) }
        requires calls { Calls I (host I.asked I.answered) self.now.levels (C.pre self.now.call)
            (C.post self.now.call) }
        requires executes { Executes I (host I.asked I.answered) self.now.levels (T.pre self.now.statement)
            (T.post self.now.statement) }
        requires enters { Enters I (host I.asked I.answered) self.now.levels (N.pre self.now.enter)
            (N.post self.now.enter) }
        ensures { Ran (and_then (errors.tick (seen playing.old env.old)) (λ _. spec.does I
            (inside I (host I.asked I.answered) p.now self.now.levels) (out-StatementKind said.now)))
            result (seen playing.new env.new) }
    {
        tick(playing, env)?;
        self.does(p, playing, env, said)
    }

    /// A statement that is no declaration.
    fn whole(
        &self,
        p: &Program,
        playing: &mut Playing<'_>,
        env: &mut I,
        line: u32,
        said: &StatementKind,
    ) -> Result<Exit, Stop>
        requires evaluates { Evaluates I (host I.asked I.answered) self.now.levels (V.pre self.now.value)
            (V.post self.now.value) }
        requires assigns { Assigns I (host I.asked I.answered) self.now.levels (S.pre self.now.assign)
            (S.post self.now.assign) }
        requires calls { Calls I (host I.asked I.answered) self.now.levels (C.pre self.now.call)
            (C.post self.now.call) }
        requires executes { Executes I (host I.asked I.answered) self.now.levels (T.pre self.now.statement)
            (T.post self.now.statement) }
        requires enters { Enters I (host I.asked I.answered) self.now.levels (N.pre self.now.enter)
            (N.post self.now.enter) }
        ensures { Ran (spec.whole I (inside I (host I.asked I.answered) p.now self.now.levels) line (λ s. and_then
            (errors.tick s) (λ _. spec.does I (inside I (host I.asked I.answered) p.now self.now.levels)
            (out-StatementKind said.now))) (seen playing.old env.old)) result (seen playing.new env.new) }
    {
        let mark = playing.world.heap.mark();
        let gave = self.ticked(p, playing, env, said);
        let gave = resumed(self.alloc, playing, env, gave, Exit::Next);
        let gave = self.release(p, playing, env, mark, gave);
        in_line(line, playing, env, gave)
    }

    /// A statement. A declaration is none.
    #[tactic(auto, unfolding(vb_meaning::specs::Executing::statement_of))]
    pub fn statement_of(
        &self,
        p: &Program,
        playing: &mut Playing<'_>,
        env: &mut I,
        statement: &Statement,
    ) -> Result<Exit, Stop>
        requires evaluates { Evaluates I (host I.asked I.answered) self.now.levels (V.pre self.now.value)
            (V.post self.now.value) }
        requires assigns { Assigns I (host I.asked I.answered) self.now.levels (S.pre self.now.assign)
            (S.post self.now.assign) }
        requires calls { Calls I (host I.asked I.answered) self.now.levels (C.pre self.now.call)
            (C.post self.now.call) }
        requires executes { Executes I (host I.asked I.answered) self.now.levels (T.pre self.now.statement)
            (T.post self.now.statement) }
        requires enters { Enters I (host I.asked I.answered) self.now.levels (N.pre self.now.enter)
            (N.post self.now.enter) }
        ensures { Ran (spec.statement_of I (inside I (host I.asked I.answered) p.now self.now.levels) statement.now
            (seen playing.old env.old)) result (seen playing.new env.new) }
    {
        match &statement.kind {
            StatementKind::Declaration => Ok(Exit::Next),
            said => self.whole(p, playing, env, statement.line, said),
        }
    }
}
