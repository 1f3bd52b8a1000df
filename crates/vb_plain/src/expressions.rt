//! Expressions, and expressions as arguments.
ghost use Rattle.std.specs.Prelude.{◌≡◌};
ghost use Rattle.vb_syntax.specs.declared.program.expression.Expression.{out-Expression};
ghost use Rattle.vb_syntax.specs.declared.program.expression.Expression.TheOpen.{Expression-F};
ghost use Rattle.vb_meaning.specs.Accesses.{accesses};
ghost use Rattle.vb_meaning.specs.Expressions as spec;
ghost use Rattle.vb_meaning.specs.Meaning.{value, inside};
ghost use Rattle.vb_meaning.specs.Reading.{reached};
ghost use Rattle.vb_meaning.specs.Errors.{too_deep};
ghost use Rattle.vb_meaning.specs.State.{on_world};
ghost use Rattle.vb_meaning.specs.Step.{Ran, and_then, given, pure};
ghost use Rattle.vb_meaning.specs.declared.reached.Argument.TheVariants.{Value as OfValue};
ghost use Rattle.vb_ops.specs.Operators.{apply1_of};
ghost use Rattle.vb_plain.specs.Nests.{Evaluates, Passes, Enters};
ghost use Rattle.vb_objects.specs.Seen.{seen, host};

use crate::lent_operands::operated_at_once;
use crate::rules::Rules;
use std::alloc::Global;
use vb_meaning::{Argument, Reached, Stop, bare, raise};
use vb_objects::playing::Playing;
use vb_objects::world::depth_stop;
use vb_ops::apply1;
use vb_syntax::Intrinsics;
use vb_syntax::program::{Expression, Head, Operation, Path, Procedure, Program};
use vb_value::{List, ObjNo, Op1, Value};
use vb_world::accesses::only_groups;
use vb_world::paths::reached_value;
use vb_world::places::hold;
use vb_world::values::literal_value;
use vb_world::written::{is_written, written_value};

/// Whether a path may be a place: a name with no member behind it.
fn may_be_place(path: &Path) -> bool
    ensures { result ≡ spec.may_be_place path.now.head (accesses path.now.steps) }
{
    match path.head {
        Head::Named(_) => only_groups(path.steps.as_slice()),
        _ => false,
    }
}

/// An expression that is one construct too many. What is written down is none, and has its value.
pub fn refused_value<I: Intrinsics>(
    alloc: Global,
    p: &Program,
    playing: &Playing<'_>,
    env: &I,
    expression: &Expression,
) -> Result<Value, Stop>
    ensures { Ran (spec.written_or p.now (out-Expression (spec.bare expression.now)) (on_world too_deep)
        (seen playing.now env.now)) result (seen playing.now env.now) }
{
    let bare = bare(expression);
    if is_written(bare) {
        return written_value(alloc, p, &playing.world, bare);
    }
    Err(depth_stop(&playing.world))
}

/// The same as an argument.
pub fn refused_argument<I: Intrinsics>(
    alloc: Global,
    p: &Program,
    playing: &Playing<'_>,
    env: &I,
    expression: &Expression,
) -> Result<Argument, Stop>
    ensures { Ran (and_then (spec.written_or p.now (out-Expression (spec.bare expression.now)) (on_world too_deep)
        (seen playing.now env.now)) (λ found. pure (OfValue found))) result (seen playing.now env.now) }
{
    let value = refused_value(alloc, p, playing, env, expression)?;
    Ok(Argument::Value(value))
}

impl<
    I: Intrinsics,
    V: Fn(Global, u32, &Program, &mut Playing<'_>, &mut I, &Expression) -> Result<Value, Stop>,
    A: Fn(Global, u32, &Program, &mut Playing<'_>, &mut I, &Expression) -> Result<Argument, Stop>,
    S,
    C,
    T,
    N: Fn(
        Global,
        u32,
        &Program,
        &mut Playing<'_>,
        &mut I,
        Option<(ObjNo, u32)>,
        &Procedure,
        List<Argument>,
    ) -> Result<Value, Stop>,
> Rules<I, V, A, S, C, T, N> {
    /// An operator before its operand.
    fn prefixed(
        &self,
        p: &Program,
        playing: &mut Playing<'_>,
        env: &mut I,
        operator: Op1,
        operand: &Expression,
    ) -> Result<Value, Stop>
        requires { Evaluates I (host I.asked I.answered) self.now.levels (V.pre self.now.value)
            (V.post self.now.value) }
        ensures { Ran (and_then (value I (host I.asked I.answered) p.now self.now.levels operand.now
            (seen playing.old env.old)) (λ value. given (apply1_of operator value)))
            result (seen playing.new env.new) }
    {
        let value = self.value(p, playing, env, operand)?;
        raise(apply1(operator, &value))
    }

    /// Operators of one level, from left to right.
    fn chain(
        &self,
        p: &Program,
        playing: &mut Playing<'_>,
        env: &mut I,
        first: &Expression,
        rest: &[Operation],
    ) -> Result<Value, Stop>
        requires { Evaluates I (host I.asked I.answered) self.now.levels (V.pre self.now.value)
            (V.post self.now.value) }
        ensures { Ran (spec.yields I (inside I (host I.asked I.answered) p.now self.now.levels) (Expression-F.Chain
            first.now rest.now) (seen playing.old env.old)) result (seen playing.new env.new) }
    {
        if let [operation, others @ ..] = rest {
            if let Some(left) = operated_at_once(
                self.alloc,
                self.levels,
                p,
                playing,
                env,
                first,
                operation,
            ) {
                return self.operations(p, playing, env, left, others);
            }
        }
        let left = self.value(p, playing, env, first)?;
        self.operations(p, playing, env, left, rest)
    }

    /// What an expression yields.
    fn yields(
        &self,
        p: &Program,
        playing: &mut Playing<'_>,
        env: &mut I,
        expression: &Expression,
    ) -> Result<Value, Stop>
        requires evaluates { Evaluates I (host I.asked I.answered) self.now.levels (V.pre self.now.value)
            (V.post self.now.value) }
        requires passes { Passes I (host I.asked I.answered) self.now.levels (A.pre self.now.argument)
            (A.post self.now.argument) }
        requires enters { Enters I (host I.asked I.answered) self.now.levels (N.pre self.now.enter)
            (N.post self.now.enter) }
        ensures { Ran (spec.yields I (inside I (host I.asked I.answered) p.now self.now.levels) (out-Expression
            expression.now) (seen playing.old env.old)) result (seen playing.new env.new) }
    {
        match expression {
            Expression::Literal(literal) => Ok(literal_value(literal)?),
            Expression::Nothing => Ok(Value::Nothing),
            Expression::New { class } => self.new_of(p, playing, env, *class),
            Expression::Path(path) => self.path_value(p, playing, env, path),
            Expression::Parenthesis(inside) => self.value(p, playing, env, inside.get()),
            Expression::Negative(operand) => self.prefixed(
                p,
                playing,
                env,
                Op1::Minus,
                operand.get(),
            ),
            Expression::Not(operand) => self.prefixed(p, playing, env, Op1::Not, operand.get()),
            Expression::Chain { first, rest } => self.chain(
                p,
                playing,
                env,
                first.get(),
                rest.as_slice(),
            ),
        }
    }

    /// The value of an expression, which is held to the end of the statement.
    #[tactic(auto, unfolding(vb_meaning::specs::Expressions::value_of))]
    pub fn value_of(
        &self,
        p: &Program,
        playing: &mut Playing<'_>,
        env: &mut I,
        expression: &Expression,
    ) -> Result<Value, Stop>
        requires evaluates { Evaluates I (host I.asked I.answered) self.now.levels (V.pre self.now.value)
            (V.post self.now.value) }
        requires passes { Passes I (host I.asked I.answered) self.now.levels (A.pre self.now.argument)
            (A.post self.now.argument) }
        requires enters { Enters I (host I.asked I.answered) self.now.levels (N.pre self.now.enter)
            (N.post self.now.enter) }
        ensures { Ran (spec.value_of I (inside I (host I.asked I.answered) p.now self.now.levels) expression.now
            (seen playing.old env.old)) result (seen playing.new env.new) }
    {
        let value = self.yields(p, playing, env, expression)?;
        hold(&mut playing.world, &value)?;
        Ok(value)
    }

    /// The value of an expression. What is written down, and parentheses, take no level.
    pub fn valued(
        &self,
        p: &Program,
        playing: &mut Playing<'_>,
        env: &mut I,
        expression: &Expression,
    ) -> Result<Value, Stop>
        requires evaluates { Evaluates I (host I.asked I.answered) self.now.levels (V.pre self.now.value)
            (V.post self.now.value) }
        requires passes { Passes I (host I.asked I.answered) self.now.levels (A.pre self.now.argument)
            (A.post self.now.argument) }
        requires enters { Enters I (host I.asked I.answered) self.now.levels (N.pre self.now.enter)
            (N.post self.now.enter) }
        ensures { Ran (spec.valued I (inside I (host I.asked I.answered) p.now self.now.levels) expression.now (seen
            playing.old env.old)) result (seen playing.new env.new) }
    {
        let bare = bare(expression);
        if is_written(bare) {
            return written_value(self.alloc, p, &playing.world, bare);
        }
        self.value_of(p, playing, env, bare)
    }

    /// What is reached as an argument: a place where it may be one, else its value, which is held.
    fn argument_from(
        &self,
        playing: &mut Playing<'_>,
        env: &I,
        p: &Program,
        may_be_place: bool,
        found: Reached,
    ) -> Result<Argument, Stop>
        ensures { Ran (spec.path_argument I (inside I (host I.asked I.answered) p.now self.now.levels) may_be_place found
            (seen playing.old env.now)) result (seen playing.new env.now) }
    {
        match found {
            Reached::Place(place) if may_be_place => Ok(Argument::Place(place)),
            found => {
                let value = reached_value(self.alloc, &playing.world, found)?;
                hold(&mut playing.world, &value)?;
                Ok(Argument::Value(value))
            }
        }
    }

    /// A path as an argument.
    fn path_argument(
        &self,
        p: &Program,
        playing: &mut Playing<'_>,
        env: &mut I,
        path: &Path,
    ) -> Result<Argument, Stop>
        requires evaluates { Evaluates I (host I.asked I.answered) self.now.levels (V.pre self.now.value)
            (V.post self.now.value) }
        requires passes { Passes I (host I.asked I.answered) self.now.levels (A.pre self.now.argument)
            (A.post self.now.argument) }
        requires enters { Enters I (host I.asked I.answered) self.now.levels (N.pre self.now.enter)
            (N.post self.now.enter) }
        ensures { Ran (and_then (reached I (inside I (host I.asked I.answered) p.now self.now.levels) path.now
            (seen playing.old env.old)) (spec.path_argument I (inside I (host I.asked I.answered) p.now self.now.levels)
            (spec.may_be_place path.now.head (accesses path.now.steps)))) result (seen playing.new env.new) }
    {
        let found = self.reached(p, playing, env, path)?;
        self.argument_from(playing, env, p, may_be_place(path), found)
    }

    /// An expression as an argument: a path may be a place, anything else is a value.
    #[tactic(auto, unfolding(vb_meaning::specs::Expressions::argument_of))]
    pub fn argument_of(
        &self,
        p: &Program,
        playing: &mut Playing<'_>,
        env: &mut I,
        expression: &Expression,
    ) -> Result<Argument, Stop>
        requires evaluates { Evaluates I (host I.asked I.answered) self.now.levels (V.pre self.now.value)
            (V.post self.now.value) }
        requires passes { Passes I (host I.asked I.answered) self.now.levels (A.pre self.now.argument)
            (A.post self.now.argument) }
        requires enters { Enters I (host I.asked I.answered) self.now.levels (N.pre self.now.enter)
            (N.post self.now.enter) }
        ensures { Ran (spec.argument_of I (inside I (host I.asked I.answered) p.now self.now.levels) expression.now
            (seen playing.old env.old)) result (seen playing.new env.new) }
    {
        match expression {
            Expression::Path(path) => self.path_argument(p, playing, env, path),
            other => Ok(Argument::Value(self.valued(p, playing, env, other)?)),
        }
    }
}
