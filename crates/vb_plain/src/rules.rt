//! The rules of each construct. What is inside a construct is done by functions that are handed in, so that each rule is
//! proved by itself.
ghost use Rattle.std.specs.Prelude.{ℕ, ◌≡◌, [], ◌∷◌, ◌++◌};
ghost use Rattle.vb_meaning.specs.Step.{Ran};
ghost use Rattle.vb_meaning.specs.Meaning.{value, argument, enter, inside};
ghost use Rattle.vb_meaning.specs.Reading as reading;
ghost use Rattle.vb_meaning.specs.Expressions as spec;
ghost use Rattle.vb_objects.specs.Seen.{seen, host};
ghost use Rattle.vb_plain.specs.Nests.{Evaluates, Passes, Enters};

use std::alloc::Global;
use std::marker::PhantomData;
use vb_meaning::{Argument, Stop, raise};
use vb_objects::playing::Playing;
use vb_ops::apply2;
use vb_syntax::Intrinsics;
use vb_syntax::program::{Expression, Operation, Procedure, Program};
use vb_value::{List, ObjNo, Value};

/// The functions that do what is inside a construct, where `levels` more may be begun.
#[derive(Clone, Copy)]
pub struct Rules<I, V, A, S, C, T, N> {
    /// The type of the environment.
    pub env: PhantomData<I>,
    /// What memory is taken from.
    pub alloc: Global,
    /// How many more constructs may be begun, at most 2,000.
    pub levels: u32,
    /// Evaluates an expression.
    pub value: V,
    /// Makes an argument of an expression.
    pub argument: A,
    /// Assigns a value to a path.
    pub assign: S,
    /// Calls a path, as a statement does.
    pub call: C,
    /// Executes a statement.
    pub statement: T,
    /// Enters a procedure.
    pub enter: N,
}

impl<
    I: Intrinsics,
    V: Fn(Global, u32, &Program, &mut Playing<'_>, &mut I, &Expression) -> Result<Value, Stop>,
    A,
    S,
    C,
    T,
    N,
> Rules<I, V, A, S, C, T, N> {
    /// The value of an expression inside.
    pub fn value(
        &self,
        p: &Program,
        playing: &mut Playing<'_>,
        env: &mut I,
        expression: &Expression,
    ) -> Result<Value, Stop>
        requires { Evaluates I (host I.asked I.answered) self.now.levels (V.pre self.now.value) (V.post self.now.value) }
        ensures { Ran (value I (host I.asked I.answered) p.now self.now.levels expression.now (seen playing.old env.old))
            result (seen playing.new env.new) }
    {
        (self.value)(self.alloc, self.levels, p, playing, env, expression)
    }

    /// The values of expressions, from left to right.
    pub fn values(
        &self,
        p: &Program,
        playing: &mut Playing<'_>,
        env: &mut I,
        expressions: &[Expression],
    ) -> Result<List<Value>, Stop>
        requires { Evaluates I (host I.asked I.answered) self.now.levels (V.pre self.now.value) (V.post self.now.value) }
        ensures { Ran (reading.values I (inside I (host I.asked I.answered) p.now self.now.levels) [] expressions.now
            (seen playing.old env.old)) result (seen playing.new env.new) }
    {
        self.values_behind(p, playing, env, List::new(self.alloc), expressions)
    }

    /// The values of expressions, from left to right, behind those so far.
    pub fn values_behind(
        &self,
        p: &Program,
        playing: &mut Playing<'_>,
        env: &mut I,
        mut values: List<Value>,
        mut expressions: &[Expression],
    ) -> Result<List<Value>, Stop>
        requires { Evaluates I (host I.asked I.answered) self.now.levels (V.pre self.now.value) (V.post self.now.value) }
        ensures { Ran (reading.values I (inside I (host I.asked I.answered) p.now self.now.levels) values
            expressions.entry.now (seen playing.old env.old)) result (seen playing.new env.new) }
    {
        while let [first, others @ ..] = expressions {
            values.push(self.value(p, playing, env, first)?)?;
            expressions = others;
        }
        Ok(values)
    }

    /// Operators of one level, from left to right.
    pub fn operations(
        &self,
        p: &Program,
        playing: &mut Playing<'_>,
        env: &mut I,
        mut left: Value,
        mut operations: &[Operation],
    ) -> Result<Value, Stop>
        requires { Evaluates I (host I.asked I.answered) self.now.levels (V.pre self.now.value) (V.post self.now.value) }
        ensures { Ran (spec.operations I (inside I (host I.asked I.answered) p.now self.now.levels) left
            operations.entry.now (seen playing.old env.old)) result (seen playing.new env.new) }
    {
        while let [first, others @ ..] = operations {
            let right = self.value(p, playing, env, &first.operand)?;
            left = raise(apply2(self.alloc, first.operator, &left, &right))?;
            operations = others;
        }
        Ok(left)
    }
}

impl<
    I: Intrinsics,
    V,
    A: Fn(Global, u32, &Program, &mut Playing<'_>, &mut I, &Expression) -> Result<Argument, Stop>,
    S,
    C,
    T,
    N,
> Rules<I, V, A, S, C, T, N> {
    /// An expression inside as an argument.
    fn argument(
        &self,
        p: &Program,
        playing: &mut Playing<'_>,
        env: &mut I,
        expression: &Expression,
    ) -> Result<Argument, Stop>
        requires { Passes I (host I.asked I.answered) self.now.levels (A.pre self.now.argument) (A.post self.now.argument) }
        ensures { Ran (argument I (host I.asked I.answered) p.now self.now.levels expression.now
            (seen playing.old env.old)) result (seen playing.new env.new) }
    {
        (self.argument)(self.alloc, self.levels, p, playing, env, expression)
    }

    /// Expressions as arguments, from left to right.
    pub fn arguments(
        &self,
        p: &Program,
        playing: &mut Playing<'_>,
        env: &mut I,
        mut expressions: &[Expression],
    ) -> Result<List<Argument>, Stop>
        requires { Passes I (host I.asked I.answered) self.now.levels (A.pre self.now.argument) (A.post self.now.argument) }
        ensures { Ran (reading.arguments I (inside I (host I.asked I.answered) p.now self.now.levels) []
            expressions.entry.now (seen playing.old env.old)) result (seen playing.new env.new) }
    {
        let mut arguments = List::new(self.alloc);
        while let [first, others @ ..] = expressions {
            arguments.push(self.argument(p, playing, env, first)?)?;
            expressions = others;
        }
        Ok(arguments)
    }
}

impl<
    I: Intrinsics,
    V,
    A,
    S,
    C,
    T,
    N: Fn(
        Global,
        u32,
        &Program,
        &mut Playing<'_>,
        &mut I,
        Option<(ObjNo, u32)>,
        &Procedure,
        List<Argument>,
    ) -> Result<Value, Stop>,
> Rules<I, V, A, S, C, T, N> {
    /// A procedure with its arguments, one level down.
    pub fn enter(
        &self,
        p: &Program,
        playing: &mut Playing<'_>,
        env: &mut I,
        owner: Option<(ObjNo, u32)>,
        procedure: &Procedure,
        arguments: List<Argument>,
    ) -> Result<Value, Stop>
        requires { Enters I (host I.asked I.answered) self.now.levels (N.pre self.now.enter) (N.post self.now.enter) }
        ensures { Ran (enter I (host I.asked I.answered) p.now self.now.levels owner procedure.now arguments
            (seen playing.old env.old)) result (seen playing.new env.new) }
    {
        (self.enter)(
            self.alloc,
            self.levels,
            p,
            playing,
            env,
            owner,
            procedure,
            arguments,
        )
    }
}
