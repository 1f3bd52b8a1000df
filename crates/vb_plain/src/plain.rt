//! The rules joined: each hands itself on, one level down, to what is inside.
ghost use Rattle.vb_meaning.specs.Meaning.{value, argument, assign, call, statement, enter};
ghost use Rattle.vb_meaning.specs.Step.{Ran};
ghost use Rattle.vb_objects.specs.Seen.{seen, host};

use crate::executing::refused;
use crate::expressions::{refused_argument, refused_value};
use crate::rules::Rules;
use std::alloc::Global;
use std::marker::PhantomData;
use vb_meaning::{Argument, Assigned, Exit, Stop};
use vb_objects::playing::Playing;
use vb_objects::world::depth_stop;
use vb_syntax::Intrinsics;
use vb_syntax::program::{Expression, Path, Procedure, Program, Statement};
use vb_value::{List, ObjNo, Value};

/// The value of an expression, where so many more constructs may be begun.
#[cycle(down)]
#[tactic(auto, using(vb_meaning::proofs::Down::value_none, vb_meaning::proofs::Down::value_more))]
pub fn value<I: Intrinsics>(
    alloc: Global,
    levels: u32,
    p: &Program,
    playing: &mut Playing<'_>,
    env: &mut I,
    expression: &Expression,
) -> Result<Value, Stop>
    ensures { Ran (value I (host I.asked I.answered) p.now levels expression.now (seen playing.old env.old)) result
        (seen playing.new env.new) }
{
    if levels == 0 {
        return refused_value(alloc, p, playing, env, expression);
    }
    Rules {
        env: PhantomData,
        alloc,
        levels: levels - 1,
        value: value::<I>,
        argument: argument::<I>,
        assign: assign::<I>,
        call: call::<I>,
        statement: statement::<I>,
        enter: enter::<I>,
    }
    .valued(p, playing, env, expression)
}

/// An expression as an argument, where so many more constructs may be begun.
#[cycle(down)]
#[tactic(auto, using(vb_meaning::proofs::Down::argument_none, vb_meaning::proofs::Down::argument_more))]
pub fn argument<I: Intrinsics>(
    alloc: Global,
    levels: u32,
    p: &Program,
    playing: &mut Playing<'_>,
    env: &mut I,
    expression: &Expression,
) -> Result<Argument, Stop>
    ensures { Ran (argument I (host I.asked I.answered) p.now levels expression.now (seen playing.old env.old)) result
        (seen playing.new env.new) }
{
    if levels == 0 {
        return refused_argument(alloc, p, playing, env, expression);
    }
    Rules {
        env: PhantomData,
        alloc,
        levels: levels - 1,
        value: value::<I>,
        argument: argument::<I>,
        assign: assign::<I>,
        call: call::<I>,
        statement: statement::<I>,
        enter: enter::<I>,
    }
    .argument_of(p, playing, env, expression)
}

/// Assigns a value to a path, where so many more constructs may be begun.
#[cycle(down)]
#[tactic(auto, using(vb_meaning::proofs::Down::assign_none, vb_meaning::proofs::Down::assign_more))]
pub fn assign<I: Intrinsics>(
    alloc: Global,
    levels: u32,
    p: &Program,
    playing: &mut Playing<'_>,
    env: &mut I,
    how: Assigned,
    path: &Path,
    found: Value,
) -> Result<(), Stop>
    ensures { Ran (assign I (host I.asked I.answered) p.now levels how path.now found (seen playing.old env.old)) result
        (seen playing.new env.new) }
{
    if levels == 0 {
        return Err(depth_stop(&playing.world));
    }
    Rules {
        env: PhantomData,
        alloc,
        levels: levels - 1,
        value: value::<I>,
        argument: argument::<I>,
        assign: assign::<I>,
        call: call::<I>,
        statement: statement::<I>,
        enter: enter::<I>,
    }
    .assign_to(p, playing, env, how, path, found)
}

/// Calls a path as a statement does, where so many more constructs may be begun.
#[cycle(down)]
#[tactic(auto, using(vb_meaning::proofs::Down::call_none, vb_meaning::proofs::Down::call_more))]
pub fn call<I: Intrinsics>(
    alloc: Global,
    levels: u32,
    p: &Program,
    playing: &mut Playing<'_>,
    env: &mut I,
    path: &Path,
) -> Result<(), Stop>
    ensures { Ran (call I (host I.asked I.answered) p.now levels path.now (seen playing.old env.old)) result
        (seen playing.new env.new) }
{
    if levels == 0 {
        return Err(depth_stop(&playing.world));
    }
    Rules {
        env: PhantomData,
        alloc,
        levels: levels - 1,
        value: value::<I>,
        argument: argument::<I>,
        assign: assign::<I>,
        call: call::<I>,
        statement: statement::<I>,
        enter: enter::<I>,
    }
    .call_of(p, playing, env, path)
}

/// Executes a statement, where so many more constructs may be begun.
#[cycle(down)]
#[tactic(auto, using(vb_meaning::proofs::Down::statement_none, vb_meaning::proofs::Down::statement_more))]
pub fn statement<I: Intrinsics>(
    alloc: Global,
    levels: u32,
    p: &Program,
    playing: &mut Playing<'_>,
    env: &mut I,
    found: &Statement,
) -> Result<Exit, Stop>
    ensures { Ran (statement I (host I.asked I.answered) p.now levels found.now (seen playing.old env.old)) result
        (seen playing.new env.new) }
{
    if levels == 0 {
        return refused(alloc, playing, env, found);
    }
    Rules {
        env: PhantomData,
        alloc,
        levels: levels - 1,
        value: value::<I>,
        argument: argument::<I>,
        assign: assign::<I>,
        call: call::<I>,
        statement: statement::<I>,
        enter: enter::<I>,
    }
    .statement_of(p, playing, env, found)
}

/// Enters a procedure, where so many more constructs may be begun.
#[cycle(down)]
#[tactic(auto, using(vb_meaning::proofs::Down::enter_none, vb_meaning::proofs::Down::enter_more))]
pub fn enter<I: Intrinsics>(
    alloc: Global,
    levels: u32,
    p: &Program,
    playing: &mut Playing<'_>,
    env: &mut I,
    owner: Option<(ObjNo, u32)>,
    procedure: &Procedure,
    arguments: List<Argument>,
) -> Result<Value, Stop>
    ensures { Ran (enter I (host I.asked I.answered) p.now levels owner procedure.now arguments
        (seen playing.old env.old)) result (seen playing.new env.new) }
{
    if levels == 0 {
        return Err(depth_stop(&playing.world));
    }
    Rules {
        env: PhantomData,
        alloc,
        levels: levels - 1,
        value: value::<I>,
        argument: argument::<I>,
        assign: assign::<I>,
        call: call::<I>,
        statement: statement::<I>,
        enter: enter::<I>,
    }
    .enter_of(p, playing, env, owner, procedure, arguments)
}
