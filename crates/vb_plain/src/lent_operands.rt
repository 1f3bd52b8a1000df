//! Operators whose operands are lent where they are variables or elements of them.
ghost use Rattle.std.specs.Prelude.{◌≡◌, ◌∷◌, List, IfSome, Ok};
ghost use Rattle.vb_meaning.specs.Expressions.{operations};
ghost use Rattle.vb_meaning.specs.Meaning.{value, inside};
ghost use Rattle.vb_meaning.specs.Shown.{shown};
ghost use Rattle.vb_meaning.specs.Step.{and_then, raising};
ghost use Rattle.vb_objects.specs.Seen.{seen, host};
ghost use Rattle.vb_ops.specs.Operators.{apply2_of};
ghost use Rattle.vb_plain.specs.Lent.{MayHold, OperatesAtOnce};

use crate::lent::{lent, may_hold, quiet};
use crate::lent_places::is_lendable;
use std::alloc::Global;
use vb_meaning::raise;
use vb_objects::playing::Playing;
use vb_ops::apply2;
use vb_syntax::Intrinsics;
use vb_syntax::program::{Expression, Operation, Program};
use vb_value::{Op2, Value};

/// What an operator gives of two values.
fn of_both(alloc: Global, operator: Op2, a: &Value, b: &Value) -> Option<Value>
    ensures { IfSome result (λ given. raising (apply2_of operator a.now b.now) ≡ Ok given) }
{
    match raise(apply2(alloc, operator, a, b)) {
        Ok(given) => Some(given),
        Err(_) => None,
    }
}

/// What it gives of a variable or an element on the left.
#[tactic(auto, using(crate::proofs::Lending::two_operands))]
fn of_left<I: Intrinsics>(
    alloc: Global,
    levels: u32,
    p: &Program,
    playing: &Playing<'_>,
    env: &I,
    first: &Expression,
    operation: &Operation,
) -> Option<Value>
    requires { MayHold (shown playing.now.world).store }
    ensures { IfSome result (λ given. OperatesAtOnce I (host I.asked I.answered) p.now levels first.now operation.now
        (seen playing.now env.now) given) }
{
    let left = lent(alloc, levels, p, playing, env, first)?;
    let right = quiet(alloc, levels, p, playing, env, &operation.operand)?;
    of_both(alloc, operation.operator, left, &right)
}

/// What it gives of a variable or an element on the right.
#[tactic(auto, using(crate::proofs::Lending::two_operands))]
fn of_right<I: Intrinsics>(
    alloc: Global,
    levels: u32,
    p: &Program,
    playing: &Playing<'_>,
    env: &I,
    first: &Expression,
    operation: &Operation,
) -> Option<Value>
    requires { MayHold (shown playing.now.world).store }
    ensures { IfSome result (λ given. OperatesAtOnce I (host I.asked I.answered) p.now levels first.now operation.now
        (seen playing.now env.now) given) }
{
    let right = lent(alloc, levels, p, playing, env, &operation.operand)?;
    let left = quiet(alloc, levels, p, playing, env, first)?;
    of_both(alloc, operation.operator, &left, right)
}

/// What it gives of two variables or elements.
#[tactic(auto, using(crate::proofs::Lending::two_operands))]
fn of_variables<I: Intrinsics>(
    alloc: Global,
    levels: u32,
    p: &Program,
    playing: &Playing<'_>,
    env: &I,
    first: &Expression,
    operation: &Operation,
) -> Option<Value>
    requires { MayHold (shown playing.now.world).store }
    ensures { IfSome result (λ given. OperatesAtOnce I (host I.asked I.answered) p.now levels first.now operation.now
        (seen playing.now env.now) given) }
{
    let left = lent(alloc, levels, p, playing, env, first)?;
    let right = lent(alloc, levels, p, playing, env, &operation.operand)?;
    of_both(alloc, operation.operator, left, right)
}

/// What it gives of two operands of which one is a variable or an element.
fn of_either<I: Intrinsics>(
    alloc: Global,
    levels: u32,
    p: &Program,
    playing: &Playing<'_>,
    env: &I,
    first: &Expression,
    operation: &Operation,
) -> Option<Value>
    requires { MayHold (shown playing.now.world).store }
    ensures { IfSome result (λ given. OperatesAtOnce I (host I.asked I.answered) p.now levels first.now operation.now
        (seen playing.now env.now) given) }
{
    match (is_lendable(first), is_lendable(&operation.operand)) {
        (true, true) => of_variables(alloc, levels, p, playing, env, first, operation),
        (true, false) => of_left(alloc, levels, p, playing, env, first, operation),
        (false, true) => of_right(alloc, levels, p, playing, env, first, operation),
        (false, false) => None,
    }
}

/// What an operator gives of operands of which one is a variable or an element of one, and the other one is so too or is
/// written down, if it gives a value.
pub fn operated_at_once<I: Intrinsics>(
    alloc: Global,
    levels: u32,
    p: &Program,
    playing: &mut Playing<'_>,
    env: &I,
    first: &Expression,
    operation: &Operation,
) -> Option<Value>
    ensures same { seen playing.new env.now ≡ seen playing.old env.now }
    ensures gives { IfSome result (λ given. OperatesAtOnce I (host I.asked I.answered) p.now levels first.now
        operation.now (seen playing.old env.now) given) }
{
    if !may_hold(&mut playing.world) {
        return None;
    }
    of_either(alloc, levels, p, playing, env, first, operation)
}
