//! Values of variables and of their elements where they lie, which are lent to what changes nothing.
ghost use Rattle.std.specs.Prelude.{◌≡◌, IfSome, IsTrue};
ghost use Rattle.vb_meaning.specs.Shown.{shown};
ghost use Rattle.vb_meaning.specs.Values.{copied};
ghost use Rattle.vb_plain.specs.Lent.{MayHold, Yields};
ghost use Rattle.vb_value.specs.declared.value.Value.TheViews.{Arr};
ghost use Rattle.vb_objects.specs.Seen.{seen, host};

use crate::lent_arrays::array_at;
use crate::lent_places::{place_in, plain_at, written_in};
use std::alloc::Global;
use vb_meaning::World;
use vb_objects::playing::Playing;
use vb_syntax::Intrinsics;
use vb_syntax::program::{Expression, Program};
use vb_value::{Array, Value, copy};

/// Whether a value may be held in which no object occurs. That changes nothing.
#[tactic(auto, using(crate::proofs::Lending::held_none))]
pub fn may_hold(world: &mut World) -> bool
    ensures same { shown world.new ≡ shown world.old }
    ensures holds { IsTrue result → MayHold (shown world.old).store }
{
    match world.heap.hold(&Value::Empty) {
        Ok(()) => true,
        Err(_) => false,
    }
}

/// The value of an expression that is a variable or an element of one, where it lies, if it is neither an array nor an
/// object.
#[tactic(auto, using(crate::proofs::Lending::plain_yields))]
pub fn lent<'a, I: Intrinsics>(
    alloc: Global,
    levels: u32,
    p: &Program,
    playing: &'a Playing<'_>,
    env: &I,
    expression: &Expression,
) -> Option<&'a Value>
    requires { MayHold (shown playing.now.world).store }
    ensures { IfSome result (λ found. Yields I (host I.asked I.answered) p.now levels expression.now
        (seen playing.entry.now env.now) found.now) }
{
    let place = place_in(alloc, levels, p, playing, env, expression)?;
    plain_at(&playing.world, &place)
}

/// The array that an expression is which is a variable or an element of one, where it lies, if no object occurs in it.
pub fn lent_array<'a, I: Intrinsics>(
    alloc: Global,
    levels: u32,
    p: &Program,
    playing: &'a Playing<'_>,
    env: &I,
    expression: &Expression,
) -> Option<&'a Array>
    requires { MayHold (shown playing.now.world).store }
    ensures { IfSome result (λ array. Yields I (host I.asked I.answered) p.now levels expression.now
        (seen playing.entry.now env.now) (copied (Arr array.now))) }
{
    let place = place_in(alloc, levels, p, playing, env, expression)?;
    array_at(&playing.world, &place)
}

/// The value of an expression that is a variable or an element of one, if it is neither an array nor an object.
fn read_in<I: Intrinsics>(
    alloc: Global,
    levels: u32,
    p: &Program,
    playing: &Playing<'_>,
    env: &I,
    expression: &Expression,
) -> Option<Value>
    requires { MayHold (shown playing.now.world).store }
    ensures { IfSome result (λ found. Yields I (host I.asked I.answered) p.now levels expression.now
        (seen playing.now env.now) found) }
{
    match copy(alloc, lent(alloc, levels, p, playing, env, expression)?) {
        Ok(value) => Some(value),
        Err(_) => None,
    }
}

/// The value of an expression that is written down, or that is a variable or an element of one, where nothing changes.
pub fn quiet<I: Intrinsics>(
    alloc: Global,
    levels: u32,
    p: &Program,
    playing: &Playing<'_>,
    env: &I,
    expression: &Expression,
) -> Option<Value>
    requires { MayHold (shown playing.now.world).store }
    ensures { IfSome result (λ found. Yields I (host I.asked I.answered) p.now levels expression.now
        (seen playing.now env.now) found) }
{
    match written_in(alloc, levels, p, playing, env, expression) {
        Some(value) => Some(value),
        None => read_in(alloc, levels, p, playing, env, expression),
    }
}
