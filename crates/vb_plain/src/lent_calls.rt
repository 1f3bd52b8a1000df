//! Calls of functions of the language with arguments that are variables and values that are written down: no variable's
//! value is copied. Where one doesn't give a value so, none is answered, and the call is made as any other.
ghost use Rattle.std.specs.Prelude.{◌≡◌, ◌∷◌, [], IfSome, Ok};
ghost use Rattle.vb_funcs.specs.Functions.{call_func_of};
ghost use Rattle.vb_meaning.specs.Shown.{shown};
ghost use Rattle.vb_meaning.specs.Step.{raising};
ghost use Rattle.vb_plain.specs.Lent.{MayHold, GivesAtOnce};
ghost use Rattle.vb_strings.specs.Functions.{call_string_of};
ghost use Rattle.vb_value.specs.declared.function.StrFn.TheVariants.{InStr};
ghost use Rattle.vb_objects.specs.Seen.{seen, host};

use crate::lent::{lent, lent_array, may_hold, quiet};
use crate::lent_arrays::{of_array, of_array_and};
use crate::lent_texts::{of_one, of_three, of_two, place_behind};
use std::alloc::Global;
use std::slice::from_ref;
use vb_funcs::call_func;
use vb_meaning::raise;
use vb_objects::playing::Playing;
use vb_syntax::Intrinsics;
use vb_syntax::program::{Expression, Program};
use vb_value::{PlainFn, StrFn, Value};

/// What a function on texts gives of one argument.
#[tactic(auto, using(crate::proofs::Lending::one_argument))]
fn string_of_one<I: Intrinsics>(
    alloc: Global,
    levels: u32,
    p: &Program,
    playing: &Playing<'_>,
    env: &I,
    found: StrFn,
    argument: &Expression,
) -> Option<Value>
    requires { MayHold (shown playing.now.world).store }
    ensures { IfSome result (λ given. GivesAtOnce I (host I.asked I.answered) p.now levels (call_string_of found)
        (argument.now ∷ []) (seen playing.now env.now) given) }
{
    of_one(
        alloc,
        found,
        lent(alloc, levels, p, playing, env, argument)?,
    )
}

/// What a function on texts gives of two arguments.
#[tactic(auto, using(crate::proofs::Lending::two_arguments))]
fn string_of_two<I: Intrinsics>(
    alloc: Global,
    levels: u32,
    p: &Program,
    playing: &Playing<'_>,
    env: &I,
    found: StrFn,
    argument: &Expression,
    second: &Expression,
) -> Option<Value>
    requires { MayHold (shown playing.now.world).store }
    ensures { IfSome result (λ given. GivesAtOnce I (host I.asked I.answered) p.now levels (call_string_of found)
        (argument.now ∷ second.now ∷ []) (seen playing.now env.now) given) }
{
    let value = lent(alloc, levels, p, playing, env, argument)?;
    let second = quiet(alloc, levels, p, playing, env, second)?;
    of_two(alloc, found, value, &second)
}

/// What a function on texts gives of three arguments.
#[tactic(auto, using(crate::proofs::Lending::three_arguments))]
fn string_of_three<I: Intrinsics>(
    alloc: Global,
    levels: u32,
    p: &Program,
    playing: &Playing<'_>,
    env: &I,
    found: StrFn,
    argument: &Expression,
    second: &Expression,
    third: &Expression,
) -> Option<Value>
    requires { MayHold (shown playing.now.world).store }
    ensures { IfSome result (λ given. GivesAtOnce I (host I.asked I.answered) p.now levels (call_string_of found)
        (argument.now ∷ second.now ∷ third.now ∷ []) (seen playing.now env.now) given) }
{
    let value = lent(alloc, levels, p, playing, env, argument)?;
    let second = quiet(alloc, levels, p, playing, env, second)?;
    let third = quiet(alloc, levels, p, playing, env, third)?;
    of_three(alloc, found, value, &second, &third)
}

/// `InStr` from a place on.
#[tactic(auto, using(crate::proofs::Lending::three_arguments))]
fn place_of_three<I: Intrinsics>(
    alloc: Global,
    levels: u32,
    p: &Program,
    playing: &Playing<'_>,
    env: &I,
    from: &Expression,
    argument: &Expression,
    sought: &Expression,
) -> Option<Value>
    requires { MayHold (shown playing.now.world).store }
    ensures { IfSome result (λ given. GivesAtOnce I (host I.asked I.answered) p.now levels (call_string_of InStr)
        (from.now ∷ argument.now ∷ sought.now ∷ []) (seen playing.now env.now) given) }
{
    let from = quiet(alloc, levels, p, playing, env, from)?;
    let value = lent(alloc, levels, p, playing, env, argument)?;
    let sought = quiet(alloc, levels, p, playing, env, sought)?;
    place_behind(alloc, &from, value, &sought)
}

/// What a function on texts gives of three arguments: a part of the first, or a place in the second.
fn string_of_either<I: Intrinsics>(
    alloc: Global,
    levels: u32,
    p: &Program,
    playing: &Playing<'_>,
    env: &I,
    found: StrFn,
    argument: &Expression,
    second: &Expression,
    third: &Expression,
) -> Option<Value>
    requires { MayHold (shown playing.now.world).store }
    ensures { IfSome result (λ given. GivesAtOnce I (host I.asked I.answered) p.now levels (call_string_of found)
        (argument.now ∷ second.now ∷ third.now ∷ []) (seen playing.now env.now) given) }
{
    match found {
        StrFn::InStr => place_of_three(alloc, levels, p, playing, env, argument, second, third),
        _ => string_of_three(
            alloc, levels, p, playing, env, found, argument, second, third,
        ),
    }
}

/// What a function on texts gives of its arguments, if that changes nothing.
pub fn string_at_once<I: Intrinsics>(
    alloc: Global,
    levels: u32,
    p: &Program,
    playing: &mut Playing<'_>,
    env: &I,
    found: StrFn,
    supplied: &[Expression],
) -> Option<Value>
    ensures same { seen playing.new env.now ≡ seen playing.old env.now }
    ensures gives { IfSome result (λ given. GivesAtOnce I (host I.asked I.answered) p.now levels (call_string_of found)
        supplied.now (seen playing.old env.now) given) }
{
    if !may_hold(&mut playing.world) {
        return None;
    }
    match supplied {
        [argument] => string_of_one(alloc, levels, p, playing, env, found, argument),
        [argument, second] => {
            string_of_two(alloc, levels, p, playing, env, found, argument, second)
        }
        [argument, second, third] => string_of_either(
            alloc, levels, p, playing, env, found, argument, second, third,
        ),
        _ => None,
    }
}

/// What another function of the language gives of a value.
fn of_value(alloc: Global, found: PlainFn, value: &Value) -> Option<Value>
    ensures { IfSome result (λ given. raising (call_func_of found (value.now ∷ [])) ≡ Ok given) }
{
    match raise(call_func(alloc, found, from_ref(value))) {
        Ok(given) => Some(given),
        Err(_) => None,
    }
}

/// What it gives of an argument that is neither an array nor an object.
#[tactic(auto, using(crate::proofs::Lending::one_argument))]
fn plain_of_value<I: Intrinsics>(
    alloc: Global,
    levels: u32,
    p: &Program,
    playing: &Playing<'_>,
    env: &I,
    found: PlainFn,
    argument: &Expression,
) -> Option<Value>
    requires { MayHold (shown playing.now.world).store }
    ensures { IfSome result (λ given. GivesAtOnce I (host I.asked I.answered) p.now levels (call_func_of found)
        (argument.now ∷ []) (seen playing.now env.now) given) }
{
    of_value(
        alloc,
        found,
        lent(alloc, levels, p, playing, env, argument)?,
    )
}

/// What it gives of an array.
#[tactic(auto, using(crate::proofs::Lending::one_argument))]
fn plain_of_array<I: Intrinsics>(
    alloc: Global,
    levels: u32,
    p: &Program,
    playing: &Playing<'_>,
    env: &I,
    found: PlainFn,
    argument: &Expression,
) -> Option<Value>
    requires { MayHold (shown playing.now.world).store }
    ensures { IfSome result (λ given. GivesAtOnce I (host I.asked I.answered) p.now levels (call_func_of found)
        (argument.now ∷ []) (seen playing.now env.now) given) }
{
    of_array(
        alloc,
        found,
        lent_array(alloc, levels, p, playing, env, argument)?,
    )
}

/// What it gives of one argument.
fn plain_of_one<I: Intrinsics>(
    alloc: Global,
    levels: u32,
    p: &Program,
    playing: &Playing<'_>,
    env: &I,
    found: PlainFn,
    argument: &Expression,
) -> Option<Value>
    requires { MayHold (shown playing.now.world).store }
    ensures { IfSome result (λ given. GivesAtOnce I (host I.asked I.answered) p.now levels (call_func_of found)
        (argument.now ∷ []) (seen playing.now env.now) given) }
{
    match plain_of_value(alloc, levels, p, playing, env, found, argument) {
        Some(given) => Some(given),
        None => plain_of_array(alloc, levels, p, playing, env, found, argument),
    }
}

/// What it gives of an array and one argument more.
#[tactic(auto, using(crate::proofs::Lending::two_arguments))]
fn plain_of_two<I: Intrinsics>(
    alloc: Global,
    levels: u32,
    p: &Program,
    playing: &Playing<'_>,
    env: &I,
    found: PlainFn,
    argument: &Expression,
    second: &Expression,
) -> Option<Value>
    requires { MayHold (shown playing.now.world).store }
    ensures { IfSome result (λ given. GivesAtOnce I (host I.asked I.answered) p.now levels (call_func_of found)
        (argument.now ∷ second.now ∷ []) (seen playing.now env.now) given) }
{
    let array = lent_array(alloc, levels, p, playing, env, argument)?;
    let second = quiet(alloc, levels, p, playing, env, second)?;
    of_array_and(alloc, found, array, &second)
}

/// What another function of the language gives of its arguments, if that changes nothing.
pub fn plain_at_once<I: Intrinsics>(
    alloc: Global,
    levels: u32,
    p: &Program,
    playing: &mut Playing<'_>,
    env: &I,
    found: PlainFn,
    supplied: &[Expression],
) -> Option<Value>
    ensures same { seen playing.new env.now ≡ seen playing.old env.now }
    ensures gives { IfSome result (λ given. GivesAtOnce I (host I.asked I.answered) p.now levels (call_func_of found)
        supplied.now (seen playing.old env.now) given) }
{
    if !may_hold(&mut playing.world) {
        return None;
    }
    match supplied {
        [argument] => plain_of_one(alloc, levels, p, playing, env, found, argument),
        [argument, second] => {
            plain_of_two(alloc, levels, p, playing, env, found, argument, second)
        }
        _ => None,
    }
}
