//! Texts of variables that assignments `x = x & ..` make longer where they lie, where the rest changes nothing.
ghost use Rattle.std.specs.Prelude.{◌≡◌, ◌∷◌, ◌++◌, List, ℕ, IfSome, IsTrue, MatchOption, Ok};
ghost use Rattle.vb_heap.specs.Cells.{read_of};
ghost use Rattle.vb_meaning.specs.declared.reached.Assigned.TheVariants.{Let};
ghost use Rattle.vb_meaning.specs.Expressions.{operations};
ghost use Rattle.vb_meaning.specs.Meaning.{inside};
ghost use Rattle.vb_meaning.specs.Places.{cell_place, store_place};
ghost use Rattle.vb_meaning.specs.Shown.{shown};
ghost use Rattle.vb_meaning.specs.Statements.{assignment};
ghost use Rattle.vb_meaning.specs.Step.{Ran, Returns};
ghost use Rattle.vb_objects.specs.Seen.{seen, host};
ghost use Rattle.vb_ops.specs.Joining.{text_of};
ghost use Rattle.vb_plain.specs.Growing as spec;
ghost use Rattle.vb_plain.specs.Lent.{MayHold};
ghost use Rattle.vb_syntax.specs.declared.program.expression.Operation.{Operation};
ghost use Rattle.vb_value.specs.Arguments.{checked};
ghost use Rattle.vb_value.specs.declared.value.Value.{Str};

use crate::lent::{may_hold, quiet};
use crate::lent_places::{place_of, variable_in};
use std::alloc::Global;
use vb_heap::{CellNo, Place};
use vb_meaning::{Assigned, Exit, Stop, World};
use vb_objects::playing::Playing;
use vb_syntax::Intrinsics;
use vb_syntax::program::{Expression, Head, Named, Operation, Path, Program, Slot};
use vb_value::{MOST_CHARACTERS, Op2, Text, Value, check, is_null, to_str};

/// Whether two are the same place.
fn is_same(a: Slot, b: Slot) -> bool
    ensures { IsTrue result → a ≡ b }
{
    match (a, b) {
        (Slot::Page(a), Slot::Page(b)) => a == b,
        (Slot::Local(a), Slot::Local(b)) => a == b,
        (Slot::Field(a), Slot::Field(b)) => a == b,
        (Slot::Result, Slot::Result) => true,
        _ => false,
    }
}

/// The variable of `x = x & ..`, and the operations behind it.
#[tactic(auto, using(crate::proofs::Longer::lengthens))]
fn growing<'a>(target: &Path, assigned: &'a Expression) -> Option<(Slot, &'a [Operation])>
    ensures { IfSome result (λ found. spec.Lengthens target.now assigned.now found.0 found.1.now) }
{
    let (Head::Named(Named::Place(slot)), []) = (&target.head, target.steps.as_slice()) else {
        return None;
    };
    let Expression::Chain { first, rest } = assigned else {
        return None;
    };
    let [
        Operation {
            operator: Op2::Join,
            ..
        },
        ..
    ] = rest.as_slice()
    else {
        return None;
    };
    if is_same(variable_in(first.get())?, *slot) {
        Some((*slot, rest.as_slice()))
    } else {
        None
    }
}

/// The text that a place holds.
fn text_at<'a>(world: &'a World, place: &Place) -> Option<&'a Text>
    ensures { IfSome result (λ text. read_of place.now (shown world.now).store ≡ Ok (Str text.now)) }
{
    match world.heap.look(place) {
        Ok(Value::Str(text)) => Some(text),
        _ => None,
    }
}

/// The text of a value as `&` joins it.
fn characters(alloc: Global, value: &Value) -> Option<Text>
    ensures checked { IfSome result (λ _. checked value.now ≡ Ok tt) }
    ensures text { IfSome result (λ text. text_of value.now ≡ Ok text) }
{
    if check(value).is_err() {
        return None;
    }
    if is_null(value) {
        return Some(Text::new(alloc));
    }
    match to_str(alloc, value) {
        Ok(text) => Some(text),
        Err(_) => None,
    }
}

/// What stands behind a text once one operation more has joined its operand to it, if nothing changes.
#[tactic(auto, using(crate::proofs::Longer::joins_more))]
fn joined_once<I: Intrinsics>(
    alloc: Global,
    levels: u32,
    p: &Program,
    playing: &Playing<'_>,
    env: &I,
    held: &Text,
    more: Text,
    operation: &Operation,
) -> Option<Text>
    requires { MayHold (shown playing.now.world).store }
    ensures { IfSome result (λ longer. (others : List Operation)
        → operations I (inside I (host I.asked I.answered) p.now levels) (Str (held.now ++ more)) (operation.now ∷ others)
        (seen playing.now env.now)
        ≡ operations I (inside I (host I.asked I.answered) p.now levels) (Str (held.now ++ longer)) others
        (seen playing.now env.now)) }
{
    let Op2::Join = operation.operator else {
        return None;
    };
    let value = quiet(alloc, levels, p, playing, env, &operation.operand)?;
    let text = characters(alloc, &value)?;
    let count = held.len().saturating_add(more.len());
    if MOST_CHARACTERS < count.saturating_add(text.len()) {
        return None;
    }
    let mut longer = more;
    match longer.append(text) {
        Ok(()) => Some(longer),
        Err(_) => None,
    }
}

/// What operations join to a text, if nothing changes.
fn joined<I: Intrinsics>(
    alloc: Global,
    levels: u32,
    p: &Program,
    playing: &Playing<'_>,
    env: &I,
    held: &Text,
    mut rest: &[Operation],
) -> Option<Text>
    requires { MayHold (shown playing.now.world).store }
    ensures { IfSome result (λ more. operations I (inside I (host I.asked I.answered) p.now levels) (Str held.now)
        rest.entry.now (seen playing.now env.now) ≡ Returns (Str (held.now ++ more)) (seen playing.now env.now)) }
{
    let mut more = Text::new(alloc);
    while let [first, others @ ..] = rest {
        more = joined_once(alloc, levels, p, playing, env, held, more, first)?;
        rest = others;
    }
    Some(more)
}

/// The cell of the variable of `x = x & ..`, and what comes to stand behind its text.
#[tactic(auto, using(crate::proofs::Longer::grows))]
fn added<I: Intrinsics>(
    alloc: Global,
    levels: u32,
    p: &Program,
    playing: &Playing<'_>,
    env: &I,
    target: &Path,
    assigned: &Expression,
) -> Option<(CellNo, Text)>
    requires { MayHold (shown playing.now.world).store }
    ensures { IfSome result (λ found. spec.Grows I (host I.asked I.answered) p.now levels target.now assigned.now
        (seen playing.now env.now) found.0 found.1) }
{
    if levels < 2 {
        return None;
    }
    let (slot, rest) = growing(target, assigned)?;
    let place = place_of(alloc, &playing.world, slot)?;
    if !place.steps.is_empty() {
        return None;
    }
    let held = text_at(&playing.world, &place)?;
    let more = joined(alloc, levels - 1, p, playing, env, held, rest)?;
    Some((place.cell, more))
}

/// Puts more behind the text that a cell holds, as the longer text is stored.
#[tactic(auto, using(crate::proofs::Longer::stores))]
fn append(world: &mut World, cell: CellNo, more: &Text) -> Result<(), Stop>
    ensures { (text : List ℕ) → read_of (cell_place cell) (shown world.old).store ≡ Ok (Str text)
        → Ran (store_place (cell_place cell) (Str (text ++ more.now)) (shown world.old)) result (shown world.new) }
{
    Ok(world.heap.append(cell, more.as_slice())?)
}

/// The assignment `x = x & ..` to a variable that holds a text, if the rest changes nothing.
#[tactic(auto, using(crate::proofs::Longer::assigning))]
fn appended<I: Intrinsics>(
    alloc: Global,
    levels: u32,
    p: &Program,
    playing: &mut Playing<'_>,
    env: &I,
    target: &Path,
    assigned: &Expression,
) -> Option<Result<Exit, Stop>>
    requires { MayHold (shown playing.old.world).store }
    ensures { MatchOption result (seen playing.new env.now ≡ seen playing.old env.now) (λ gave.
        Ran (assignment I (inside I (host I.asked I.answered) p.now levels) Let target.now assigned.now
        (seen playing.old env.now)) gave (seen playing.new env.now)) }
{
    let (cell, more) = added(alloc, levels, p, playing, env, target, assigned)?;
    match append(&mut playing.world, cell, &more) {
        Ok(()) => Some(Ok(Exit::Next)),
        Err(why) => Some(Err(why)),
    }
}

/// An assignment `x = x & ..` to a variable that holds a text, if the rest changes nothing: its text grows where it lies.
/// Nothing is changed where none is answered.
pub fn lengthened<I: Intrinsics>(
    alloc: Global,
    levels: u32,
    p: &Program,
    playing: &mut Playing<'_>,
    env: &I,
    how: Assigned,
    target: &Path,
    assigned: &Expression,
) -> Option<Result<Exit, Stop>>
    ensures { MatchOption result (seen playing.new env.now ≡ seen playing.old env.now) (λ gave.
        Ran (assignment I (inside I (host I.asked I.answered) p.now levels) how target.now assigned.now
        (seen playing.old env.now)) gave (seen playing.new env.now)) }
{
    let Assigned::Let = how else {
        return None;
    };
    growing(target, assigned)?;
    if !may_hold(&mut playing.world) {
        return None;
    }
    appended(alloc, levels, p, playing, env, target, assigned)
}
