//! Places of variables and of their elements, found without a change.
ghost use Rattle.std.specs.Prelude.{◌≡◌, [], IfSome, IsTrue, Ok};
ghost use Rattle.vb_heap.specs.Cells.{read_of};
ghost use Rattle.vb_meaning.specs.Meaning.{inside};
ghost use Rattle.vb_meaning.specs.Paths.{kind_of};
ghost use Rattle.vb_meaning.specs.Places as places;
ghost use Rattle.vb_meaning.specs.Reading.{values};
ghost use Rattle.vb_meaning.specs.Shown.{shown};
ghost use Rattle.vb_meaning.specs.declared.reached.Kind.TheVariants.{Array};
ghost use Rattle.vb_meaning.specs.Step.{Returns, raising};
ghost use Rattle.vb_syntax.specs.declared.program.expression.Expression.TheOpen.{Step-F};
ghost use Rattle.vb_syntax.specs.declared.program.expression.Step.{out-Step};
ghost use Rattle.vb_plain.specs.Lent.{IsElement, IsPlain, IsVariable, MayHold, Reaches, Yields};
ghost use Rattle.vb_objects.specs.Seen.{seen, host};

use std::alloc::Global;
use vb_heap::Place;
use vb_meaning::{World, bare};
use vb_objects::playing::Playing;
use vb_syntax::Intrinsics;
use vb_syntax::program::{Expression, Head, Named, Program, Slot, Step};
use vb_value::{List, Value, copy};
use vb_world::places::{element_place, indices_of, variable};
use vb_world::written::{is_written, written_value};

/// The variable that an expression is, if nothing stands behind its name.
pub fn variable_in(expression: &Expression) -> Option<Slot>
    ensures { IfSome result (λ slot. IsVariable expression.now slot) }
{
    let Expression::Path(path) = expression else {
        return None;
    };
    match (&path.head, path.steps.as_slice()) {
        (Head::Named(Named::Place(slot)), []) => Some(*slot),
        _ => None,
    }
}

/// The place of a variable, if there is one.
pub fn place_of(alloc: Global, world: &World, slot: Slot) -> Option<Place>
    ensures { IfSome result (λ place. places.variable slot (shown world.now) ≡ Returns place (shown world.now)) }
{
    match variable(alloc, world, slot) {
        Ok(place) => Some(place),
        Err(_) => None,
    }
}

/// Whether a value is neither an array nor an object.
fn is_plain(value: &Value) -> bool
    ensures { IsTrue result → IsPlain value.now }
{
    match value {
        Value::Arr(_) | Value::Obj(_) => false,
        Value::Empty | Value::Null | Value::Nothing => true,
        Value::Bool(_) | Value::Int(_) | Value::Long(_) | Value::Cur(_) | Value::Str(_) => true,
    }
}

/// What a place holds, where that is neither an array nor an object.
pub fn plain_at<'a>(world: &'a World, place: &Place) -> Option<&'a Value>
    ensures at { IfSome result (λ value. read_of place.now (shown world.now).store ≡ Ok value.now) }
    ensures plain { IfSome result (λ value. IsPlain value.now) }
{
    match world.heap.look(place) {
        Ok(value) if is_plain(value) => Some(value),
        _ => None,
    }
}

/// The value of an expression that is written down.
#[tactic(auto, using(crate::proofs::Lending::written_yields))]
pub fn written_in<I: Intrinsics>(
    alloc: Global,
    levels: u32,
    p: &Program,
    playing: &Playing<'_>,
    env: &I,
    expression: &Expression,
) -> Option<Value>
    ensures { IfSome result (λ found. Yields I (host I.asked I.answered) p.now levels expression.now
        (seen playing.now env.now) found) }
{
    let bare = bare(expression);
    if levels == 0 || !is_written(bare) {
        return None;
    }
    match written_value(alloc, p, &playing.world, bare) {
        Ok(value) => Some(value),
        Err(_) => None,
    }
}

/// The value of an expression that is a variable, if it is neither an array nor an object.
#[tactic(auto, using(crate::proofs::Lending::variable_yields))]
fn variable_value<I: Intrinsics>(
    alloc: Global,
    levels: u32,
    p: &Program,
    playing: &Playing<'_>,
    env: &I,
    expression: &Expression,
) -> Option<Value>
    requires { MayHold (shown playing.now.world).store }
    ensures { IfSome result (λ found. Yields I (host I.asked I.answered) p.now levels expression.now
        (seen playing.now env.now) found) }
{
    if levels == 0 {
        return None;
    }
    let slot = variable_in(expression)?;
    let place = place_of(alloc, &playing.world, slot)?;
    match copy(alloc, plain_at(&playing.world, &place)?) {
        Ok(value) => Some(value),
        Err(_) => None,
    }
}

/// The value of an index that is written down or that is a variable.
fn index_in<I: Intrinsics>(
    alloc: Global,
    levels: u32,
    p: &Program,
    playing: &Playing<'_>,
    env: &I,
    index: &Expression,
) -> Option<Value>
    requires { MayHold (shown playing.now.world).store }
    ensures { IfSome result (λ found. Yields I (host I.asked I.answered) p.now levels index.now
        (seen playing.now env.now) found) }
{
    match written_in(alloc, levels, p, playing, env, index) {
        Some(value) => Some(value),
        None => variable_value(alloc, levels, p, playing, env, index),
    }
}

/// The values of such indices.
fn indices_in<I: Intrinsics>(
    alloc: Global,
    levels: u32,
    p: &Program,
    playing: &Playing<'_>,
    env: &I,
    mut indices: &[Expression],
) -> Option<List<Value>>
    requires { MayHold (shown playing.now.world).store }
    ensures { IfSome result (λ found. values I (inside I (host I.asked I.answered) p.now levels) [] indices.entry.now
        (seen playing.now env.now) ≡ Returns found (seen playing.now env.now)) }
{
    let mut found = List::new(alloc);
    while let [index, others @ ..] = indices {
        let value = index_in(alloc, levels, p, playing, env, index)?;
        match found.push(value) {
            Ok(()) => indices = others,
            Err(_) => return None,
        }
    }
    Some(found)
}

/// The variable and what stands behind its name, if an expression is a path of one step behind a variable.
fn element_in(expression: &Expression) -> Option<(Slot, &Step)>
    ensures { IfSome result (λ parts. IsElement expression.now parts.0 parts.1.now) }
{
    let Expression::Path(path) = expression else {
        return None;
    };
    match (&path.head, path.steps.as_slice()) {
        (Head::Named(Named::Place(slot)), [step]) => Some((*slot, step)),
        _ => None,
    }
}

/// What stands in the parentheses of a step, if it is no member.
fn group_in(step: &Step) -> Option<&[Expression]>
    ensures { IfSome result (λ group. out-Step step.now ≡ Step-F.Group group.now) }
{
    match step {
        Step::Group(group) => Some(group.as_slice()),
        Step::Member(_) => None,
    }
}

/// Whether a value is an array.
fn is_array(value: &Value) -> bool
    ensures { IsTrue result → kind_of value.now ≡ Array }
{
    matches!(value, Value::Arr(_))
}

/// Indices as numbers, if they are.
fn numbers_of(alloc: Global, indices: &[Value]) -> Option<List<i32>>
    ensures { IfSome result (λ numbers. raising (places.indices_of indices.now) ≡ Ok numbers) }
{
    match indices_of(alloc, indices) {
        Ok(numbers) => Some(numbers),
        Err(_) => None,
    }
}

/// The place of an element of what a place holds.
fn place_within(place: &Place, numbers: List<i32>) -> Option<Place>
    ensures { IfSome result (λ found. found ≡ places.element_place place.now numbers) }
{
    match element_place(place, numbers) {
        Ok(place) => Some(place),
        Err(_) => None,
    }
}

/// The place of an element of a variable, if an expression is one with such indices.
#[tactic(auto, using(crate::proofs::Lending::element_reaches))]
fn place_of_element<I: Intrinsics>(
    alloc: Global,
    levels: u32,
    p: &Program,
    playing: &Playing<'_>,
    env: &I,
    expression: &Expression,
) -> Option<Place>
    requires { MayHold (shown playing.now.world).store }
    ensures { IfSome result (λ place. Reaches I (host I.asked I.answered) p.now levels expression.now
        (seen playing.now env.now) place) }
{
    let (slot, step) = element_in(expression)?;
    let indices = group_in(step)?;
    if levels == 0 {
        return None;
    }
    let place = place_of(alloc, &playing.world, slot)?;
    let found = indices_in(alloc, levels - 1, p, playing, env, indices)?;
    match playing.world.heap.look(&place) {
        Ok(whole) if is_array(whole) => {
            let numbers = numbers_of(alloc, found.as_slice())?;
            let element = place_within(&place, numbers)?;
            Some(element)
        }
        _ => None,
    }
}

/// The place of a variable, if an expression is one.
#[tactic(auto, using(crate::proofs::Lending::variable_reaches))]
fn place_of_variable<I: Intrinsics>(
    alloc: Global,
    levels: u32,
    p: &Program,
    playing: &Playing<'_>,
    env: &I,
    expression: &Expression,
) -> Option<Place>
    requires { MayHold (shown playing.now.world).store }
    ensures { IfSome result (λ place. Reaches I (host I.asked I.answered) p.now levels expression.now
        (seen playing.now env.now) place) }
{
    let slot = variable_in(expression)?;
    if levels == 0 {
        return None;
    }
    place_of(alloc, &playing.world, slot)
}

/// The place of an expression that is a variable, or an element of one whose indices are written down or are variables.
pub fn place_in<I: Intrinsics>(
    alloc: Global,
    levels: u32,
    p: &Program,
    playing: &Playing<'_>,
    env: &I,
    expression: &Expression,
) -> Option<Place>
    requires { MayHold (shown playing.now.world).store }
    ensures { IfSome result (λ place. Reaches I (host I.asked I.answered) p.now levels expression.now
        (seen playing.now env.now) place) }
{
    match place_of_variable(alloc, levels, p, playing, env, expression) {
        Some(place) => Some(place),
        None => place_of_element(alloc, levels, p, playing, env, expression),
    }
}

/// Whether an expression is a variable, or a path of one step behind one.
pub fn is_lendable(expression: &Expression) -> bool {
    variable_in(expression).is_some() || element_in(expression).is_some()
}
