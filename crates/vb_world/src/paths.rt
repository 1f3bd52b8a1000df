//! What the accesses of a path come to.
ghost use Rattle.std.specs.Prelude.{◌≡◌};
ghost use Rattle.vb_meaning.specs.declared.reached.Kind.TheVariants as kind;
ghost use Rattle.vb_meaning.specs.declared.reached.Reached.TheVariants.{Value as AtValue};
ghost use Rattle.vb_meaning.specs.Places.{held_at};
ghost use Rattle.vb_meaning.specs.Values.{copied};
ghost use Rattle.vb_meaning.specs.Assigning as assigning;
ghost use Rattle.vb_meaning.specs.Dictionaries as dictionaries;
ghost use Rattle.vb_meaning.specs.Paths as spec;
ghost use Rattle.vb_meaning.specs.Step.{Ran, and_then, pure};
ghost use Rattle.vb_meaning.specs.Shown.{shown};

use crate::copying::copied;
use crate::dictionaries::{item_by, put_by};
use crate::places::{element_place, hold, indices_of, read_place, store_place};
use std::alloc::Global;
use vb_heap::{Place, value_in};
use vb_meaning::{Kind, Reached, Stop, World};
use vb_value::{List, ObjNo, Value, VbError};

/// Whether an object has items: error 91 where it has ended, and 438 where it is no dictionary.
fn has_items(world: &World, object: ObjNo) -> Result<(), VbError>
    ensures { result ≡ dictionaries.has_items object (shown world.now).store }
{
    match world.heap.class(object)? {
        None => Ok(()),
        Some(_) => Err(VbError::UNSUPPORTED),
    }
}

/// An item of an object, which has to be a dictionary.
fn item_in(alloc: Global, world: &mut World, object: ObjNo, keys: &[Value]) -> Result<Value, Stop>
    ensures { Ran (spec.item_in object keys.now (shown world.old)) result (shown world.new) }
{
    has_items(world, object)?;
    item_by(alloc, world, object, keys)
}

/// Puts a value into an item of an object, which has to be a dictionary.
fn put_in_object(
    alloc: Global,
    world: &mut World,
    object: ObjNo,
    keys: &[Value],
    value: Value,
) -> Result<(), Stop>
    ensures { Ran (assigning.put_in_object object keys.now value (shown world.old)) result (shown world.new) }
{
    has_items(world, object)?;
    put_by(alloc, world, object, keys, value)
}

/// What is reached, before an index behind it is evaluated: a value is held.
pub fn hold_reached(world: &mut World, reached: &Reached) -> Result<(), Stop>
    ensures { Ran (spec.hold_reached reached.now (shown world.old)) result (shown world.new) }
{
    match reached {
        Reached::Place(_) => Ok(()),
        Reached::Value(value) => hold(world, value),
    }
}

/// The value that is reached.
#[tactic(auto, unfolding(vb_meaning::specs::Paths::reached_value))]
pub fn reached_value(alloc: Global, world: &World, reached: Reached) -> Result<Value, Stop>
    ensures { Ran (spec.reached_value reached (shown world.now)) result (shown world.now) }
{
    match reached {
        Reached::Place(place) => read_place(alloc, world, &place),
        Reached::Value(value) => Ok(value),
    }
}

/// What a value is that is asked for an element.
fn kind_of(value: &Value) -> Kind
    ensures { result ≡ spec.kind_of value.now }
{
    match value {
        Value::Arr(_) => Kind::Array,
        Value::Obj(object) => Kind::Object(*object),
        Value::Nothing => Kind::Nothing,
        _ => Kind::Scalar,
    }
}

/// A copy of an element of an array that is no place.
fn array_element(
    alloc: Global,
    world: &World,
    value: &Value,
    indices: &[Value],
) -> Result<Reached, Stop>
    ensures { Ran (and_then (spec.array_element value.now indices.now (shown world.now))
        (λ found. pure (AtValue (copied found)))) result (shown world.now) }
{
    let mut steps = List::new(alloc);
    steps.push(indices_of(alloc, indices)?)?;
    let item = value_in(value, steps.as_slice())?;
    Ok(Reached::Value(copied(alloc, item)?))
}

/// A copy of an item of an object.
fn object_item(
    alloc: Global,
    world: &mut World,
    object: ObjNo,
    keys: &[Value],
) -> Result<Reached, Stop>
    ensures { Ran (and_then (spec.item_in object keys.now (shown world.old)) (λ found. pure (AtValue (copied found))))
        result (shown world.new) }
{
    let item = item_in(alloc, world, object, keys)?;
    Ok(Reached::Value(copied(alloc, &item)?))
}

/// An element of what is reached.
#[tactic(auto, unfolding(vb_meaning::specs::Paths::element))]
pub fn element(
    alloc: Global,
    world: &mut World,
    from: Reached,
    indices: &[Value],
) -> Result<Reached, Stop>
    ensures { Ran (spec.element from indices.now (shown world.old)) result (shown world.new) }
{
    match from {
        Reached::Place(place) => element_of_place(alloc, world, place, indices),
        Reached::Value(value) => element_of_value(alloc, world, &value, indices),
    }
}

/// A copy of an element of a value that is no place.
fn element_of_value(
    alloc: Global,
    world: &mut World,
    value: &Value,
    indices: &[Value],
) -> Result<Reached, Stop>
    ensures { Ran (spec.element_of_value value.now indices.now (shown world.old)) result (shown world.new) }
{
    match kind_of(value) {
        Kind::Array => array_element(alloc, world, value, indices),
        Kind::Object(object) => object_item(alloc, world, object, indices),
        Kind::Nothing => Err(Stop::from(VbError::OBJECT_NOT_SET)),
        Kind::Scalar => Err(Stop::from(VbError::TYPE_MISMATCH)),
    }
}

/// What the value at a place is that is asked for an element.
fn kind_at(world: &World, place: &Place) -> Result<Kind, Stop>
    ensures { Ran (and_then (held_at place.now (shown world.now)) (λ whole. pure (spec.kind_of whole))) result
        (shown world.now) }
{
    Ok(kind_of(world.heap.look(place)?))
}

/// The element of an array at a place, if it is there.
fn element_at(
    alloc: Global,
    world: &World,
    place: &Place,
    indices: &[Value],
) -> Result<Reached, Stop>
    ensures { Ran (spec.element_of_place place.now indices.now kind.Array (shown world.now)) result (shown world.now) }
{
    let place = element_place(place, indices_of(alloc, indices)?)?;
    world.heap.look(&place)?;
    Ok(Reached::Place(place))
}

/// An element of what a place holds.
fn element_of_place(
    alloc: Global,
    world: &mut World,
    place: Place,
    indices: &[Value],
) -> Result<Reached, Stop>
    ensures { Ran (and_then (held_at place (shown world.old))
        (λ whole. spec.element_of_place place indices.now (spec.kind_of whole)))
        result (shown world.new) }
{
    match kind_at(world, &place)? {
        Kind::Array => element_at(alloc, world, &place, indices),
        Kind::Object(object) => object_item(alloc, world, object, indices),
        Kind::Nothing => Err(Stop::from(VbError::OBJECT_NOT_SET)),
        Kind::Scalar => Err(Stop::from(VbError::TYPE_MISMATCH)),
    }
}

/// Puts a value into an element of what a place holds.
fn store_in_place(
    alloc: Global,
    world: &mut World,
    place: &Place,
    indices: &[Value],
    value: Value,
) -> Result<(), Stop>
    ensures { Ran (and_then (held_at place.now (shown world.old))
        (λ whole. assigning.store_in_place place.now indices.now value (spec.kind_of whole))) result (shown world.new) }
{
    match kind_at(world, place)? {
        Kind::Array => {
            let place = element_place(place, indices_of(alloc, indices)?)?;
            store_place(world, &place, value)
        }
        Kind::Object(object) => put_in_object(alloc, world, object, indices, value),
        Kind::Nothing => Err(Stop::from(VbError::OBJECT_NOT_SET)),
        Kind::Scalar => Err(Stop::from(VbError::TYPE_MISMATCH)),
    }
}

/// Puts a value into an element of what is reached.
#[tactic(auto, unfolding(vb_meaning::specs::Assigning::store_element))]
pub fn store_element(
    alloc: Global,
    world: &mut World,
    into: Reached,
    indices: &[Value],
    value: Value,
) -> Result<(), Stop>
    ensures { Ran (assigning.store_element into indices.now value (shown world.old)) result (shown world.new) }
{
    match into {
        Reached::Place(place) => store_in_place(alloc, world, &place, indices, value),
        Reached::Value(whole) => match kind_of(&whole) {
            Kind::Object(object) => put_in_object(alloc, world, object, indices, value),
            Kind::Nothing => Err(Stop::from(VbError::OBJECT_NOT_SET)),
            Kind::Array | Kind::Scalar => Err(Stop::from(VbError::ILLEGAL_ASSIGNMENT)),
        },
    }
}
