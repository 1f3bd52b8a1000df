//! Dictionaries in a script.
ghost use Rattle.std.specs.Prelude.{◌≡◌, [], ◌∷◌};
ghost use Rattle.vb_syntax.specs.declared.program.name.DictionaryMember.TheVariants as word;
ghost use Rattle.vb_meaning.specs.Dictionaries as spec;
ghost use Rattle.vb_meaning.specs.Step.{Ran};
ghost use Rattle.vb_meaning.specs.Shown.{shown};

use std::alloc::Global;
use vb_meaning::{Stop, World, long_of, raise};
use vb_syntax::program::DictionaryMember;
use vb_value::{ObjNo, Value, VbError, copy};

/// The item of a key, which is added with Empty where it is absent.
#[tactic(auto, unfolding(vb_meaning::specs::Dictionaries::item))]
fn item(alloc: Global, world: &mut World, object: ObjNo, key: &Value) -> Result<Value, Stop>
    ensures { Ran (spec.item object key.now (shown world.old)) result (shown world.new) }
{
    Ok(vb_dict::get(alloc, &mut world.heap, object, key)?)
}

/// The item of the one key that there has to be.
pub fn item_by(
    alloc: Global,
    world: &mut World,
    object: ObjNo,
    keys: &[Value],
) -> Result<Value, Stop>
    ensures { Ran (spec.item_by object keys.now (shown world.old)) result (shown world.new) }
{
    match keys {
        [key] => item(alloc, world, object, key),
        _ => Err(Stop::from(VbError::WRONG_NUMBER)),
    }
}

/// Puts an item under a key.
#[tactic(auto, unfolding(vb_meaning::specs::Dictionaries::put_item))]
fn put_item(
    alloc: Global,
    world: &mut World,
    object: ObjNo,
    key: &Value,
    value: Value,
) -> Result<(), Stop>
    ensures { Ran (spec.put_item object key.now value (shown world.old)) result (shown world.new) }
{
    Ok(vb_dict::put(alloc, &mut world.heap, object, key, value)?)
}

/// Puts an item under the one key that there has to be.
pub fn put_by(
    alloc: Global,
    world: &mut World,
    object: ObjNo,
    keys: &[Value],
    value: Value,
) -> Result<(), Stop>
    ensures { Ran (spec.put_by object keys.now value (shown world.old)) result (shown world.new) }
{
    match keys {
        [key] => put_item(alloc, world, object, key, value),
        _ => Err(Stop::from(VbError::WRONG_NUMBER)),
    }
}

/// Adds an entry.
#[tactic(auto, unfolding(vb_meaning::specs::Dictionaries::member))]
fn add_entry(
    alloc: Global,
    world: &mut World,
    object: ObjNo,
    key: &Value,
    item: &Value,
) -> Result<Value, Stop>
    ensures { Ran (spec.member object word.Add (key.now ∷ item.now ∷ []) (shown world.old)) result (shown world.new) }
{
    let item = copy(alloc, item)?;
    vb_dict::add(alloc, &mut world.heap, object, key, item)?;
    Ok(Value::Empty)
}

/// A member without arguments that is read or called.
#[tactic(auto, unfolding(vb_meaning::specs::Dictionaries::member))]
fn whole(
    alloc: Global,
    world: &mut World,
    object: ObjNo,
    member: DictionaryMember,
) -> Result<Value, Stop>
    ensures { Ran (spec.member object member [] (shown world.old)) result (shown world.new) }
{
    match member {
        DictionaryMember::RemoveAll => {
            vb_dict::remove_all(&mut world.heap, object)?;
            Ok(Value::Empty)
        }
        DictionaryMember::Keys => raise(vb_dict::keys(alloc, &world.heap, object)),
        DictionaryMember::Items => raise(vb_dict::items(alloc, &world.heap, object)),
        DictionaryMember::Count => Ok(Value::Long(vb_dict::count(&world.heap, object)?)),
        DictionaryMember::CompareMode => Ok(Value::Long(vb_dict::mode(&world.heap, object)?)),
        _ => Err(Stop::from(VbError::WRONG_NUMBER)),
    }
}

/// A member with a key that is read or called.
#[tactic(auto, unfolding(vb_meaning::specs::Dictionaries::member))]
fn keyed(
    alloc: Global,
    world: &mut World,
    object: ObjNo,
    member: DictionaryMember,
    key: &Value,
) -> Result<Value, Stop>
    ensures { Ran (spec.member object member (key.now ∷ []) (shown world.old)) result (shown world.new) }
{
    match member {
        DictionaryMember::Item => item(alloc, world, object, key),
        DictionaryMember::Exists => Ok(Value::Bool(vb_dict::exists(&world.heap, object, key)?)),
        DictionaryMember::Remove => {
            vb_dict::remove(&mut world.heap, object, key)?;
            Ok(Value::Empty)
        }
        _ => Err(Stop::from(VbError::WRONG_NUMBER)),
    }
}

/// A member that is read or called, with its arguments.
#[tactic(auto, unfolding(vb_meaning::specs::Dictionaries::member))]
pub fn member(
    alloc: Global,
    world: &mut World,
    object: ObjNo,
    member: DictionaryMember,
    arguments: &[Value],
) -> Result<Value, Stop>
    ensures { Ran (spec.member object member arguments.now (shown world.old)) result (shown world.new) }
{
    match arguments {
        [] => whole(alloc, world, object, member),
        [key] => keyed(alloc, world, object, member, key),
        [key, item] => match member {
            DictionaryMember::Add => add_entry(alloc, world, object, key, item),
            _ => Err(Stop::from(VbError::WRONG_NUMBER)),
        },
        _ => Err(Stop::from(VbError::WRONG_NUMBER)),
    }
}

/// A member by what its name says. Error 438 for a name that says none.
pub fn named_member(
    alloc: Global,
    world: &mut World,
    object: ObjNo,
    found: Option<DictionaryMember>,
    arguments: &[Value],
) -> Result<Value, Stop>
    ensures { Ran (spec.named_member object found arguments.now (shown world.old)) result (shown world.new) }
{
    match found {
        Some(found) => member(alloc, world, object, found, arguments),
        None => Err(Stop::from(VbError::UNSUPPORTED)),
    }
}

/// Sets CompareMode.
fn set_mode(world: &mut World, object: ObjNo, value: &Value) -> Result<(), Stop>
    ensures { Ran (spec.set_mode object value.now (shown world.old)) result (shown world.new) }
{
    let mode = long_of(value)?;
    Ok(vb_dict::set_mode(&mut world.heap, object, mode)?)
}

/// A member that is assigned to. Error 438 for any but an item and CompareMode.
pub fn set_member(
    alloc: Global,
    world: &mut World,
    object: ObjNo,
    found: Option<DictionaryMember>,
    arguments: &[Value],
    value: Value,
) -> Result<(), Stop>
    ensures { Ran (spec.set_member object found arguments.now value (shown world.old)) result (shown world.new) }
{
    match found {
        Some(DictionaryMember::Item) => put_by(alloc, world, object, arguments, value),
        Some(DictionaryMember::CompareMode) => match arguments {
            [] => set_mode(world, object, &value),
            _ => Err(Stop::from(VbError::WRONG_NUMBER)),
        },
        _ => Err(Stop::from(VbError::UNSUPPORTED)),
    }
}
