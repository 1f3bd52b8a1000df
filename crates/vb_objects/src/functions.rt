//! Functions of the language that ask for objects.
ghost use Rattle.std.specs.Prelude.{◌≡◌, [], slice_get, unwrap_or};
ghost use Rattle.vb_meaning.specs.Reading as spec;
ghost use Rattle.vb_meaning.specs.Objects as objects;
ghost use Rattle.vb_meaning.specs.Step.{Ran, raising};
ghost use Rattle.vb_value.specs.Outcome.{Answers, Gives};
ghost use Rattle.vb_meaning.specs.declared.stop.Stop.TheVariants as stop;
ghost use Rattle.vb_meaning.specs.Shown.{shown};

use std::alloc::Global;
use vb_dict::new_dict;
use vb_meaning::{Stop, World, text_of};
use vb_syntax::program::Program;
use vb_value::{Copied, Memory, Text, Value, VbError, is_word};

/// The object of a class that the host has: a dictionary, for the name `Scripting.Dictionary`. Error 429 for any other.
fn created(world: &mut World, name: &Text) -> Result<Value, Stop>
    ensures { Ran (spec.created name.now (shown world.old)) result (shown world.new) }
{
    if !is_word(b"scripting.dictionary", name.as_slice()) {
        return Err(Stop::from(VbError::CANNOT_CREATE_OBJECT));
    }
    Ok(Value::Obj(new_dict(&mut world.heap)?))
}

/// `CreateObject` with its arguments, of which there has to be one.
pub fn create_object(alloc: Global, world: &mut World, arguments: &[Value]) -> Result<Value, Stop>
    ensures { Ran (spec.create_object arguments.now (shown world.old)) result (shown world.new) }
{
    match arguments {
        [name] => created(world, &text_of(alloc, name)?),
        _ => Err(Stop::from(VbError::WRONG_NUMBER)),
    }
}

/// The name of a class as it is declared, none where the program has no such class.
fn declared_name(alloc: Global, p: &Program, number: u32) -> Result<Text, Memory>
    ensures { Gives result (unwrap_or (slice_get p.now.classes number) []) }
{
    match p.classes.get(number as usize) {
        Some(name) => name.copy(),
        None => Ok(Text::new(alloc)),
    }
}

/// The name of the class of a value, none where it is no object.
fn class_name(alloc: Global, p: &Program, world: &World, value: &Value) -> Result<Text, Stop>
    ensures { Answers result stop.Memory (raising (objects.name_of_class p.now (shown world.now).store value.now)) }
{
    let Value::Obj(object) = value else {
        return Ok(Text::new(alloc));
    };
    match world.heap.class(*object)? {
        Some(number) => Ok(declared_name(alloc, p, number)?),
        None => Ok(Text::from_slice(alloc, &['D', 'i', 'c', 't', 'i', 'o', 'n', 'a', 'r', 'y'])?),
    }
}

/// `TypeName` with its arguments, of which there has to be one.
pub fn type_name(
    alloc: Global,
    p: &Program,
    world: &World,
    arguments: &[Value],
) -> Result<Value, Stop>
    ensures { Ran (spec.type_name_in p.now arguments.now (shown world.now)) result (shown world.now) }
{
    match arguments {
        [value] => {
            let class = class_name(alloc, p, world, value)?;
            Ok(Value::Str(vb_funcs::type_name(alloc, value, &class)?))
        }
        _ => Err(Stop::from(VbError::WRONG_NUMBER)),
    }
}
