//! How objects end.
ghost use Rattle.std.specs.Prelude.{◌≡◌, IfOk};
ghost use Rattle.std.specs.Option.{option_copied};
ghost use Rattle.vb_meaning.specs.Objects as objects;
ghost use Rattle.vb_meaning.specs.Releases as spec;
ghost use Rattle.vb_meaning.specs.Stored as stored;
ghost use Rattle.vb_meaning.specs.Shown.{shown};

use crate::classes::class_at;
use vb_meaning::{Raised, World};
use vb_syntax::program::{Procedure, Program};
use vb_value::{Memory, ObjNo};

/// The number of the class of an object, if it is there and has one.
pub fn class_number(world: &World, object: ObjNo) -> Option<u32>
    ensures { result ≡ stored.class_number object.0 (shown world.now).store }
{
    match world.heap.class(object) {
        Ok(class) => class,
        Err(_) => None,
    }
}

/// The number of the Class_Terminate of a class, if it has one.
pub fn terminator_number(p: &Program, class: Option<u32>) -> Option<u32>
    ensures { objects.procedure_at (objects.class_at p.now class) result
        ≡ spec.terminator_in (objects.class_at p.now class) }
{
    class_at(p, class?)?.terminate
}

/// The Class_Terminate of a class, if it has one.
pub fn terminator<'a>(p: &'a Program, class: Option<u32>) -> Option<&'a Procedure>
    ensures { option_copied result ≡ spec.terminator_in (objects.class_at p.now class) }
{
    let number = terminator_number(p, class)?;
    class_at(p, class?)?.procedures.get(number as usize)
}

/// Ends an object whose terminator has run. Err is again as it was.
pub fn end_object(
    world: &mut World,
    object: ObjNo,
    err: Raised,
    terminates: bool,
) -> Result<(), Memory>
    ensures { IfOk result (λ _. shown world.new
        ≡ spec.ended object.0 (record (shown world.old) { err = err; terminates = terminates }) (shown world.old)) }
{
    if world.finished == u32::MAX {
        return Err(Memory);
    }
    world.heap.finish_object(object);
    world.err = err;
    world.terminates = terminates;
    world.finished += 1;
    Ok(())
}
