//! Letters made small or capital, and characters from the last to the first.
ghost use Rattle.std.specs.Prelude.{◌≡◌, reverse};
ghost use Rattle.vb_value.specs.Errors.{reported};
ghost use Rattle.vb_value.specs.Outcome.{Answers, Gives};
ghost use Rattle.vb_strings.specs.Letters as spec;
ghost use Rattle.vb_strings.specs.Results.{bounded};

use crate::texts::as_text;
use std::alloc::Global;
use vb_value::{Copied, List, Memory, Text, Value, VbFault, fold, is_null, limited, the_argument};

/// `LCase`.
pub fn lcase(alloc: Global, args: &[Value]) -> Result<Value, VbFault>
    ensures { Answers result VbFault.Memory (reported (bounded (spec.lcase_of args.now))) }
{
    let s = the_argument(args)?;
    if is_null(s) {
        return Ok(Value::Null);
    }
    let text = as_text(alloc, s)?;
    Ok(limited(fold(alloc, text.text())?)?)
}

/// `UCase`.
pub fn ucase(alloc: Global, args: &[Value]) -> Result<Value, VbFault>
    ensures { Answers result VbFault.Memory (reported (bounded (spec.ucase_of args.now))) }
{
    let s = the_argument(args)?;
    if is_null(s) {
        return Ok(Value::Null);
    }
    let text = as_text(alloc, s)?;
    Ok(limited(raised(alloc, text.text())?)?)
}

/// The text with each of its letters a to z made capital.
fn raised(alloc: Global, text: &Text) -> Result<Text, Memory>
    ensures { Gives result (spec.raised text.now) }
{
    let characters = text.as_slice().iter();
    Ok(List::from_vec(characters.map(|c| c.to_ascii_uppercase()).collect(alloc)?))
}

/// `StrReverse`.
pub fn str_reverse(alloc: Global, args: &[Value]) -> Result<Value, VbFault>
    ensures { Answers result VbFault.Memory (reported (bounded (spec.str_reverse_of args.now))) }
{
    let s = the_argument(args)?;
    let text = as_text(alloc, s)?;
    Ok(limited(reversed(alloc, text.text())?)?)
}

/// The characters from the last to the first.
fn reversed(alloc: Global, text: &Text) -> Result<Text, Memory>
    ensures { Gives result (reverse text.now) }
{
    let mut characters = text.copy()?.into_vec();
    characters.reverse();
    Ok(List::from_vec(characters))
}
