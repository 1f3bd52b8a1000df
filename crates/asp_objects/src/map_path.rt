//! The path that Server.MapPath gives.
ghost use Rattle.std.specs.Prelude.{◌≡◌};
ghost use Rattle.vb_value.specs.Outcome.{Adds, Answers, Gives};
ghost use Rattle.asp_text.specs.Path.{begins_with_slash};
ghost use Rattle.asp_objects.specs.MapPath as spec;

use asp_text::{PathStop, normal_path};
use std::alloc::Global;
use vb_value::{Memory, Text};

fn push_escaped(text: &mut Text, character: char) -> Result<(), Memory>
    ensures { Adds result text.old text.new (spec.escaped_character character) }
{
    if character == '%' {
        return text.append_slice(&['%', '2', '5']);
    }
    text.push(character)
}

/// The path as requests write it.
fn escaped(alloc: Global, path: &[char]) -> Result<Text, Memory>
    ensures { Gives result (spec.escaped path.now) }
{
    let mut text = Text::with_capacity(alloc, path.len())?;
    for character in path {
        push_escaped(&mut text, *character)?;
    }
    Ok(text)
}

fn is_from_root(path: &[char]) -> bool
    ensures { result ≡ begins_with_slash path.now }
{
    match path {
        [first, ..] => *first == '/',
        [] => false,
    }
}

/// Where a path begins.
fn beginning(alloc: Global, page: &[char], from_root: bool) -> Result<Text, Memory>
    ensures { Gives result (spec.beginning page.now from_root) }
{
    if from_root {
        return Ok(Text::new(alloc));
    }
    let mut text = escaped(alloc, page)?;
    text.append_slice(&['/', '.', '.', '/'])?;
    Ok(text)
}

/// The normal path that a page means.
pub(crate) fn mapped(alloc: Global, page: &[char], path: &[char]) -> Result<Text, PathStop>
    ensures { Answers result PathStop.Memory (spec.mapped page.now path.now) }
{
    let mut raw = beginning(alloc, page, is_from_root(path))?;
    raw.append_slice(path)?;
    normal_path(alloc, raw.to_utf8(alloc)?.as_slice())
}
