//! The segments of a path, followed from the root on.
ghost use Rattle.std.specs.Prelude.{◌≡◌, ◌==◌, [], position};
ghost use Rattle.vb_value.specs.Outcome.{Answers, Gives};
ghost use Rattle.asp_text.specs.Path as spec;
ghost use Rattle.asp_text.specs.Walking.{Reaches, SplitsFirst, shown};

use crate::path::PathStop;
use std::alloc::Global;
use vb_value::{List, Memory, Text};

fn is_here(segment: &[char]) -> bool
    ensures { result ≡ spec.is_here segment.now }
{
    segment.is_empty() || segment == ['.'].as_slice()
}

fn is_parent(segment: &[char]) -> bool
    ensures { result ≡ spec.is_parent segment.now }
{
    segment == ['.', '.'].as_slice()
}

fn first_slash(path: &[char]) -> Option<usize>
    ensures { result ≡ position (λ c. c == 47) path.now }
{
    path.iter().position(|c| *c == '/')
}

/// The first segment, and what stands behind the slash that ends it, if one does.
#[tactic(auto, using(crate::proofs::Segments::cut_at_slash, crate::proofs::Segments::uncut))]
fn first_segment(path: &[char]) -> (&[char], Option<&[char]>)
    ensures { SplitsFirst path.now result.0.now result.1 }
{
    match first_slash(path) {
        Some(at) => (&path[..at], Some(&path[at + 1..])),
        None => (path, None),
    }
}

/// Leaves the folder that the names lead to.
fn leave(names: &mut List<&[char]>) -> Result<bool, PathStop>
    ensures { Reaches result names.new (spec.above (shown names.old)) }
{
    match names.pop() {
        Some(_) => Ok(true),
        None => Err(PathStop::Escapes),
    }
}

/// Goes where the segment leads, and says whether it is meant as a folder.
fn take_step<'a>(names: &mut List<&'a [char]>, segment: &'a [char]) -> Result<bool, PathStop>
    ensures { Reaches result names.new (spec.step segment.now (shown names.old)) }
{
    if is_here(segment) {
        return Ok(true);
    }
    if is_parent(segment) {
        return leave(names);
    }
    names.push(segment)?;
    Ok(false)
}

/// Goes from the root where the path leads, and says whether it is meant as a folder.
fn walk<'a>(names: &mut List<&'a [char]>, path: &'a [char]) -> Result<bool, PathStop>
    requires { names.old ≡ [] }
    ensures { Reaches result names.new (spec.walk (spec.segments path.now) spec.root) }
{
    let mut rest = path;
    loop {
        let (segment, later) = first_segment(rest);
        let folder = take_step(names, segment)?;
        match later {
            Some(later) => rest = later,
            None => return Ok(folder),
        }
    }
}

fn way(alloc: Global, names: &[&[char]]) -> Result<Text, Memory>
    ensures { Gives result (spec.way (shown names.now)) }
{
    let mut text = Text::new(alloc);
    for name in names {
        text.push('/')?;
        text.append_slice(name)?;
    }
    Ok(text)
}

fn path_of(alloc: Global, names: &[&[char]], folder: bool) -> Result<Text, Memory>
    ensures { Gives result (spec.path_of (record { names = shown names.now; folder = folder })) }
{
    let mut text = way(alloc, names)?;
    if folder {
        text.push('/')?;
    }
    Ok(text)
}

/// The path of the place that `path` names.
pub(crate) fn resolve(alloc: Global, path: &[char]) -> Result<Text, PathStop>
    ensures { Answers result PathStop.Memory (spec.resolved path.now) }
{
    let mut names = List::new(alloc);
    let folder = walk(&mut names, path)?;
    Ok(path_of(alloc, names.as_slice(), folder)?)
}
