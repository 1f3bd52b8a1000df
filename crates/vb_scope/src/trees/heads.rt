//! Where paths begin.
ghost use Rattle.std.specs.Prelude.{◌≡◌, map, false, true};
ghost use Rattle.vb_value.specs.Outcome.{Gives};
ghost use Rattle.vb_syntax.specs.scope.Trees as spec;
ghost use Rattle.vb_syntax.specs.scope.Members.{member_meant};
ghost use Rattle.vb_syntax.specs.scope.Names.{name_number};
ghost use Rattle.vb_syntax.specs.scope.Notes.{is_group};
ghost use Rattle.vb_syntax.specs.scope.Shapes.{shape_of, used_steps};
ghost use Rattle.vb_names.specs.Declarations.{scopes_seen};

use std::alloc::Global;
use vb_names::{Key, Names, Scopes, err_meant, groups_behind, length_of, member_meant};
use vb_notes::steps_used;
use vb_syntax::program::{Head, Named};
use vb_syntax::{PageObject, Path, PathHead, PathUse, Shape};
use vb_value::{Memory, Text};

/// All names of the script, and the scopes around a place.
#[derive(Clone, Copy)]
pub struct Place<'a> {
    pub alloc: Global,
    pub names: &'a Names,
    pub scopes: Scopes<'a>,
}

/// The number of a name among all names.
pub fn name_number(names: &Names, name: &Text) -> u32
    ensures { result ≡ name_number names.now name.now }
{
    names.number(&Key::of(name)).unwrap_or(0)
}

/// The same at a place.
pub fn number(place: Place<'_>, name: &Text) -> u32
    ensures { result ≡ name_number place.entry.names.now name.now }
{
    name_number(place.names, name)
}

/// Whether all steps are parentheses.
fn only_groups(mut steps: &[Shape]) -> bool
    ensures { result ≡ spec.only_groups steps.entry.now }
{
    while let [step, rest @ ..] = steps {
        if let Shape::Member(_) = step {
            return false;
        }
        steps = rest;
    }
    true
}

/// Whether a path calls its head.
fn is_called(used: PathUse, steps: &[Shape]) -> bool
    ensures { result ≡ spec.is_called used steps.now }
{
    match steps {
        [] => used == PathUse::Callee,
        [Shape::Group, more @ ..] => used != PathUse::Target || !only_groups(more),
        [Shape::Member(_), ..] => false,
    }
}

/// Whether a For Each goes over a path.
fn is_group(used: PathUse) -> bool
    ensures { result ≡ is_group used }
{
    match used {
        PathUse::Group => true,
        PathUse::Value | PathUse::Target | PathUse::Callee | PathUse::CalleeWithArguments => false,
    }
}

/// A path that begins with what a name stands for, or with a member of Err.
fn named_head(named: Named, steps: &[Shape]) -> (Head, usize)
    ensures { result ≡ spec.named_head named steps.now }
{
    match named {
        Named::Err => {
            let (member, count) = err_meant(steps);
            (Head::Err(member), count)
        }
        named => (Head::Named(named), 0),
    }
}

/// A path that begins with a member of an object of the page.
fn member_head(used: PathUse, steps: &[Shape], object: PageObject) -> (Head, usize)
    ensures { result ≡ spec.member_head steps.now (member_meant object (is_group used) steps.now) }
{
    match member_meant(object, is_group(used), steps) {
        Some(row) => {
            let head = Head::Member {
                member: row.member,
                groups: groups_behind(&row, steps),
                takes: row.takes,
            };
            (head, length_of(&row))
        }
        None => (Head::Named(Named::Unknown), 0),
    }
}

/// A path that begins with a name.
fn name_head(
    place: Place<'_>,
    used: PathUse,
    name: &Text,
    steps: &[Shape],
) -> Result<(Head, usize), Memory>
    ensures { Gives result (spec.name_head place.entry.names.now (scopes_seen place.entry.scopes) used name.now
        steps.now) }
{
    let (named, object) = place.scopes.meant(is_called(used, steps), name)?;
    match object {
        Some(object) => Ok(member_head(used, steps, object)),
        None => Ok(named_head(named, steps)),
    }
}

/// Where a path begins, and how many of its steps say so.
fn head(
    place: Place<'_>,
    used: PathUse,
    head: &PathHead,
    steps: &[Shape],
) -> Result<(Head, usize), Memory>
    ensures { Gives result (spec.head_of place.entry.names.now (scopes_seen place.entry.scopes) used head.now
        steps.now) }
{
    match head {
        PathHead::Name(name) => name_head(place, used, name, steps),
        PathHead::Me => Ok((Head::Me, 0)),
        PathHead::With(name) => Ok((Head::With(number(place, name)), 0)),
    }
}

/// Where a path begins that is used so, and how many of its steps say so.
pub fn path_head(place: Place<'_>, used: PathUse, found: &Path) -> Result<(Head, usize), Memory>
    ensures { Gives result (spec.head_of place.entry.names.now (scopes_seen place.entry.scopes) used found.now.head
        (used_steps used (map shape_of found.now.steps))) }
{
    let shapes = steps_used(place.alloc, used, found.steps.as_slice())?;
    let begin = head(place, used, &found.head, shapes.as_slice());
    drop(shapes);
    begin
}
