//! The steps of a path as accesses.
ghost use Rattle.std.specs.Prelude.{◌≡◌};
ghost use Rattle.std.specs.Option.{option_copied};
ghost use Rattle.std.specs.Prelude.{◌∷◌, [], Some, None};
ghost use Rattle.vb_meaning.specs.Accesses.{accesses, member_before, call_split, only_groups};
ghost use Rattle.vb_world.specs.Steps.{access_seen, split_seen, group_split_seen, next_group, first_call, call_alone};

use vb_syntax::program::{Expression, Step};

/// One access.
#[derive(Clone, Copy)]
pub enum Access<'a> {
    /// An element, or a call.
    Group(&'a [Expression]),
    /// A member, by the number of its name, and the arguments behind it if there are parentheses.
    Member(u32, Option<&'a [Expression]>),
}

/// The first access of some steps and what stands behind, if there is one.
#[tactic(auto, using(crate::proofs::Steps::member_first))]
pub fn first_access<'a>(steps: &'a [Step]) -> Option<(Access<'a>, &'a [Step])>
    ensures { accesses steps.now ≡ split_seen result }
{
    match steps {
        [] => None,
        [Step::Group(arguments), rest @ ..] => Some((Access::Group(arguments.as_slice()), rest)),
        [Step::Member(name), Step::Group(arguments), rest @ ..] => {
            Some((Access::Member(*name, Some(arguments.as_slice())), rest))
        }
        [Step::Member(name), rest @ ..] => Some((Access::Member(*name, None), rest)),
    }
}

/// A member whose name stands before some steps, with the arguments behind it if there are parentheses, and what stands
/// behind.
#[tactic(auto, using(crate::proofs::Steps::member_first))]
pub fn member_access<'a>(name: u32, steps: &'a [Step]) -> (Access<'a>, &'a [Step])
    ensures { member_before name (accesses steps.now) ≡ access_seen result.0 ∷ accesses result.1.now }
{
    match steps {
        [] => (Access::Member(name, None), steps),
        [Step::Group(arguments), rest @ ..] => (
            Access::Member(name, Some(arguments.as_slice())),
            rest,
        ),
        [Step::Member(_), ..] => (Access::Member(name, None), steps),
    }
}

/// The arguments of a call, which are the first group, and what stands behind.
#[tactic(auto, using(crate::proofs::Steps::no_call))]
pub fn split_call<'a>(steps: &'a [Step]) -> (&'a [Expression], &'a [Step])
    ensures { call_split (accesses steps.now) ≡ (result.0.now, accesses result.1.now) }
{
    match steps {
        [] => (&[], steps),
        [Step::Group(arguments), rest @ ..] => (arguments.as_slice(), rest),
        [Step::Member(_), ..] => (&[], steps),
    }
}

/// The next of so many groups and what stands behind, if a group stands there.
#[tactic(auto, using(crate::proofs::Steps::no_group))]
pub fn next_group<'a>(groups: u32, steps: &'a [Step]) -> Option<(&'a [Expression], &'a [Step])>
    ensures { group_split_seen result ≡ next_group groups (accesses steps.now) }
{
    if groups == 0 {
        return None;
    }
    match steps {
        [Step::Group(supplied), rest @ ..] => Some((supplied.as_slice(), rest)),
        [] | [Step::Member(_), ..] => None,
    }
}

/// Whether no member is among the accesses of some steps.
pub fn only_groups(mut steps: &[Step]) -> bool
    ensures { result ≡ only_groups (accesses steps.entry.now) }
{
    while let Some((access, rest)) = first_access(steps) {
        let Access::Group(_) = access else {
            return false;
        };
        steps = rest;
    }
    true
}

/// The call that a path begins with, if there is one, and what stands behind.
#[tactic(auto, using(crate::proofs::Steps::no_first_call))]
pub fn first_call<'a>(steps: &'a [Step]) -> (&'a [Step], &'a [Step])
    ensures { first_call (accesses steps.now) ≡ (accesses result.0.now, accesses result.1.now) }
{
    match steps {
        [Step::Group(_), ..] => (&steps[..1], &steps[1..]),
        [] | [Step::Member(_), ..] => (&[], steps),
    }
}

/// The arguments of a call, if nothing else stands among some steps.
#[tactic(auto, using(crate::proofs::Steps::not_alone, crate::proofs::Steps::not_alone_behind))]
pub fn call_alone<'a>(steps: &'a [Step]) -> Option<&'a [Expression]>
    ensures { option_copied result ≡ call_alone (accesses steps.now) }
{
    match steps {
        [] => Some(&[]),
        [Step::Group(supplied)] => Some(supplied.as_slice()),
        [Step::Group(_), Step::Group(_), ..] => None,
        [Step::Group(_), Step::Member(_), ..] => None,
        [Step::Member(_), ..] => None,
    }
}
