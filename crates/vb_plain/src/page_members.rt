//! Members of the objects that a page is given, as values.
ghost use Rattle.std.specs.Prelude.{◌≡◌, []};
ghost use Rattle.vb_syntax.specs.declared.program.expression.Head.TheVariants as head;
ghost use Rattle.vb_meaning.specs.Accesses.{accesses};
ghost use Rattle.vb_meaning.specs.Meaning.{inside};
ghost use Rattle.vb_meaning.specs.Reading as spec;
ghost use Rattle.vb_meaning.specs.Step.{Ran};
ghost use Rattle.vb_plain.specs.Nests.{Evaluates, Passes, Enters};
ghost use Rattle.vb_objects.specs.Seen.{seen, host};
ghost use Rattle.vb_world.specs.Steps.{groups_seen};

use crate::rules::Rules;
use std::alloc::Global;
use vb_meaning::{Argument, Reached, Stop};
use vb_objects::asking::{ask, is_taken};
use vb_objects::functions::create_object;
use vb_objects::playing::Playing;
use vb_syntax::program::{Expression, Procedure, Program, Step};
use vb_syntax::{Intrinsics, Member, Takes};
use vb_value::{List, ObjNo, Value, VbError};
use vb_world::accesses::next_group;

impl<
    I: Intrinsics,
    V: Fn(Global, u32, &Program, &mut Playing<'_>, &mut I, &Expression) -> Result<Value, Stop>,
    A: Fn(Global, u32, &Program, &mut Playing<'_>, &mut I, &Expression) -> Result<Argument, Stop>,
    S,
    C,
    T,
    N: Fn(
        Global,
        u32,
        &Program,
        &mut Playing<'_>,
        &mut I,
        Option<(ObjNo, u32)>,
        &Procedure,
        List<Argument>,
    ) -> Result<Value, Stop>,
> Rules<I, V, A, S, C, T, N> {
    /// The values in so many of the first groups, and what stands behind.
    pub fn group_values<'a>(
        &self,
        p: &Program,
        playing: &mut Playing<'_>,
        env: &mut I,
        mut groups: u32,
        mut steps: &'a [Step],
    ) -> Result<(List<Value>, &'a [Step]), Stop>
        requires { Evaluates I (host I.asked I.answered) self.now.levels (V.pre self.now.value)
            (V.post self.now.value) }
        ensures { Ran (spec.group_values I (inside I (host I.asked I.answered) p.now self.now.levels) groups []
            (accesses steps.entry.now) (seen playing.old env.old)) (groups_seen result) (seen playing.new env.new) }
    {
        let mut values = List::new(self.alloc);
        while let Some((supplied, rest)) = next_group(groups, steps) {
            values = self.values_behind(p, playing, env, values, supplied)?;
            groups -= 1;
            steps = rest;
        }
        Ok((values, steps))
    }

    /// A member of the page's objects with its arguments. Error 450 for another number of them.
    fn page_member(
        &self,
        p: &Program,
        playing: &mut Playing<'_>,
        env: &mut I,
        member: Member,
        takes: Takes,
        arguments: &[Value],
    ) -> Result<Value, Stop>
        ensures { Ran (spec.page_member I (inside I (host I.asked I.answered) p.now self.now.levels) member takes
            arguments.now (seen playing.old env.old)) result (seen playing.new env.new) }
    {
        match member {
            Member::ServerCreateObject => create_object(self.alloc, &mut playing.world, arguments),
            member if is_taken(takes, arguments.len()) => ask(
                self.alloc, playing, env, member, arguments,
            ),
            _ => Err(Stop::from(VbError::WRONG_NUMBER)),
        }
    }

    /// A member of the page's objects, and what is reached from what it gives.
    pub fn from_page_member(
        &self,
        p: &Program,
        playing: &mut Playing<'_>,
        env: &mut I,
        member: Member,
        takes: Takes,
        arguments: &[Value],
        steps: &[Step],
    ) -> Result<Reached, Stop>
        requires evaluates { Evaluates I (host I.asked I.answered) self.now.levels (V.pre self.now.value)
            (V.post self.now.value) }
        requires passes { Passes I (host I.asked I.answered) self.now.levels (A.pre self.now.argument)
            (A.post self.now.argument) }
        requires enters { Enters I (host I.asked I.answered) self.now.levels (N.pre self.now.enter)
            (N.post self.now.enter) }
        ensures { Ran (spec.from_page_member I (inside I (host I.asked I.answered) p.now self.now.levels) member
            takes (arguments.now, accesses steps.now) (seen playing.old env.old)) result (seen playing.new env.new) }
    {
        let value = self.page_member(p, playing, env, member, takes, arguments)?;
        self.walk(p, playing, env, Reached::Value(value), steps)
    }

    /// What is reached from a member of the page's objects.
    pub fn from_member(
        &self,
        p: &Program,
        playing: &mut Playing<'_>,
        env: &mut I,
        member: Member,
        groups: u32,
        takes: Takes,
        steps: &[Step],
    ) -> Result<Reached, Stop>
        requires evaluates { Evaluates I (host I.asked I.answered) self.now.levels (V.pre self.now.value)
            (V.post self.now.value) }
        requires passes { Passes I (host I.asked I.answered) self.now.levels (A.pre self.now.argument)
            (A.post self.now.argument) }
        requires enters { Enters I (host I.asked I.answered) self.now.levels (N.pre self.now.enter)
            (N.post self.now.enter) }
        ensures { Ran (spec.from_head I (inside I (host I.asked I.answered) p.now self.now.levels) (head.Member
            member groups takes) (accesses steps.now) (seen playing.old env.old)) result (seen playing.new env.new) }
    {
        let (arguments, rest) = self.group_values(p, playing, env, groups, steps)?;
        self.from_page_member(p, playing, env, member, takes, arguments.as_slice(), rest)
    }
}
