//! A path that a value is assigned to.
ghost use Rattle.std.specs.Prelude.{◌≡◌, []};
ghost use Rattle.vb_syntax.specs.declared.program.expression.Head.TheVariants as head;
ghost use Rattle.vb_meaning.specs.Accesses.{accesses};
ghost use Rattle.vb_meaning.specs.Assigning as spec;
ghost use Rattle.vb_meaning.specs.Meaning.{inside};
ghost use Rattle.vb_meaning.specs.Reading.{from_page_member};
ghost use Rattle.vb_meaning.specs.Step.{Ran};
ghost use Rattle.vb_plain.specs.Nests.{Evaluates, Passes, Enters};
ghost use Rattle.vb_objects.specs.Seen.{seen, host};

use crate::rules::Rules;
use std::alloc::Global;
use vb_meaning::{Argument, Assigned, Reached, Stop};
use vb_objects::around::{me_value, subject};
use vb_objects::asking::{ask, is_taken};
use vb_objects::err_object::set_err;
use vb_objects::playing::Playing;
use vb_syntax::program::{ErrMember, Expression, Head, Path, Procedure, Program, Step};
use vb_syntax::{Intrinsics, Member, Takes};
use vb_value::{List, ObjNo, Value, VbError};
use vb_world::accesses::{first_access, member_access};

impl<
    I: Intrinsics,
    V: Fn(Global, u32, &Program, &mut Playing<'_>, &mut I, &Expression) -> Result<Value, Stop>,
    A: Fn(Global, u32, &Program, &mut Playing<'_>, &mut I, &Expression) -> Result<Argument, Stop>,
    S,
    C,
    T,
    N: Fn(
        Global,
        u32,
        &Program,
        &mut Playing<'_>,
        &mut I,
        Option<(ObjNo, u32)>,
        &Procedure,
        List<Argument>,
    ) -> Result<Value, Stop>,
> Rules<I, V, A, S, C, T, N> {
    /// What stands behind `Me`. Error 501 where nothing does.
    fn into_me(
        &self,
        p: &Program,
        playing: &mut Playing<'_>,
        env: &mut I,
        how: Assigned,
        steps: &[Step],
        value: Value,
    ) -> Result<(), Stop>
        requires evaluates { Evaluates I (host I.asked I.answered) self.now.levels (V.pre self.now.value)
            (V.post self.now.value) }
        requires passes { Passes I (host I.asked I.answered) self.now.levels (A.pre self.now.argument)
            (A.post self.now.argument) }
        requires enters { Enters I (host I.asked I.answered) self.now.levels (N.pre self.now.enter)
            (N.post self.now.enter) }
        ensures { Ran (spec.into_head I (inside I (host I.asked I.answered) p.now self.now.levels) how head.Me
            (accesses steps.now) value (seen playing.old env.old)) result (seen playing.new env.new) }
    {
        let Some((access, rest)) = first_access(steps) else {
            return Err(Stop::from(VbError::ILLEGAL_ASSIGNMENT));
        };
        let me = me_value(&playing.world)?;
        self.into_steps(
            p,
            playing,
            env,
            Reached::Value(me),
            how,
            access,
            rest,
            value,
        )
    }

    /// A member of the subject of the With around, or what stands behind it.
    fn into_subject(
        &self,
        p: &Program,
        playing: &mut Playing<'_>,
        env: &mut I,
        name: u32,
        how: Assigned,
        steps: &[Step],
        value: Value,
    ) -> Result<(), Stop>
        requires evaluates { Evaluates I (host I.asked I.answered) self.now.levels (V.pre self.now.value)
            (V.post self.now.value) }
        requires passes { Passes I (host I.asked I.answered) self.now.levels (A.pre self.now.argument)
            (A.post self.now.argument) }
        requires enters { Enters I (host I.asked I.answered) self.now.levels (N.pre self.now.enter)
            (N.post self.now.enter) }
        ensures { Ran (spec.into_head I (inside I (host I.asked I.answered) p.now self.now.levels) how (head.With
            name) (accesses steps.now) value (seen playing.old env.old)) result (seen playing.new env.new) }
    {
        let (access, rest) = member_access(name, steps);
        let subject = subject(self.alloc, &playing.world)?;
        self.into_steps(
            p,
            playing,
            env,
            Reached::Value(subject),
            how,
            access,
            rest,
            value,
        )
    }

    /// Writes a member of the page's objects: its arguments, and then the value. Error 438 where it takes none.
    fn write_member(
        &self,
        p: &Program,
        playing: &mut Playing<'_>,
        env: &mut I,
        member: Member,
        how: Assigned,
        takes: Takes,
        mut arguments: List<Value>,
        value: Value,
    ) -> Result<(), Stop>
        ensures { Ran (spec.write_member I (inside I (host I.asked I.answered) p.now self.now.levels) how member
            takes arguments value (seen playing.old env.old)) result (seen playing.new env.new) }
    {
        if !takes.is_written {
            return Err(Stop::from(VbError::UNSUPPORTED));
        }
        if !is_taken(takes, arguments.len()) {
            return Err(Stop::from(VbError::WRONG_NUMBER));
        }
        arguments.push(value)?;
        ask(self.alloc, playing, env, member, arguments.as_slice())?;
        Ok(())
    }

    /// A member of the page's objects with these arguments, or what stands behind it.
    fn into_page_member(
        &self,
        p: &Program,
        playing: &mut Playing<'_>,
        env: &mut I,
        member: Member,
        how: Assigned,
        takes: Takes,
        arguments: List<Value>,
        steps: &[Step],
        value: Value,
    ) -> Result<(), Stop>
        requires evaluates { Evaluates I (host I.asked I.answered) self.now.levels (V.pre self.now.value)
            (V.post self.now.value) }
        requires passes { Passes I (host I.asked I.answered) self.now.levels (A.pre self.now.argument)
            (A.post self.now.argument) }
        requires enters { Enters I (host I.asked I.answered) self.now.levels (N.pre self.now.enter)
            (N.post self.now.enter) }
        ensures { Ran (spec.into_page_member I (inside I (host I.asked I.answered) p.now self.now.levels) how member
            takes value (arguments, accesses steps.now) (seen playing.old env.old)) result (seen playing.new env.new) }
    {
        let Some((access, rest)) = first_access(steps) else {
            return self.write_member(p, playing, env, member, how, takes, arguments, value);
        };
        let from = self.from_page_member(
            p,
            playing,
            env,
            member,
            takes,
            arguments.as_slice(),
            &[],
        )?;
        self.into_steps(p, playing, env, from, how, access, rest, value)
    }

    /// A member of the page's objects, or what stands behind it.
    fn into_member_of_page(
        &self,
        p: &Program,
        playing: &mut Playing<'_>,
        env: &mut I,
        member: Member,
        how: Assigned,
        groups: u32,
        takes: Takes,
        steps: &[Step],
        value: Value,
    ) -> Result<(), Stop>
        requires evaluates { Evaluates I (host I.asked I.answered) self.now.levels (V.pre self.now.value)
            (V.post self.now.value) }
        requires passes { Passes I (host I.asked I.answered) self.now.levels (A.pre self.now.argument)
            (A.post self.now.argument) }
        requires enters { Enters I (host I.asked I.answered) self.now.levels (N.pre self.now.enter)
            (N.post self.now.enter) }
        ensures { Ran (spec.into_head I (inside I (host I.asked I.answered) p.now self.now.levels) how (head.Member
            member groups takes) (accesses steps.now) value (seen playing.old env.old)) result (seen playing.new
            env.new) }
    {
        let (arguments, rest) = self.group_values(p, playing, env, groups, steps)?;
        self.into_page_member(p, playing, env, member, how, takes, arguments, rest, value)
    }

    /// A member of Err. Error 438 where anything stands behind it.
    fn into_err(
        &self,
        p: &Program,
        playing: &mut Playing<'_>,
        env: &mut I,
        member: ErrMember,
        how: Assigned,
        steps: &[Step],
        value: Value,
    ) -> Result<(), Stop>
        ensures { Ran (spec.into_err I (inside I (host I.asked I.answered) p.now self.now.levels) how member
            (accesses steps.now) value (seen playing.old env.old)) result (seen playing.new env.new) }
    {
        if first_access(steps).is_some() {
            return Err(Stop::from(VbError::UNSUPPORTED));
        }
        set_err(self.alloc, &mut playing.world, member, &value)
    }

    /// What the place where a path begins, with the steps behind it, comes to.
    fn into_head(
        &self,
        p: &Program,
        playing: &mut Playing<'_>,
        env: &mut I,
        head: &Head,
        how: Assigned,
        steps: &[Step],
        value: Value,
    ) -> Result<(), Stop>
        requires evaluates { Evaluates I (host I.asked I.answered) self.now.levels (V.pre self.now.value)
            (V.post self.now.value) }
        requires passes { Passes I (host I.asked I.answered) self.now.levels (A.pre self.now.argument)
            (A.post self.now.argument) }
        requires enters { Enters I (host I.asked I.answered) self.now.levels (N.pre self.now.enter)
            (N.post self.now.enter) }
        ensures { Ran (spec.into_head I (inside I (host I.asked I.answered) p.now self.now.levels) how head.now
            (accesses steps.now) value (seen playing.old env.old)) result (seen playing.new env.new) }
    {
        match head {
            Head::Named(name) => self.into_name(p, playing, env, name, how, steps, value),
            Head::Me => self.into_me(p, playing, env, how, steps, value),
            Head::With(name) => self.into_subject(p, playing, env, *name, how, steps, value),
            Head::Err(member) => self.into_err(p, playing, env, *member, how, steps, value),
            Head::Member {
                member,
                groups,
                takes,
            } => self.into_member_of_page(
                p, playing, env, *member, how, *groups, *takes, steps, value,
            ),
        }
    }

    /// Assigns a value to a path.
    #[tactic(auto, unfolding(vb_meaning::specs::Assigning::assign_to))]
    pub fn assign_to(
        &self,
        p: &Program,
        playing: &mut Playing<'_>,
        env: &mut I,
        how: Assigned,
        path: &Path,
        value: Value,
    ) -> Result<(), Stop>
        requires evaluates { Evaluates I (host I.asked I.answered) self.now.levels (V.pre self.now.value)
            (V.post self.now.value) }
        requires passes { Passes I (host I.asked I.answered) self.now.levels (A.pre self.now.argument)
            (A.post self.now.argument) }
        requires enters { Enters I (host I.asked I.answered) self.now.levels (N.pre self.now.enter)
            (N.post self.now.enter) }
        ensures { Ran (spec.assign_to I (inside I (host I.asked I.answered) p.now self.now.levels) how path.now value
            (seen playing.old env.old)) result (seen playing.new env.new) }
    {
        self.into_head(
            p,
            playing,
            env,
            &path.head,
            how,
            path.steps.as_slice(),
            value,
        )
    }
}
