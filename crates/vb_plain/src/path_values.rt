//! A path as a whole: what it reaches, and its value.
ghost use Rattle.std.specs.Prelude.{◌≡◌};
ghost use Rattle.vb_syntax.specs.declared.program.expression.Head.TheVariants as head;
ghost use Rattle.vb_meaning.specs.Accesses.{accesses};
ghost use Rattle.vb_meaning.specs.Meaning.{inside};
ghost use Rattle.vb_meaning.specs.Reading as spec;
ghost use Rattle.vb_meaning.specs.Step.{Ran};
ghost use Rattle.vb_plain.specs.Nests.{Evaluates, Passes, Enters};
ghost use Rattle.vb_objects.specs.Seen.{seen, host};

use crate::rules::Rules;
use std::alloc::Global;
use vb_meaning::{Argument, Reached, Stop};
use vb_objects::around::{me_value, subject};
use vb_objects::err_object::err_value;
use vb_objects::playing::Playing;
use vb_syntax::Intrinsics;
use vb_syntax::program::{ErrMember, Expression, Head, Path, Procedure, Program, Step};
use vb_value::{List, ObjNo, Value};
use vb_world::accesses::{member_access, split_call};
use vb_world::paths::reached_value;

impl<
    I: Intrinsics,
    V: Fn(Global, u32, &Program, &mut Playing<'_>, &mut I, &Expression) -> Result<Value, Stop>,
    A: Fn(Global, u32, &Program, &mut Playing<'_>, &mut I, &Expression) -> Result<Argument, Stop>,
    S,
    C,
    T,
    N: Fn(
        Global,
        u32,
        &Program,
        &mut Playing<'_>,
        &mut I,
        Option<(ObjNo, u32)>,
        &Procedure,
        List<Argument>,
    ) -> Result<Value, Stop>,
> Rules<I, V, A, S, C, T, N> {
    /// The object whose method runs, and what is reached from it.
    fn from_me(
        &self,
        p: &Program,
        playing: &mut Playing<'_>,
        env: &mut I,
        steps: &[Step],
    ) -> Result<Reached, Stop>
        requires evaluates { Evaluates I (host I.asked I.answered) self.now.levels (V.pre self.now.value)
            (V.post self.now.value) }
        requires passes { Passes I (host I.asked I.answered) self.now.levels (A.pre self.now.argument)
            (A.post self.now.argument) }
        requires enters { Enters I (host I.asked I.answered) self.now.levels (N.pre self.now.enter)
            (N.post self.now.enter) }
        ensures { Ran (spec.from_head I (inside I (host I.asked I.answered) p.now self.now.levels) head.Me (accesses
            steps.now) (seen playing.old env.old)) result (seen playing.new env.new) }
    {
        let me = me_value(&playing.world)?;
        self.walk(p, playing, env, Reached::Value(me), steps)
    }

    /// A member of the subject of the With around, and what is reached from it.
    fn from_subject(
        &self,
        p: &Program,
        playing: &mut Playing<'_>,
        env: &mut I,
        name: u32,
        steps: &[Step],
    ) -> Result<Reached, Stop>
        requires evaluates { Evaluates I (host I.asked I.answered) self.now.levels (V.pre self.now.value)
            (V.post self.now.value) }
        requires passes { Passes I (host I.asked I.answered) self.now.levels (A.pre self.now.argument)
            (A.post self.now.argument) }
        requires enters { Enters I (host I.asked I.answered) self.now.levels (N.pre self.now.enter)
            (N.post self.now.enter) }
        ensures { Ran (spec.from_head I (inside I (host I.asked I.answered) p.now self.now.levels) (head.With name)
            (accesses steps.now) (seen playing.old env.old)) result (seen playing.new env.new) }
    {
        let subject = subject(self.alloc, &playing.world)?;
        let (access, rest) = member_access(name, steps);
        let from = self.access(p, playing, env, Reached::Value(subject), access)?;
        self.walk(p, playing, env, from, rest)
    }

    /// A member of Err, and what is reached from its value.
    fn from_err(
        &self,
        p: &Program,
        playing: &mut Playing<'_>,
        env: &mut I,
        member: ErrMember,
        steps: &[Step],
    ) -> Result<Reached, Stop>
        requires evaluates { Evaluates I (host I.asked I.answered) self.now.levels (V.pre self.now.value)
            (V.post self.now.value) }
        requires passes { Passes I (host I.asked I.answered) self.now.levels (A.pre self.now.argument)
            (A.post self.now.argument) }
        requires enters { Enters I (host I.asked I.answered) self.now.levels (N.pre self.now.enter)
            (N.post self.now.enter) }
        ensures { Ran (spec.from_head I (inside I (host I.asked I.answered) p.now self.now.levels) (head.Err member)
            (accesses steps.now) (seen playing.old env.old)) result (seen playing.new env.new) }
    {
        let (supplied, rest) = split_call(steps);
        let arguments = self.values(p, playing, env, supplied)?;
        let value = err_value(self.alloc, &mut playing.world, member, arguments.as_slice())?;
        self.walk(p, playing, env, Reached::Value(value), rest)
    }

    /// What is reached from where a path begins.
    pub fn from_head(
        &self,
        p: &Program,
        playing: &mut Playing<'_>,
        env: &mut I,
        head: &Head,
        steps: &[Step],
    ) -> Result<Reached, Stop>
        requires evaluates { Evaluates I (host I.asked I.answered) self.now.levels (V.pre self.now.value)
            (V.post self.now.value) }
        requires passes { Passes I (host I.asked I.answered) self.now.levels (A.pre self.now.argument)
            (A.post self.now.argument) }
        requires enters { Enters I (host I.asked I.answered) self.now.levels (N.pre self.now.enter)
            (N.post self.now.enter) }
        ensures { Ran (spec.from_head I (inside I (host I.asked I.answered) p.now self.now.levels) head.now (accesses
            steps.now) (seen playing.old env.old)) result (seen playing.new env.new) }
    {
        match head {
            Head::Named(name) => self.from_name(p, playing, env, name, steps),
            Head::Me => self.from_me(p, playing, env, steps),
            Head::With(name) => self.from_subject(p, playing, env, *name, steps),
            Head::Err(member) => self.from_err(p, playing, env, *member, steps),
            Head::Member {
                member,
                groups,
                takes,
            } => self.from_member(p, playing, env, *member, *groups, *takes, steps),
        }
    }

    /// What a path reaches.
    #[tactic(auto, unfolding(vb_meaning::specs::Reading::reached))]
    pub fn reached(
        &self,
        p: &Program,
        playing: &mut Playing<'_>,
        env: &mut I,
        path: &Path,
    ) -> Result<Reached, Stop>
        requires evaluates { Evaluates I (host I.asked I.answered) self.now.levels (V.pre self.now.value)
            (V.post self.now.value) }
        requires passes { Passes I (host I.asked I.answered) self.now.levels (A.pre self.now.argument)
            (A.post self.now.argument) }
        requires enters { Enters I (host I.asked I.answered) self.now.levels (N.pre self.now.enter)
            (N.post self.now.enter) }
        ensures { Ran (spec.reached I (inside I (host I.asked I.answered) p.now self.now.levels) path.now (seen
            playing.old env.old)) result (seen playing.new env.new) }
    {
        self.from_head(p, playing, env, &path.head, path.steps.as_slice())
    }

    /// The value of a path.
    pub fn path_value(
        &self,
        p: &Program,
        playing: &mut Playing<'_>,
        env: &mut I,
        path: &Path,
    ) -> Result<Value, Stop>
        requires evaluates { Evaluates I (host I.asked I.answered) self.now.levels (V.pre self.now.value)
            (V.post self.now.value) }
        requires passes { Passes I (host I.asked I.answered) self.now.levels (A.pre self.now.argument)
            (A.post self.now.argument) }
        requires enters { Enters I (host I.asked I.answered) self.now.levels (N.pre self.now.enter)
            (N.post self.now.enter) }
        ensures { Ran (spec.path_value I (inside I (host I.asked I.answered) p.now self.now.levels) path.now (seen
            playing.old env.old)) result (seen playing.new env.new) }
    {
        let found = self.reached(p, playing, env, path)?;
        reached_value(self.alloc, &playing.world, found)
    }
}
