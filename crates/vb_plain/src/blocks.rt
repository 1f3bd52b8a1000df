//! Statements one after the other.
ghost use Rattle.std.specs.Prelude.{◌≡◌};
ghost use Rattle.vb_meaning.specs.Blocks as spec;
ghost use Rattle.vb_meaning.specs.Meaning.{statement, inside};
ghost use Rattle.vb_meaning.specs.Step.{Ran};
ghost use Rattle.vb_plain.specs.Nests.{Executes};
ghost use Rattle.vb_objects.specs.Seen.{seen, host};

use crate::rules::Rules;
use std::alloc::Global;
use vb_meaning::{Exit, Stop};
use vb_objects::playing::Playing;
use vb_syntax::Intrinsics;
use vb_syntax::program::{Program, Statement};

impl<
    I: Intrinsics,
    V,
    A,
    S,
    C,
    T: Fn(Global, u32, &Program, &mut Playing<'_>, &mut I, &Statement) -> Result<Exit, Stop>,
    N,
> Rules<I, V, A, S, C, T, N> {
    /// A statement inside.
    fn statement(
        &self,
        p: &Program,
        playing: &mut Playing<'_>,
        env: &mut I,
        found: &Statement,
    ) -> Result<Exit, Stop>
        requires { Executes I (host I.asked I.answered) self.now.levels (T.pre self.now.statement)
            (T.post self.now.statement) }
        ensures { Ran (statement I (host I.asked I.answered) p.now self.now.levels found.now (seen playing.old env.old))
            result (seen playing.new env.new) }
    {
        (self.statement)(self.alloc, self.levels, p, playing, env, found)
    }

    /// Statements one after the other, until an Exit leaves them.
    pub fn block(
        &self,
        p: &Program,
        playing: &mut Playing<'_>,
        env: &mut I,
        mut statements: &[Statement],
    ) -> Result<Exit, Stop>
        requires { Executes I (host I.asked I.answered) self.now.levels (T.pre self.now.statement)
            (T.post self.now.statement) }
        ensures { Ran (spec.block I (inside I (host I.asked I.answered) p.now self.now.levels) statements.entry.now
            (seen playing.old env.old)) result (seen playing.new env.new) }
    {
        while let [first, others @ ..] = statements {
            match self.statement(p, playing, env, first)? {
                Exit::Next => statements = others,
                Exit::Leave(kind) => return Ok(Exit::Leave(kind)),
            }
        }
        Ok(Exit::Next)
    }
}
