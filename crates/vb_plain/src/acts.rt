//! An act: the page's variables are made, its part of the program runs, and then their values and the objects go.
ghost use Rattle.std.specs.Prelude.{◌≡◌, IfOk, Option, Some};
ghost use Rattle.std.specs.Option.{option_copied};
ghost use Rattle.vb_meaning.specs.Acts as spec;
ghost use Rattle.vb_meaning.specs.Meaning.{inside};
ghost use Rattle.vb_meaning.specs.Releases.{settle_last, end_all};
ghost use Rattle.vb_meaning.specs.State.{State, on_world};
ghost use Rattle.vb_meaning.specs.Step.{Step, Ran, and_then, state_of};
ghost use Rattle.vb_meaning.specs.Ticks.{TellsOf, act_end, end_in, page_end};
ghost use Rattle.vb_meaning.specs.Shown.{shown};
ghost use Rattle.vb_plain.specs.Nests.{Executes, Enters};
ghost use Rattle.vb_objects.specs.Seen.{seen, host};

use crate::rules::Rules;
use std::alloc::Global;
use std::mem;
use vb_heap::Heap;
use vb_meaning::{Argument, Exit, PlainEnd, Raised, Stop, World};
use vb_objects::errors::{no_error, raised_by};
use vb_objects::playing::{Playing, in_line};
use vb_syntax::program::{Procedure, Program, Statement};
use vb_syntax::{Act, ActDone, ActEnd, Intrinsics};
use vb_value::{List, Memory, ObjNo, Value, VbError};
use vb_world::declaring::page_begins;
use vb_world::entering::fresh_frame;
use vb_world::places::empty_cells;

/// The world in which an act begins.
pub fn fresh_world(alloc: Global) -> Result<World, Memory>
    ensures { IfOk result (λ world. shown world ≡ spec.fresh_world) }
{
    Ok(World {
        heap: Heap::new(alloc)?,
        page: List::new(alloc),
        frame: fresh_frame(alloc, None),
        err: no_error(alloc),
        calls: 0,
        terminates: false,
        page_ended: false,
        finished: 0,
    })
}

/// The values of the page's variables go, in the order of their declaration.
fn leave_page(alloc: Global, world: &mut World) -> Result<(), Memory>
    ensures { IfOk result (λ _. shown world.new ≡ spec.page_left (shown world.old)) }
{
    world.heap.let_go(0);
    let page = mem::replace(&mut world.page, List::new(alloc));
    empty_cells(alloc, world, page.as_slice())?;
    world.page = page;
    Ok(())
}

/// A line that is known, or 0.
fn line_or_none(line: Option<u32>) -> u32
    ensures { result ≡ spec.line_or_none line }
{
    match line {
        Some(line) => line,
        None => 0,
    }
}

/// An error as the end of an act.
fn error_end(raised: Raised, line: Option<u32>) -> ActEnd
    ensures { result ≡ spec.error_end raised (spec.line_or_none line) }
{
    ActEnd::Error {
        number: raised.number,
        source: raised.source,
        description: raised.description,
        line: line_or_none(line),
    }
}

impl<I: Intrinsics, V, A, S, C, T, N> Rules<I, V, A, S, C, T, N> {
    /// What an act says of itself when it has ended.
    fn done(&self, p: &Program, end: ActEnd, world: &World) -> PlainEnd
        ensures { result ≡ spec.done I (inside I (host I.asked I.answered) p.now self.now.levels) end (shown world.now) }
    {
        PlainEnd::Ends(ActDone {
            end,
            made: world.heap.objects_made(),
            finished: world.finished,
        })
    }
}

impl<
    I: Intrinsics,
    V,
    A,
    S,
    C,
    T: Fn(Global, u32, &Program, &mut Playing<'_>, &mut I, &Statement) -> Result<Exit, Stop>,
    N: Fn(
        Global,
        u32,
        &Program,
        &mut Playing<'_>,
        &mut I,
        Option<(ObjNo, u32)>,
        &Procedure,
        List<Argument>,
    ) -> Result<Value, Stop>,
> Rules<I, V, A, S, C, T, N> {
    /// An event procedure, if the program has it.
    fn event(
        &self,
        p: &Program,
        playing: &mut Playing<'_>,
        env: &mut I,
        procedure: Option<&Procedure>,
    ) -> Result<(), Stop>
        requires { Enters I (host I.asked I.answered) self.now.levels (N.pre self.now.enter) (N.post self.now.enter) }
        ensures { Ran (spec.event I (inside I (host I.asked I.answered) p.now self.now.levels)
            (option_copied procedure.entry) (seen playing.old env.old)) result (seen playing.new env.new) }
    {
        let Some(procedure) = procedure else {
            return Err(Stop::from(VbError::UNDEFINED_VARIABLE));
        };
        let gave = self.enter(p, playing, env, None, procedure, List::new(self.alloc));
        in_line(procedure.line, playing, env, gave)?;
        Ok(())
    }

    /// The part of the program that runs.
    fn part(
        &self,
        p: &Program,
        playing: &mut Playing<'_>,
        env: &mut I,
        act: Act,
    ) -> Result<(), Stop>
        requires executes { Executes I (host I.asked I.answered) self.now.levels (T.pre self.now.statement)
            (T.post self.now.statement) }
        requires enters { Enters I (host I.asked I.answered) self.now.levels (N.pre self.now.enter)
            (N.post self.now.enter) }
        ensures { Ran (spec.part I (inside I (host I.asked I.answered) p.now self.now.levels) act
            (seen playing.old env.old)) result (seen playing.new env.new) }
    {
        match act {
            Act::Body => {
                self.block(p, playing, env, p.unit.body.as_slice())?;
                Ok(())
            }
            Act::Proc(number) => {
                let procedure = p.unit.procedures.get(number as usize);
                self.event(p, playing, env, procedure)
            }
        }
    }

    /// The page's beginning, and the part of the program that runs.
    fn begun(
        &self,
        p: &Program,
        playing: &mut Playing<'_>,
        env: &mut I,
        act: Act,
    ) -> Result<(), Stop>
        requires executes { Executes I (host I.asked I.answered) self.now.levels (T.pre self.now.statement)
            (T.post self.now.statement) }
        requires enters { Enters I (host I.asked I.answered) self.now.levels (N.pre self.now.enter)
            (N.post self.now.enter) }
        ensures { Ran (and_then (on_world (spec.page_begins p.now.unit) (seen playing.old env.old)) (λ _. spec.part I
            (inside I (host I.asked I.answered) p.now self.now.levels) act)) result (seen playing.new env.new) }
    {
        page_begins(self.alloc, &mut playing.world, &p.unit)?;
        self.part(p, playing, env, act)
    }

    /// How an act ends that came to the page's end with this end: a limit on the way is its end.
    fn closed(
        &self,
        p: &Program,
        playing: &Playing<'_>,
        env: &I,
        how: ActEnd,
        gave: Result<(), Stop>,
    ) -> Result<PlainEnd, Memory>
        ensures end { (step : Step (State I) (Unit {0})) → Ran step gave (seen playing.now env.now) → IfOk result (λ
            end. spec.closed I (inside I (host I.asked I.answered) p.now self.now.levels) how step
            ≡ (Some end, env.now)) }
        ensures state { (step : Step (State I) (Unit {0})) → Ran step gave (seen playing.now env.now) → IfOk result (λ
            _. seen playing.now env.now ≡ state_of step) }
        ensures tells { (step : Step (State I) (Unit {0})) → Ran step gave (seen playing.now env.now) → IfOk result (λ
            end. TellsOf (state_of step) end env.now) }
    {
        match gave {
            Ok(()) => Ok(self.done(p, how, &playing.world)),
            Err(Stop::Limit(kind, line)) => {
                let line = line_or_none(line);
                Ok(self.done(p, ActEnd::Limit { kind, line }, &playing.world))
            }
            Err(Stop::Error(what, line)) => {
                let raised = raised_by(self.alloc, what)?;
                Ok(self.done(p, error_end(raised, line), &playing.world))
            }
            Err(Stop::Page) => Ok(self.done(p, ActEnd::Stopped, &playing.world)),
            Err(Stop::Wants(call)) => Ok(PlainEnd::Wants(call)),
            Err(Stop::Memory) => Err(Memory),
        }
    }

    /// The last objects of the page end.
    fn last_objects(&self, p: &Program, playing: &mut Playing<'_>, env: &mut I) -> Result<(), Stop>
        requires { Enters I (host I.asked I.answered) self.now.levels (N.pre self.now.enter) (N.post self.now.enter) }
        ensures { Ran (and_then (settle_last I (inside I (host I.asked I.answered) p.now self.now.levels)
            (seen playing.old env.old)) (λ _. end_all I (inside I (host I.asked I.answered) p.now self.now.levels)))
            result (seen playing.new env.new) }
    {
        self.settle_last(p, playing, env)?;
        self.end_all(p, playing, env)
    }

    /// The page's end: the values of its variables go, and then its objects.
    fn page_ends(
        &self,
        p: &Program,
        playing: &mut Playing<'_>,
        env: &mut I,
        how: ActEnd,
    ) -> Result<PlainEnd, Memory>
        requires { Enters I (host I.asked I.answered) self.now.levels (N.pre self.now.enter) (N.post self.now.enter) }
        ensures end { IfOk result (λ end. spec.page_ends I (inside I (host I.asked I.answered) p.now self.now.levels)
            how (seen playing.old env.old) ≡ (Some end, env.new)) }
        ensures state { IfOk result (λ _. seen playing.new env.new ≡ page_end I
            (inside I (host I.asked I.answered) p.now self.now.levels) (seen playing.old env.old)) }
        ensures tells { IfOk result (λ end. TellsOf (page_end I
            (inside I (host I.asked I.answered) p.now self.now.levels) (seen playing.old env.old)) end env.new) }
    {
        leave_page(self.alloc, &mut playing.world)?;
        let gave = self.last_objects(p, playing, env);
        self.closed(p, playing, env, how, gave)
    }

    /// How an act ends. One that a limit stopped ends no more objects, and neither does one that wants a call.
    fn ends_act(
        &self,
        p: &Program,
        playing: &mut Playing<'_>,
        env: &mut I,
        gave: Result<(), Stop>,
    ) -> Result<PlainEnd, Memory>
        requires { Enters I (host I.asked I.answered) self.now.levels (N.pre self.now.enter) (N.post self.now.enter) }
        ensures end { (step : Step (State I) (Unit {0})) → Ran step gave (seen playing.old env.old) → IfOk result (λ
            end. spec.ends_act I (inside I (host I.asked I.answered) p.now self.now.levels) step
            ≡ (Some end, env.new)) }
        ensures state { (step : Step (State I) (Unit {0})) → Ran step gave (seen playing.old env.old) → IfOk result (λ
            _. seen playing.new env.new ≡ act_end I (inside I (host I.asked I.answered) p.now self.now.levels) step) }
        ensures tells { (step : Step (State I) (Unit {0})) → Ran step gave (seen playing.old env.old) → IfOk result (λ
            end. TellsOf (act_end I (inside I (host I.asked I.answered) p.now self.now.levels) step) end env.new) }
    {
        match gave {
            Ok(()) => self.page_ends(p, playing, env, ActEnd::Done),
            Err(Stop::Page) => self.page_ends(p, playing, env, ActEnd::Stopped),
            Err(Stop::Error(what, line)) => {
                let raised = raised_by(self.alloc, what)?;
                self.page_ends(p, playing, env, error_end(raised, line))
            }
            Err(Stop::Limit(kind, line)) => {
                let line = line_or_none(line);
                Ok(self.done(p, ActEnd::Limit { kind, line }, &playing.world))
            }
            Err(Stop::Wants(call)) => Ok(PlainEnd::Wants(call)),
            Err(Stop::Memory) => Err(Memory),
        }
    }

    /// An act.
    pub fn act(
        &self,
        p: &Program,
        playing: &mut Playing<'_>,
        env: &mut I,
        act: Act,
    ) -> Result<PlainEnd, Memory>
        requires executes { Executes I (host I.asked I.answered) self.now.levels (T.pre self.now.statement)
            (T.post self.now.statement) }
        requires enters { Enters I (host I.asked I.answered) self.now.levels (N.pre self.now.enter)
            (N.post self.now.enter) }
        ensures end { IfOk result (λ end. spec.act_in I (inside I (host I.asked I.answered) p.now self.now.levels) act
            (seen playing.old env.old) ≡ (Some end, env.new)) }
        ensures state { IfOk result (λ _. seen playing.new env.new ≡ end_in I
            (inside I (host I.asked I.answered) p.now self.now.levels) act (seen playing.old env.old)) }
        ensures tells { IfOk result (λ end. TellsOf (end_in I
            (inside I (host I.asked I.answered) p.now self.now.levels) act (seen playing.old env.old)) end env.new) }
    {
        let gave = self.begun(p, playing, env, act);
        self.ends_act(p, playing, env, gave)
    }
}
