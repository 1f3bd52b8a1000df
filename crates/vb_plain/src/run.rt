//! The run of an act.
ghost use Rattle.std.specs.Prelude.{◌≡◌, IfOk, Some};
ghost use Rattle.vb_meaning.specs.Acts.{act_in, act_of, begun, fresh_world, most_ticks};
ghost use Rattle.vb_meaning.specs.Meaning.{inside, most_levels};
ghost use Rattle.vb_meaning.specs.Shown.{shown};
ghost use Rattle.vb_meaning.specs.Ticks.{TellsOf, end_in};
ghost use Rattle.vb_objects.specs.Seen.{host, seen};

use crate::acts::fresh_world;
use crate::plain::{argument, assign, call, enter, statement, value};
use crate::rules::Rules;
use std::alloc::Global;
use std::marker::PhantomData;
use vb_meaning::PlainEnd;
use vb_objects::playing::Playing;
use vb_syntax::program::Program;
use vb_syntax::{Act, Intrinsics};
use vb_value::{AppReply, Memory};

/// How many ticks an act has.
const MOST_TICKS: u32 = 1_000_000;

/// How many statements, operators, paths and calls may be begun and not yet ended.
const MOST_LEVELS: u32 = 2_000;

/// The state in which an act begins: no data, and all its ticks.
pub fn fresh_playing(alloc: Global, replies: &[AppReply]) -> Result<Playing<'_>, Memory>
    ensures { IfOk result (λ playing. (shown playing.world ≡ fresh_world) × (playing.ticks ≡ most_ticks)
        × (playing.replies.now ≡ replies.now)) }
{
    Ok(Playing {
        world: fresh_world(alloc)?,
        ticks: MOST_TICKS,
        replies,
    })
}

/// Runs an act of a program in this state, and leaves the state at its end: the ticks that are left, and what has become of
/// the page's data. Where memory runs out nothing is said of that state.
pub fn run_act_in<I: Intrinsics>(
    alloc: Global,
    p: &Program,
    act: Act,
    playing: &mut Playing<'_>,
    env: &mut I,
) -> Result<PlainEnd, Memory>
    ensures end { IfOk result (λ end. act_in I (inside I (host I.asked I.answered) p.now most_levels) act
        (seen playing.old env.old) ≡ (Some end, env.new)) }
    ensures state { IfOk result (λ _. seen playing.new env.new
        ≡ end_in I (inside I (host I.asked I.answered) p.now most_levels) act (seen playing.old env.old)) }
    ensures tells { IfOk result (λ end. TellsOf
        (end_in I (inside I (host I.asked I.answered) p.now most_levels) act (seen playing.old env.old)) end env.new) }
{
    Rules {
        env: PhantomData,
        alloc,
        levels: MOST_LEVELS,
        value: value::<I>,
        argument: argument::<I>,
        assign: assign::<I>,
        call: call::<I>,
        statement: statement::<I>,
        enter: enter::<I>,
    }
    .act(p, playing, env, act)
}

/// Runs an act of a program from its beginning: what it asks goes to `env`, and each call of the Application object
/// that it wants takes the next of `replies`. What it tells is what the state at its end has.
///
/// It ends, or wants the first call for which there is no reply. To go on with that reply it is run again with all
/// replies, in an environment as it was at first.
#[tactic(auto, unfolding(vb_meaning::specs::Acts::act_of))]
pub fn run_act<I: Intrinsics>(
    alloc: Global,
    p: &Program,
    act: Act,
    env: &mut I,
    replies: &[AppReply],
) -> Result<PlainEnd, Memory>
    ensures end { IfOk result (λ end. act_of I (host I.asked I.answered) p.now act env.old replies.now
        ≡ (Some end, env.new)) }
    ensures state { IfOk result (λ end. TellsOf
        (end_in I (inside I (host I.asked I.answered) p.now most_levels) act (begun env.old replies.now)) end env.new) }
{
    let mut playing = fresh_playing(alloc, replies)?;
    run_act_in(alloc, p, act, &mut playing, env)
}
