//! What an act asks of the objects that the page is given.
ghost use Rattle.std.specs.Prelude.{◌≡◌};
ghost use Rattle.vb_value.specs.Outcome.{Gives, Runs};
ghost use Rattle.vb_syntax.specs.Asking.{stops};
ghost use Rattle.vb_heap.specs.DictionaryCalls.{array_of};
ghost use Rattle.vb_meaning.specs.Asking as spec;
ghost use Rattle.vb_meaning.specs.Reading as reading;
ghost use Rattle.vb_meaning.specs.Shown.{shown};
ghost use Rattle.vb_meaning.specs.Step.{Ran};
ghost use Rattle.vb_objects.specs.Seen.{seen, host};

use crate::playing::Playing;
use std::alloc::Global;
use vb_meaning::{Answer, Stop};
use vb_syntax::{AskStop, Given, Intrinsics, Member, Takes};
use vb_value::{AppReply, Array, Copied, List, Memory, Text, Value, copy};

/// A reply equal to that one.
fn copy_reply(alloc: Global, reply: &AppReply) -> Result<AppReply, Memory>
    ensures { Gives result reply.now }
{
    match reply {
        AppReply::Value(value) => Ok(AppReply::Value(copy(alloc, value)?)),
        AppReply::Number(number) => Ok(AppReply::Number(*number)),
        AppReply::Name(name) => Ok(AppReply::Name(name.copy()?)),
        AppReply::NoName => Ok(AppReply::NoName),
        AppReply::Names(names) => Ok(AppReply::Names(names.copy()?)),
        AppReply::Done => Ok(AppReply::Done),
        AppReply::Full => Ok(AppReply::Full),
    }
}

/// The most names that an array can hold.
const MOST_NAMES: usize = 2_147_483_647;

/// Names as texts.
fn name_values(alloc: Global, names: &[Text]) -> Result<List<Value>, Memory>
    ensures { Gives result (spec.name_values names.now) }
{
    let mut values = List::with_capacity(alloc, names.len())?;
    for name in names {
        values.push(Value::Str(name.copy()?))?;
    }
    Ok(values)
}

/// The names that a For Each goes over, as an array of them.
fn names_array(alloc: Global, names: &[Text]) -> Result<Value, Memory>
    ensures { Gives result (array_of (spec.name_values names.now)) }
{
    let items = name_values(alloc, names)?;
    if MOST_NAMES < items.len() {
        return Err(Memory);
    }
    let bounds = List::from_slice(alloc, &[(items.len() as i64 - 1) as i32])?;
    Ok(Value::Arr(Array {
        bounds,
        fixed: false,
        items,
    }))
}

/// What is said when a member is asked, or when the call that it wanted has its reply.
fn said<I: Intrinsics>(
    env: &mut I,
    member: Member,
    arguments: &[Value],
    reply: Option<AppReply>,
) -> Result<Given, AskStop>
    ensures { Runs result stops env.new (spec.said (host I.asked I.answered) member arguments.now reply env.old) }
{
    match reply {
        None => env.ask(member, arguments),
        Some(reply) => env.answer(member, arguments, reply),
    }
}

/// One question: a member is asked, or goes on with the reply to the call that it wanted.
pub fn question<I: Intrinsics>(
    alloc: Global,
    env: &mut I,
    member: Member,
    arguments: &[Value],
    reply: Option<AppReply>,
) -> Result<Answer, Stop>
    ensures { Ran (spec.question (host I.asked I.answered) member arguments.now reply env.old) result env.new }
{
    match said(env, member, arguments, reply) {
        Ok(Given::Value(value)) => Ok(Answer::Value(value)),
        Ok(Given::Names(names)) => Ok(Answer::Value(names_array(alloc, names.as_slice())?)),
        Ok(Given::Call(call)) => Ok(Answer::Call(call)),
        Err(why) => Err(Stop::from(why)),
    }
}

/// A question, and those that follow it: each call that it wants takes the next reply.
#[cycle(answering)]
fn answered<I: Intrinsics>(
    alloc: Global,
    playing: &mut Playing<'_>,
    env: &mut I,
    member: Member,
    arguments: &[Value],
    reply: Option<AppReply>,
) -> Result<Value, Stop>
    ensures { Ran (spec.replied (host I.asked I.answered) member arguments.now (shown playing.old.world)
        playing.old.ticks playing.old.replies.now
        (spec.question (host I.asked I.answered) member arguments.now reply env.old)) result
        (seen playing.new env.new) }
{
    match question(alloc, env, member, arguments, reply)? {
        Answer::Value(value) => Ok(value),
        Answer::Call(call) => match playing.replies {
            [] => Err(Stop::Wants(call)),
            [next, rest @ ..] => {
                let next = copy_reply(alloc, next)?;
                playing.replies = rest;
                answered(alloc, playing, env, member, arguments, Some(next))
            }
        },
    }
}

/// Asks for a member of the page's objects with these arguments. Each call of the Application object that it wants takes
/// the next reply.
#[tactic(auto, unfolding(vb_meaning::specs::Asking::ask))]
pub fn ask<I: Intrinsics>(
    alloc: Global,
    playing: &mut Playing<'_>,
    env: &mut I,
    member: Member,
    arguments: &[Value],
) -> Result<Value, Stop>
    ensures { Ran (spec.ask (host I.asked I.answered) member arguments.now (seen playing.old env.old))
        result (seen playing.new env.new) }
{
    answered(alloc, playing, env, member, arguments, None)
}

/// Whether a member of the page's objects takes so many arguments.
pub fn is_taken(takes: Takes, count: usize) -> bool
    ensures { result ≡ reading.is_taken takes count }
{
    takes.fewest as usize <= count && count <= takes.most as usize
}
