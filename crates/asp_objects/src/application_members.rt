//! The members of Application.
ghost use Rattle.std.specs.Prelude.{◌≡◌, IfOk, IsTrue};
ghost use Rattle.vb_value.specs.Outcome.{Answers};
ghost use Rattle.asp_job.specs.Calls.{IsAppCall, IsName};
ghost use Rattle.asp_objects.specs.ApplicationMembers as spec;
ghost use Rattle.asp_objects.specs.Choosing as choosing;
ghost use Rattle.asp_objects.specs.Given as given;

use crate::choosing::{Chosen, choose, is_shared, shared};
use crate::given::{failed, long_in};
use std::alloc::Global;
use vb_syntax::{AskStop, ContentsPart, Given, Member};
use vb_value::{AppCall, AppReply, LimitKind, Memory, Text, Value, VbError, fold};

fn get_call(which: Chosen) -> AppCall
    ensures { result ≡ spec.get_call which }
{
    match which {
        Chosen::Name(name) => AppCall::Get(name),
        Chosen::Place(place) => AppCall::KeyAt(place),
    }
}

fn put_call(value: Value, which: Chosen) -> AppCall
    ensures { result ≡ spec.put_call value which }
{
    match which {
        Chosen::Name(name) => AppCall::Put(name, value),
        Chosen::Place(place) => AppCall::KeyAt(place),
    }
}

fn remove_call(which: Chosen) -> AppCall
    ensures { result ≡ spec.remove_call which }
{
    match which {
        Chosen::Name(name) => AppCall::Remove(name),
        Chosen::Place(place) => AppCall::KeyAt(place),
    }
}

fn read(alloc: Global, key: &Value) -> Result<Given, AskStop>
    ensures { Answers result AskStop.Memory
        (given.and_then (choosing.chosen key.now) (λ which. spec.wants (spec.get_call which))) }
{
    let which = choose(alloc, key)?;
    Ok(Given::Call(get_call(which)))
}

fn write(alloc: Global, key: &Value, what: &Value) -> Result<Given, AskStop>
    ensures { Answers result AskStop.Memory (given.and_then (choosing.chosen key.now) (λ which.
        given.and_then (choosing.shared what.now) (λ kept. spec.wants (spec.put_call kept which)))) }
{
    let which = choose(alloc, key)?;
    let value = shared(alloc, what)?;
    Ok(Given::Call(put_call(value, which)))
}

fn remove(alloc: Global, key: &Value) -> Result<Given, AskStop>
    ensures { Answers result AskStop.Memory
        (given.and_then (choosing.chosen key.now) (λ which. spec.wants (spec.remove_call which))) }
{
    let which = choose(alloc, key)?;
    Ok(Given::Call(remove_call(which)))
}

fn key_at(index: &Value) -> Result<Given, AskStop>
    ensures { Answers result AskStop.Memory
        (given.and_then (given.long_in index.now) (λ place. spec.wants (AppCall.KeyAt place))) }
{
    let place = long_in(index)?;
    Ok(Given::Call(AppCall::KeyAt(place)))
}

/// What Contents wants.
#[tactic(auto, unfolding(crate::specs::ApplicationMembers::contents_asked))]
pub(crate) fn contents_asked(
    alloc: Global,
    part: ContentsPart,
    arguments: &[Value],
) -> Result<Given, AskStop>
    ensures { Answers result AskStop.Memory (spec.contents_asked part arguments.now) }
{
    match (part, arguments) {
        (ContentsPart::Item, [key]) => read(alloc, key),
        (ContentsPart::Item, [key, what]) => write(alloc, key, what),
        (ContentsPart::Count, []) => Ok(Given::Call(AppCall::Count)),
        (ContentsPart::Key, [index]) => key_at(index),
        (ContentsPart::Remove, [key]) => remove(alloc, key),
        (ContentsPart::RemoveAll, []) => Ok(Given::Call(AppCall::RemoveAll)),
        (ContentsPart::Names, []) => Ok(Given::Call(AppCall::Names)),
        _ => Err(failed(VbError::OBJECT_REQUIRED)),
    }
}

/// What a reply gives that is no entry, no number and no names.
fn closed(reply: AppReply) -> Result<Given, AskStop>
    ensures { result ≡ spec.closed reply }
{
    match reply {
        AppReply::Done => Ok(Given::Value(Value::Empty)),
        AppReply::NoName => Err(failed(VbError::OUT_OF_RANGE)),
        AppReply::Full => Err(AskStop::Limit(LimitKind::Application)),
        _ => Err(failed(VbError::OBJECT_REQUIRED)),
    }
}

fn read_answer(reply: AppReply) -> Result<Given, AskStop>
    ensures { result ≡ spec.read_answer reply }
{
    match reply {
        AppReply::Value(value) => Ok(Given::Value(value)),
        AppReply::Name(name) => Ok(Given::Call(AppCall::Get(name))),
        other => closed(other),
    }
}

fn written_answer(alloc: Global, what: &Value, reply: AppReply) -> Result<Given, AskStop>
    ensures { Answers result AskStop.Memory (spec.written_answer what.now reply) }
{
    match reply {
        AppReply::Name(name) => {
            let value = shared(alloc, what)?;
            Ok(Given::Call(AppCall::Put(name, value)))
        }
        other => closed(other),
    }
}

fn removed_answer(reply: AppReply) -> Result<Given, AskStop>
    ensures { result ≡ spec.removed_answer reply }
{
    match reply {
        AppReply::Name(name) => Ok(Given::Call(AppCall::Remove(name))),
        other => closed(other),
    }
}

fn count_answer(reply: AppReply) -> Result<Given, AskStop>
    ensures { result ≡ spec.count_answer reply }
{
    match reply {
        AppReply::Number(number) => Ok(Given::Value(Value::Long(number))),
        other => closed(other),
    }
}

fn key_answer(reply: AppReply) -> Result<Given, AskStop>
    ensures { result ≡ spec.key_answer reply }
{
    match reply {
        AppReply::Name(name) => Ok(Given::Value(Value::Str(name))),
        other => closed(other),
    }
}

fn names_answer(reply: AppReply) -> Result<Given, AskStop>
    ensures { result ≡ spec.names_answer reply }
{
    match reply {
        AppReply::Names(names) => Ok(Given::Names(names)),
        other => closed(other),
    }
}

/// What Contents says once a call has its reply.
#[tactic(auto, unfolding(crate::specs::ApplicationMembers::contents_answered))]
fn contents_answered(
    alloc: Global,
    part: ContentsPart,
    arguments: &[Value],
    reply: AppReply,
) -> Result<Given, AskStop>
    ensures { Answers result AskStop.Memory (spec.contents_answered part arguments.now reply) }
{
    match (part, arguments) {
        (ContentsPart::Item, [_]) => read_answer(reply),
        (ContentsPart::Item, [_, what]) => written_answer(alloc, what, reply),
        (ContentsPart::Count, []) => count_answer(reply),
        (ContentsPart::Key, [_]) => key_answer(reply),
        (ContentsPart::Remove, [_]) => removed_answer(reply),
        (ContentsPart::RemoveAll, []) => closed(reply),
        (ContentsPart::Names, []) => names_answer(reply),
        _ => Err(failed(VbError::OBJECT_REQUIRED)),
    }
}

/// What a member says once a call has its reply.
pub(crate) fn reply_answer(
    alloc: Global,
    member: Member,
    arguments: &[Value],
    reply: AppReply,
) -> Result<Given, AskStop>
    ensures { Answers result AskStop.Memory (spec.reply_answer member arguments.now reply) }
{
    match member {
        Member::ApplicationContents(part) => contents_answered(alloc, part, arguments, reply),
        Member::ApplicationLock | Member::ApplicationUnlock => closed(reply),
        _ => Err(failed(VbError::OBJECT_REQUIRED)),
    }
}

fn is_folded(alloc: Global, name: &Text) -> Result<bool, Memory>
    ensures { IfOk result (λ folded. IsTrue folded → IsName name.now) }
{
    let folded = fold(alloc, name)?;
    Ok(folded.as_slice() == name.as_slice())
}

/// Whether a run may make a call: its names are folded, and runs may share the value that it puts.
#[tactic(auto, using(crate::proofs::Sharing::shared_may))]
pub fn may_call(alloc: Global, call: &AppCall) -> Result<bool, Memory>
    ensures { IfOk result (λ may. IsTrue may → IsAppCall call.now) }
{
    match call {
        AppCall::Get(name) | AppCall::Remove(name) => is_folded(alloc, name),
        AppCall::Put(name, value) => Ok(is_folded(alloc, name)? && is_shared(value)),
        _ => Ok(true),
    }
}
