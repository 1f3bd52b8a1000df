//! Calls of the Application object and their replies, read.
ghost use Rattle.std.specs.Prelude.{◌≡◌, IfOk, codes, length};
ghost use Rattle.vb_value.specs.declared.application.AppCall.TheVariants as call;
ghost use Rattle.asp_record.specs.Fields.{Reads};
ghost use Rattle.asp_record.specs.ReadingLines as spec;
ghost use Rattle.asp_record.specs.ReadingValues as values;

use crate::array_reading::value_at;
use crate::scanning::behind;
use crate::value_reading::{long_at, name_at};
use std::alloc::Global;
use vb_value::{AppCall, AppReply, List, MOST_DEPTH, Memory, Text};

#[tactic(auto, unfolding(crate::specs::ReadingLines::named_at))]
fn get_at(alloc: Global, bytes: &[u8]) -> Result<Option<(AppCall, &[u8])>, Memory>
    ensures { IfOk result (λ found. Reads (λ read. (read.0, read.1.now)) found (spec.named_at call.Get bytes.now)) }
{
    let Some((name, rest)) = name_at(alloc, bytes)? else {
        return Ok(None);
    };
    Ok(Some((AppCall::Get(name), rest)))
}

#[tactic(auto, unfolding(crate::specs::ReadingLines::named_at))]
fn remove_at(alloc: Global, bytes: &[u8]) -> Result<Option<(AppCall, &[u8])>, Memory>
    ensures { IfOk result (λ found. Reads (λ read. (read.0, read.1.now)) found (spec.named_at call.Remove bytes.now)) }
{
    let Some((name, rest)) = name_at(alloc, bytes)? else {
        return Ok(None);
    };
    Ok(Some((AppCall::Remove(name), rest)))
}

#[tactic(auto, unfolding(crate::specs::ReadingLines::put_at))]
fn put_at(alloc: Global, bytes: &[u8]) -> Result<Option<(AppCall, &[u8])>, Memory>
    ensures { IfOk result (λ found. Reads (λ read. (read.0, read.1.now)) found (spec.put_at bytes.now)) }
{
    let Some((name, rest)) = name_at(alloc, bytes)? else {
        return Ok(None);
    };
    let Some(rest) = behind(b" ", rest) else {
        return Ok(None);
    };
    let Some((value, rest)) = value_at(alloc, MOST_DEPTH, rest)? else {
        return Ok(None);
    };
    Ok(Some((AppCall::Put(name, value), rest)))
}

#[tactic(auto, unfolding(crate::specs::ReadingLines::key_at))]
fn key_at(bytes: &[u8]) -> Option<(AppCall, &[u8])>
    ensures { Reads (λ read. (read.0, read.1.now)) result (spec.key_at bytes.now) }
{
    let (place, rest) = long_at(bytes)?;
    Some((AppCall::KeyAt(place), rest))
}

/// A call of one word.
#[tactic(auto, unfolding(crate::specs::ReadingLines::word_call_at))]
fn word_call_at(bytes: &[u8]) -> Option<(AppCall, &[u8])>
    ensures { Reads (λ read. (read.0, read.1.now)) result (spec.word_call_at bytes.now) }
{
    if let Some(rest) = behind(b"removeall", bytes) {
        return Some((AppCall::RemoveAll, rest));
    }
    if let Some(rest) = behind(b"count", bytes) {
        return Some((AppCall::Count, rest));
    }
    if let Some(rest) = behind(b"names", bytes) {
        return Some((AppCall::Names, rest));
    }
    if let Some(rest) = behind(b"lock", bytes) {
        return Some((AppCall::Lock, rest));
    }
    match behind(b"unlock", bytes) {
        Some(rest) => Some((AppCall::Unlock, rest)),
        None => None,
    }
}

/// The call at the front of bytes.
#[tactic(auto, unfolding(crate::specs::ReadingLines::call_at))]
pub fn call_at(alloc: Global, bytes: &[u8]) -> Result<Option<(AppCall, &[u8])>, Memory>
    ensures { IfOk result (λ found. Reads (λ read. (read.0, read.1.now)) found (spec.call_at bytes.now)) }
{
    if let Some(rest) = behind(b"get ", bytes) {
        return get_at(alloc, rest);
    }
    if let Some(rest) = behind(b"put ", bytes) {
        return put_at(alloc, rest);
    }
    if let Some(rest) = behind(b"remove ", bytes) {
        return remove_at(alloc, rest);
    }
    match behind(b"keyat ", bytes) {
        Some(rest) => Ok(key_at(rest)),
        None => Ok(word_call_at(bytes)),
    }
}

/// Names with `,` between them, up to the end of the line.
fn more_names_at(alloc: Global, bytes: &[u8]) -> Result<Option<(List<Text>, &[u8])>, Memory>
    ensures { IfOk result (λ found. Reads (λ read. (read.0, read.1.now)) found
        (values.more_at values.name_at (codes "\n") (length bytes.now) bytes.now)) }
{
    let mut names = List::new(alloc);
    let mut rest = bytes;
    for count in 0..bytes.len() {
        let Some((name, after)) = name_at(alloc, rest)? else {
            return Ok(None);
        };
        names.push(name)?;
        if let Some(end) = behind(b"\n", after) {
            return Ok(Some((names, end)));
        }
        let Some(next) = behind(b",", after) else {
            return Ok(None);
        };
        rest = next;
    }
    Ok(None)
}

/// The names behind the word `names`, and the end of the line.
#[tactic(auto, unfolding(crate::specs::ReadingLines::names_at))]
fn names_at(alloc: Global, bytes: &[u8]) -> Result<Option<(AppReply, &[u8])>, Memory>
    ensures { IfOk result (λ found. Reads (λ read. (read.0, read.1.now)) found (spec.names_at bytes.now)) }
{
    if let Some(rest) = behind(b"\n", bytes) {
        return Ok(Some((AppReply::Names(List::new(alloc)), rest)));
    }
    let Some(rest) = behind(b" ", bytes) else {
        return Ok(None);
    };
    let Some((names, rest)) = more_names_at(alloc, rest)? else {
        return Ok(None);
    };
    Ok(Some((AppReply::Names(names), rest)))
}

#[tactic(auto, unfolding(crate::specs::ReadingLines::number_reply_at))]
fn number_reply_at(bytes: &[u8]) -> Option<(AppReply, &[u8])>
    ensures { Reads (λ read. (read.0, read.1.now)) result (spec.number_reply_at bytes.now) }
{
    let (number, rest) = long_at(bytes)?;
    let rest = behind(b"\n", rest)?;
    Some((AppReply::Number(number), rest))
}

#[tactic(auto, unfolding(crate::specs::ReadingLines::name_reply_at))]
fn name_reply_at(alloc: Global, bytes: &[u8]) -> Result<Option<(AppReply, &[u8])>, Memory>
    ensures { IfOk result (λ found. Reads (λ read. (read.0, read.1.now)) found (spec.name_reply_at bytes.now)) }
{
    let Some((name, rest)) = name_at(alloc, bytes)? else {
        return Ok(None);
    };
    let Some(rest) = behind(b"\n", rest) else {
        return Ok(None);
    };
    Ok(Some((AppReply::Name(name), rest)))
}

#[tactic(auto, unfolding(crate::specs::ReadingLines::value_reply_at))]
fn value_reply_at(alloc: Global, bytes: &[u8]) -> Result<Option<(AppReply, &[u8])>, Memory>
    ensures { IfOk result (λ found. Reads (λ read. (read.0, read.1.now)) found (spec.value_reply_at bytes.now)) }
{
    let Some((value, rest)) = value_at(alloc, MOST_DEPTH, bytes)? else {
        return Ok(None);
    };
    let Some(rest) = behind(b"\n", rest) else {
        return Ok(None);
    };
    Ok(Some((AppReply::Value(value), rest)))
}

/// A reply of one word, or a value.
#[tactic(auto, unfolding(crate::specs::ReadingLines::word_reply_at))]
fn word_reply_at(alloc: Global, bytes: &[u8]) -> Result<Option<(AppReply, &[u8])>, Memory>
    ensures { IfOk result (λ found. Reads (λ read. (read.0, read.1.now)) found (spec.word_reply_at bytes.now)) }
{
    if let Some(rest) = behind(b"noname\n", bytes) {
        return Ok(Some((AppReply::NoName, rest)));
    }
    if let Some(rest) = behind(b"done\n", bytes) {
        return Ok(Some((AppReply::Done, rest)));
    }
    match behind(b"full\n", bytes) {
        Some(rest) => Ok(Some((AppReply::Full, rest))),
        None => value_reply_at(alloc, bytes),
    }
}

/// The reply at the front of bytes, and the end of the line behind it.
#[tactic(auto, unfolding(crate::specs::ReadingLines::reply_at))]
pub fn reply_at(alloc: Global, bytes: &[u8]) -> Result<Option<(AppReply, &[u8])>, Memory>
    ensures { IfOk result (λ found. Reads (λ read. (read.0, read.1.now)) found (spec.reply_at bytes.now)) }
{
    if let Some(rest) = behind(b"number ", bytes) {
        return Ok(number_reply_at(rest));
    }
    if let Some(rest) = behind(b"name ", bytes) {
        return name_reply_at(alloc, rest);
    }
    match behind(b"names", bytes) {
        Some(rest) => names_at(alloc, rest),
        None => word_reply_at(alloc, bytes),
    }
}
