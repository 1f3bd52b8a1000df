//! Copies of requests, jobs, sessions, calls and replies.
ghost use Rattle.std.specs.Prelude.{◌≡◌};
ghost use Rattle.vb_value.specs.Outcome.{Gives};

use crate::job::{Job, Work};
use crate::request::{Header, Request};
use crate::session::{Named, SessionState};
use std::alloc::Global;
use vb_value::{AppCall, AppReply, Copied, List, Memory, Pair, SessDict, copy};

impl Copied for Header {
    fn copy(&self) -> Result<Header, Memory> {
        Ok(Header {
            name: self.name.copy()?,
            value: self.value.copy()?,
        })
    }
}

impl Copied for Request {
    fn copy(&self) -> Result<Request, Memory> {
        Ok(Request {
            verb: self.verb,
            path: self.path.copy()?,
            query: self.query.copy()?,
            minor: self.minor,
            headers: self.headers.copy()?,
            body: self.body.copy()?,
            close: self.close,
        })
    }
}

impl Copied for Work {
    fn copy(&self) -> Result<Work, Memory> {
        match self {
            Work::Page(request) => Ok(Work::Page(request.copy()?)),
            Work::Start => Ok(Work::Start),
            Work::SessionEnd => Ok(Work::SessionEnd),
            Work::Stop => Ok(Work::Stop),
        }
    }
}

impl Copied for Job {
    fn copy(&self) -> Result<Job, Memory> {
        Ok(Job {
            work: self.work.copy()?,
            moment: self.moment,
            asked: self.asked,
        })
    }
}

impl Copied for Named {
    fn copy(&self) -> Result<Named, Memory> {
        Ok(Named {
            name: self.name.copy()?,
            value: copy(*self.name.allocator(), &self.value)?,
        })
    }
}

fn copy_pair(alloc: Global, pair: &Pair) -> Result<Pair, Memory>
    ensures { Gives result pair.now }
{
    Ok(Pair {
        key: copy(alloc, &pair.key)?,
        item: copy(alloc, &pair.item)?,
    })
}

fn copy_dictionary(alloc: Global, dictionary: &SessDict) -> Result<SessDict, Memory>
    ensures { Gives result dictionary.now }
{
    let mut pairs = List::with_capacity(alloc, dictionary.pairs.len())?;
    for pair in dictionary.pairs.as_slice() {
        pairs.push(copy_pair(alloc, pair)?)?;
    }
    Ok(SessDict {
        mode: dictionary.mode,
        pairs,
    })
}

fn copy_dictionaries(alloc: Global, dictionaries: &[SessDict]) -> Result<List<SessDict>, Memory>
    ensures { Gives result dictionaries.now }
{
    let mut copies = List::with_capacity(alloc, dictionaries.len())?;
    for dictionary in dictionaries {
        copies.push(copy_dictionary(alloc, dictionary)?)?;
    }
    Ok(copies)
}

/// The same session once more.
pub fn copy_session(alloc: Global, session: &SessionState) -> Result<SessionState, Memory>
    ensures { Gives result session.now }
{
    Ok(SessionState {
        serial: session.serial,
        timeout: session.timeout,
        values: session.values.copy()?,
        dicts: copy_dictionaries(alloc, session.dicts.as_slice())?,
    })
}

/// The same call once more.
pub fn copy_call(call: &AppCall) -> Result<AppCall, Memory>
    ensures { Gives result call.now }
{
    match call {
        AppCall::Get(name) => Ok(AppCall::Get(name.copy()?)),
        AppCall::Put(name, value) => {
            let value = copy(*name.allocator(), value)?;
            Ok(AppCall::Put(name.copy()?, value))
        }
        AppCall::Remove(name) => Ok(AppCall::Remove(name.copy()?)),
        AppCall::RemoveAll => Ok(AppCall::RemoveAll),
        AppCall::Count => Ok(AppCall::Count),
        AppCall::KeyAt(place) => Ok(AppCall::KeyAt(*place)),
        AppCall::Names => Ok(AppCall::Names),
        AppCall::Lock => Ok(AppCall::Lock),
        AppCall::Unlock => Ok(AppCall::Unlock),
    }
}

/// The same reply once more.
pub fn copy_reply(alloc: Global, reply: &AppReply) -> Result<AppReply, Memory>
    ensures { Gives result reply.now }
{
    match reply {
        AppReply::Value(value) => Ok(AppReply::Value(copy(alloc, value)?)),
        AppReply::Number(number) => Ok(AppReply::Number(*number)),
        AppReply::Name(name) => Ok(AppReply::Name(name.copy()?)),
        AppReply::NoName => Ok(AppReply::NoName),
        AppReply::Names(names) => Ok(AppReply::Names(names.copy()?)),
        AppReply::Done => Ok(AppReply::Done),
        AppReply::Full => Ok(AppReply::Full),
    }
}
