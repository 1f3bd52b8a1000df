//! What entries weigh.
#![tactic(auto)]

ghost use Rattle.std.specs.Prelude.{◌≡◌, ◌≤◌, ◌+◌, ◌-◌, ◌^◌, min, sum_by};
ghost use Rattle.asp_job.specs.History as history;

use asp_job::{Header, Request, What, Work};
use vb_value::{AppCall, AppReply, List, Text, weight};

fn characters_weight(text: &Text) -> u64
    ensures { result ≡ min (history.characters_weight text.now) (2 ^ 64 - 1) }
{
    (text.len() as u64).saturating_mul(4)
}

fn name_weight(name: &Text) -> u64
    ensures { result ≡ min (history.name_weight name.now) (2 ^ 64 - 1) }
{
    characters_weight(name).saturating_add(32)
}

fn header_weight(header: &Header) -> u64
    ensures { result ≡ min (history.header_weight header.now) (2 ^ 64 - 1) }
{
    characters_weight(&header.name).saturating_add(header.value.len() as u64)
}

#[tactic(auto, using(crate::proofs::Past::sum_more))]
fn headers_weight(headers: &[Header]) -> u64
    ensures { result ≡ min (sum_by history.header_weight headers.now) (2 ^ 64 - 1) }
{
    let mut total: u64 = 0;
    for header in headers {
        total = total.saturating_add(header_weight(header));
    }
    total
}

fn request_weight(request: &Request) -> u64
    ensures { result ≡ min (history.request_weight request.now) (2 ^ 64 - 1) }
{
    characters_weight(&request.path)
        .saturating_add(request.query.len() as u64)
        .saturating_add(headers_weight(request.headers.as_slice()))
        .saturating_add(request.body.len() as u64)
}

/// What the request of a job weighs. 2^64 - 1 stands for a greater weight, here and in the next ones.
pub fn work_weight(work: &Work) -> u64
    ensures { result ≡ min (history.work_weight work.now) (2 ^ 64 - 1) }
{
    match work {
        Work::Page(request) => request_weight(request),
        _ => 0,
    }
}

/// What the names and the values of a call weigh.
pub fn call_weight(call: &AppCall) -> u64
    ensures { result ≡ min (history.call_weight call.now) (2 ^ 64 - 1) }
{
    match call {
        AppCall::Get(name) | AppCall::Remove(name) => name_weight(name),
        AppCall::Put(name, value) => name_weight(name).saturating_add(weight(value)),
        _ => 0,
    }
}

#[tactic(auto, using(crate::proofs::Past::sum_more))]
fn names_weight(names: &[Text]) -> u64
    ensures { result ≡ min (sum_by history.name_weight names.now) (2 ^ 64 - 1) }
{
    let mut total: u64 = 0;
    for name in names {
        total = total.saturating_add(name_weight(name));
    }
    total
}

/// What the names and the values of a reply weigh.
pub fn reply_weight(reply: &AppReply) -> u64
    ensures { result ≡ min (history.reply_weight reply.now) (2 ^ 64 - 1) }
{
    match reply {
        AppReply::Value(value) => weight(value),
        AppReply::Name(name) => name_weight(name),
        AppReply::Names(names) => names_weight(names.as_slice()),
        _ => 0,
    }
}

/// What an entry weighs.
pub fn what_weight(what: &What) -> u64
    ensures { result ≡ min (history.what_weight what.now) (2 ^ 64 - 1) }
{
    match what {
        What::Admit { job, .. } | What::Refuse { job, .. } => work_weight(&job.work).saturating_add(
            64,
        ),
        What::App { call, reply, .. } => call_weight(call)
            .saturating_add(reply_weight(reply))
            .saturating_add(64),
        What::Take { .. } | What::Halt => 0,
        _ => 64,
    }
}
