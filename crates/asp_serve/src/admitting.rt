//! Requests as jobs of the host.
#![tactic(auto)]

ghost use Rattle.std.specs.Prelude.{◌≡◌, ℕ, ◌<◌, ◌^◌, true, IfNone, IfSome};
ghost use Rattle.asp_job.specs.declared.request.Request as request;
ghost use Rattle.asp_job.specs.Running.{is_page};
ghost use Rattle.asp_job.specs.Size.{IsSmall, request_size};
ghost use Rattle.asp_desk.specs.Hands.{IsHandOf, rules_at};
ghost use Rattle.asp_serve.specs.Jobs as jobs;
ghost use Rattle.asp_serve.specs.Steps as spec;

use crate::ending::LinkEnd;
use crate::working::{rest, work};
use asp_core::{AdmitStop, Admitted};
use asp_desk::{Gate, Hand, Host, Rung};
use asp_io::Clock;
use asp_job::{Asked, Job, Request, Runner, Work};
use std::sync::Wait;

/// The request as it is asked for: the last that a connection takes ends it.
pub fn closing(mut request: Request, last: bool) -> Request
    ensures { result ≡ jobs.closing last request }
{
    if last {
        request.close = true;
    }
    request
}

/// The job of a request, asked by its cookie.
pub fn job_for(request: Request, second: u64) -> Job
    ensures { result ≡ jobs.job_for request second }
{
    Job {
        work: Work::Page(request),
        moment: second,
        asked: Asked::Cookie,
    }
}

/// Asks the host to take the job. What comes of it, unless too many runs wait.
fn ask<Rt: Wait, R: Runner>(
    rt: &Rt,
    host: &Host<R>,
    hand: &mut Hand<R>,
    job: &Job,
) -> Option<Result<Admitted, LinkEnd>>
    requires hand { IsHandOf R.meaning R.stands host.now hand.old }
    requires page { is_page job.now.work ≡ true }
    requires small { IsSmall job.now }
    ensures hand { IsHandOf R.meaning R.stands host.now hand.new }
    ensures again { IfNone result (spec.Works hand.old.lane hand.new.lane) }
    ensures comes { IfSome result (λ asked. (request : request.Request)
        → job.now ≡ jobs.job_for request job.now.moment
        → spec.Asks (rules_at R.meaning host.now) (λ second. second ≡ job.now.moment) request
        hand.old.lane asked hand.new.lane) }
{
    match host.admit(rt, hand, job) {
        Ok(told) => Some(Ok(told)),
        Err(AdmitStop::WaitingFull) => None,
        Err(AdmitStop::Stopping) => Some(Err(LinkEnd::Drained)),
        Err(AdmitStop::JournalFull(full)) => Some(Err(LinkEnd::JournalFull(full))),
        Err(AdmitStop::Memory) => Some(Err(LinkEnd::Memory)),
    }
}

/// A slice of work, or sleep where there is nothing to do. Why no more is to be done, if that is so.
fn work_on<Rt: Wait, R: Runner, G: Gate>(
    rt: &Rt,
    host: &Host<R>,
    hand: &mut Hand<R>,
    gate: &G,
    rung: Rung,
) -> Option<Result<Admitted, LinkEnd>>
    requires { IsHandOf R.meaning R.stands host.now hand.old }
    ensures hand { IsHandOf R.meaning R.stands host.now hand.new }
    ensures again { IfNone result (spec.Works hand.old.lane hand.new.lane) }
    ensures comes { (request : request.Request) (moment : ℕ) → IfSome result (λ asked.
        spec.Asks (rules_at R.meaning host.now) (λ second. second ≡ moment) request hand.old.lane asked hand.new.lane) }
{
    match work(rt, host, hand, gate) {
        Ok(idle) => match rest(rt, host, hand, idle, rung) {
            Ok(()) => None,
            Err(ended) => Some(Err(ended)),
        },
        Err(ended) => Some(Err(ended)),
    }
}

/// Asks the host to take the job, and works where too many runs wait. What comes of it, unless it is to be asked again.
fn ask_round<Rt: Wait, R: Runner, G: Gate>(
    rt: &Rt,
    host: &Host<R>,
    hand: &mut Hand<R>,
    gate: &G,
    job: &Job,
) -> Option<Result<Admitted, LinkEnd>>
    requires hand { IsHandOf R.meaning R.stands host.now hand.old }
    requires page { is_page job.now.work ≡ true }
    requires small { IsSmall job.now }
    ensures hand { IsHandOf R.meaning R.stands host.now hand.new }
    ensures again { IfNone result (spec.Works hand.old.lane hand.new.lane) }
    ensures comes { (request : request.Request) → job.now ≡ jobs.job_for request job.now.moment
        → IfSome result (λ asked. spec.Asks (rules_at R.meaning host.now) (λ second. second ≡ job.now.moment) request
        hand.old.lane asked hand.new.lane) }
{
    let rung = host.rung();
    match ask(rt, host, hand, job) {
        Some(asked) => Some(asked),
        None => work_on(rt, host, hand, gate, rung),
    }
}

/// Brings the request to the host as a job, at a second of the clock. While too many runs wait it works.
pub fn admit<Rt: Wait, R: Runner, C: Clock, G: Gate>(
    rt: &Rt,
    host: &Host<R>,
    hand: &mut Hand<R>,
    clock: &C,
    gate: &G,
    request: Request,
) -> Result<Admitted, LinkEnd>
    requires hand { IsHandOf R.meaning R.stands host.now hand.old }
    requires small { request_size request < 2 ^ 24 }
    ensures hand { IsHandOf R.meaning R.stands host.now hand.new }
    ensures comes { spec.Asks (rules_at R.meaning host.now) (C.may_give clock.now) request
        hand.old.lane result hand.new.lane }
{
    let job = job_for(request, clock.seconds());
    for _ in rt.forever() {
        if let Some(asked) = ask_round(rt, host, hand, gate, &job) {
            return asked;
        }
    }
    unreachable!()
}
