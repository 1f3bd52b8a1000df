//! What a run does.
ghost use Rattle.std.specs.Prelude.{◌≡◌, IfOk, None, Some};
ghost use Rattle.std.specs.Option.{option_copied};
ghost use Rattle.vb_value.specs.Outcome.{Gives};
ghost use Rattle.asp_acts.specs.Pages.{request_work as request_work_of};
ghost use Rattle.asp_acts.specs.Events as events;
ghost use Rattle.asp_acts.specs.Running as spec;
ghost use Rattle.asp_run.specs.Stands.{outcome_of, told_of};

use crate::acting::event;
use crate::course::course_of;
use crate::ended::{Came, Ended};
use crate::file::{copy_kept, file_work, missing_work};
use crate::page::{page_takes, page_work};
use crate::run::PlainRun;
use crate::text::ascii;
use asp_acts::{Course, Way};
use asp_job::{Job, Request, Verb, Work};
use asp_objects::{HeldSession, PageObjects};
use asp_site::{Found, Site, find};
use std::alloc::Global;
use vb_value::{List, Memory};

fn request_work(
    alloc: Global,
    site: &Site,
    run: &PlainRun,
    request: &Request,
) -> Result<Came, Memory>
    requires { run.now.heard ≡ None }
    ensures { IfOk result (λ came. outcome_of came ≡ request_work_of site.now (told_of run.now) request.now) }
{
    match find(site, &request.path) {
        Found::Page(page) => page_work(alloc, site, run, request, page),
        Found::Static(file) => Ok(Came::Ends(file_work(alloc, run, request, file)?)),
        Found::Missing => Ok(Came::Ends(missing_work(alloc, run, request)?)),
    }
}

fn no_request(alloc: Global) -> Result<Request, Memory>
    ensures { Gives result events.no_request }
{
    Ok(Request {
        verb: Verb::Get,
        path: ascii(alloc, b"/global.asa")?,
        query: List::new(alloc),
        minor: 1,
        headers: List::new(alloc),
        body: List::new(alloc),
        close: false,
    })
}

fn event_objects(alloc: Global, session: Option<HeldSession>) -> Result<PageObjects, Memory>
    ensures { Gives result (events.event_objects session) }
{
    let request = no_request(alloc)?;
    let path = ascii(alloc, b"/global.asa")?;
    Ok(PageObjects::new(alloc, request, path, session)?.outside_page())
}

fn event_ended(session: Option<HeldSession>, course: Course) -> Ended
    ensures { result ≡ events.event_ended session course }
{
    let Course {
        objects: _objects,
        tally,
    } = course;
    Ended::of(None, session, tally.fail, tally.made, tally.finished)
}

fn event_came(session: Option<HeldSession>, way: Way) -> Came
    ensures { outcome_of result ≡ events.event_came session way }
{
    match way {
        Way::Wants(call) => Came::Wants(call),
        Way::On(course) => Came::Ends(event_ended(session, course)),
    }
}

fn application_event(
    alloc: Global,
    site: &Site,
    run: &PlainRun,
    word: &[u8],
) -> Result<Came, Memory>
    requires { run.now.heard ≡ None }
    ensures { IfOk result (λ came. outcome_of came ≡ events.application_event site.now (told_of run.now) word.now) }
{
    let session = copy_kept(alloc, run.session.as_ref())?;
    let course = course_of(event_objects(alloc, None)?);
    let replies = run.replies.as_slice();
    let way = event(alloc, replies, site.events.as_ref(), word, course)?;
    Ok(event_came(session, way))
}

fn session_end(
    alloc: Global,
    site: &Site,
    run: &PlainRun,
    session: Option<&HeldSession>,
) -> Result<Came, Memory>
    requires { run.now.heard ≡ None }
    ensures { IfOk result (λ came. outcome_of came
        ≡ events.session_end site.now (told_of run.now) (option_copied session.entry)) }
{
    match session {
        Some(session) => {
            let held = session.copy(alloc)?;
            let course = course_of(event_objects(alloc, Some(held))?);
            let replies = run.replies.as_slice();
            let page = site.events.as_ref();
            let way = event(alloc, replies, page, b"Session_OnEnd", course)?;
            Ok(event_came(None, way))
        }
        None => Ok(Came::Ends(Ended::of(None, None, None, 0, 0))),
    }
}

/// What a run comes to that was told all that it keeps.
pub(crate) fn work_of(alloc: Global, site: &Site, run: &PlainRun) -> Result<Came, Memory>
    requires { run.now.heard ≡ None }
    ensures { IfOk result (λ came. outcome_of came ≡ spec.work_of site.now (told_of run.now) run.now.job.work) }
{
    match &run.job.work {
        Work::Page(request) => request_work(alloc, site, run, request),
        Work::Start => application_event(alloc, site, run, b"Application_OnStart"),
        Work::SessionEnd => session_end(alloc, site, run, run.session.as_ref()),
        Work::Stop => application_event(alloc, site, run, b"Application_OnEnd"),
    }
}

fn is_keyed_request(site: &Site, request: &Request) -> bool
    ensures { result ≡ spec.keyed_request site.now request.now }
{
    match find(site, &request.path) {
        Found::Page(page) => page.session && page_takes(request.verb),
        Found::Static(_) | Found::Missing => false,
    }
}

/// Whether a job has a session.
#[tactic(auto, unfolding(asp_acts::specs::Running::is_keyed))]
pub(crate) fn is_keyed(site: &Site, job: &Job) -> bool
    ensures { result ≡ spec.is_keyed site.now job.now }
{
    match &job.work {
        Work::Page(request) => is_keyed_request(site, request),
        Work::Start | Work::SessionEnd | Work::Stop => false,
    }
}
