//! The run of a page.
ghost use Rattle.std.specs.Prelude.{◌≡◌, IfOk, None, if◌then◌else◌};
ghost use Rattle.std.specs.Option.{option_copied};
ghost use Rattle.vb_value.specs.Outcome.{Gives};
ghost use Rattle.asp_acts.specs.Pages as spec;
ghost use Rattle.asp_run.specs.Stands.{outcome_of, told_of};

use crate::acting::page_acts;
use crate::course::course_of;
use crate::ended::{Came, Ended};
use crate::file::{copy_kept, is_head, refused_work};
use crate::run::PlainRun;
use asp_acts::{Course, Way};
use asp_job::{Request, Verb};
use asp_objects::{HeldSession, PageObjects};
use asp_response::Draft;
use asp_site::{Page, Site};
use std::alloc::Global;
use vb_value::{Copied, Memory};

/// Whether pages take the method.
pub(crate) fn page_takes(verb: Verb) -> bool
    ensures { result ≡ spec.page_takes verb }
{
    match verb {
        Verb::Get | Verb::Head | Verb::Post => true,
        Verb::Other => false,
    }
}

fn session_given(
    alloc: Global,
    page: &Page,
    session: Option<&HeldSession>,
) -> Result<Option<HeldSession>, Memory>
    ensures { Gives result (spec.session_given page.now (option_copied session.entry)) }
{
    if page.session {
        copy_kept(alloc, session)
    } else {
        Ok(None)
    }
}

fn session_kept(is_abandoned: bool, session: Option<HeldSession>) -> Option<HeldSession>
    ensures { result ≡ (if is_abandoned then None else session) }
{
    if is_abandoned { None } else { session }
}

fn session_left(
    alloc: Global,
    page: &Page,
    told: Option<&HeldSession>,
    is_abandoned: bool,
    session: Option<HeldSession>,
) -> Result<Option<HeldSession>, Memory>
    ensures { Gives result (if page.now.session then (if is_abandoned then None else session) else option_copied told.entry) }
{
    if page.session {
        Ok(session_kept(is_abandoned, session))
    } else {
        copy_kept(alloc, told)
    }
}

/// What is left of the objects of a page: its answer so far, and its session.
fn left_by(objects: PageObjects) -> (Draft, Option<HeldSession>)
    ensures draft { result.0 ≡ objects.draft }
    ensures session { result.1 ≡ objects.session }
{
    let PageObjects { draft, session, .. } = objects;
    (draft, session)
}

/// What a page leaves whose acts have ended.
fn page_ended(
    alloc: Global,
    run: &PlainRun,
    request: &Request,
    page: &Page,
    course: Course,
) -> Result<Ended, Memory>
    ensures { Gives result (spec.page_ended (told_of run.now) request.now page.now course) }
{
    let Course { objects, tally } = course;
    let is_abandoned = objects.is_abandoned;
    let (draft, session) = left_by(objects);
    let left = session_left(alloc, page, run.session.as_ref(), is_abandoned, session);
    let is_head = is_head(request.verb);
    let finished = draft.finish(
        run.cookie.as_ref(),
        tally.failure.as_ref(),
        is_head,
        request.close,
    );
    match (left, finished) {
        (Ok(session), Ok(answer)) => Ok(Ended::of(
            Some(answer),
            session,
            tally.fail,
            tally.made,
            tally.finished,
        )),
        (left, finished) => {
            drop(left);
            drop(finished);
            drop(tally);
            Err(Memory)
        }
    }
}

fn page_came(
    alloc: Global,
    run: &PlainRun,
    request: &Request,
    page: &Page,
    way: Way,
) -> Result<Came, Memory>
    ensures { IfOk result (λ came. outcome_of came ≡ spec.page_came (told_of run.now) request.now page.now way) }
{
    match way {
        Way::Wants(call) => Ok(Came::Wants(call)),
        Way::On(course) => Ok(Came::Ends(page_ended(alloc, run, request, page, course)?)),
    }
}

fn page_begins(
    alloc: Global,
    run: &PlainRun,
    request: &Request,
    page: &Page,
) -> Result<Course, Memory>
    ensures { Gives result (spec.page_begins (told_of run.now) request.now page.now) }
{
    let session = session_given(alloc, page, run.session.as_ref())?;
    let objects = PageObjects::new(alloc, request.copy()?, page.path.copy()?, session)?;
    Ok(course_of(objects))
}

fn page_run(
    alloc: Global,
    site: &Site,
    run: &PlainRun,
    request: &Request,
    page: &Page,
) -> Result<Came, Memory>
    requires { run.now.heard ≡ None }
    ensures { IfOk result (λ came. outcome_of came ≡ spec.page_run site.now (told_of run.now) request.now page.now) }
{
    let course = page_begins(alloc, run, request, page)?;
    let way = page_acts(alloc, site, run, page, course)?;
    page_came(alloc, run, request, page, way)
}

/// The run of a page that stands at the path of a request.
pub(crate) fn page_work(
    alloc: Global,
    site: &Site,
    run: &PlainRun,
    request: &Request,
    page: &Page,
) -> Result<Came, Memory>
    requires { run.now.heard ≡ None }
    ensures { IfOk result (λ came. outcome_of came ≡ spec.page_work site.now (told_of run.now) request.now page.now) }
{
    if page_takes(request.verb) {
        page_run(alloc, site, run, request, page)
    } else {
        Ok(Came::Ends(refused_work(alloc, run, request)?))
    }
}
