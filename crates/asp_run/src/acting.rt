//! The acts of a page, with the events around it, and events alone.
ghost use Rattle.std.specs.Prelude.{◌≡◌, None, codes};
ghost use Rattle.std.specs.Option.{option_copied};
ghost use Rattle.vb_value.specs.Outcome.{Gives};
ghost use Rattle.asp_acts.specs.Acts as spec;
ghost use Rattle.asp_run.specs.Stands.{told_of};

use crate::course::act;
use crate::run::PlainRun;
use asp_acts::{Course, Way};
use asp_site::{Page, Site};
use std::alloc::Global;
use vb_syntax::Act;
use vb_value::{AppReply, Copied, Memory, Text, is_word};

fn number_of(word: &[u8], names: &[Text]) -> Option<usize>
    ensures { result ≡ spec.number_of word.now names.now }
{
    names.iter().position(|name| is_word(word, name.as_slice()))
}

fn event_in(
    alloc: Global,
    replies: &[AppReply],
    page: &Page,
    number: Option<usize>,
    course: Course,
) -> Result<Way, Memory>
    ensures { Gives result (spec.event_in replies.now page.now number course) }
{
    match number {
        Some(number) => {
            if number > 4_294_967_295 {
                drop(course);
                return Err(Memory);
            }
            act(alloc, replies, page, Act::Proc(number as u32), course)
        }
        None => Ok(Way::On(course)),
    }
}

/// The event of this name, if the site has it.
pub(crate) fn event(
    alloc: Global,
    replies: &[AppReply],
    events: Option<&Page>,
    word: &[u8],
    course: Course,
) -> Result<Way, Memory>
    ensures { Gives result (spec.event replies.now (option_copied events.entry) word.now course) }
{
    match events {
        Some(page) => {
            let number = number_of(word, page.program.procs.as_slice());
            event_in(alloc, replies, page, number, course)
        }
        None => Ok(Way::On(course)),
    }
}

fn starts(alloc: Global, site: &Site, run: &PlainRun, course: Course) -> Result<Way, Memory>
    requires { run.now.heard ≡ None }
    ensures { Gives result (spec.starts site.now (told_of run.now) course) }
{
    if !run.is_new {
        return Ok(Way::On(course));
    }
    let replies = run.replies.as_slice();
    event(
        alloc,
        replies,
        site.events.as_ref(),
        b"Session_OnStart",
        course,
    )
}

fn body(alloc: Global, run: &PlainRun, page: &Page, course: Course) -> Result<Way, Memory>
    requires { run.now.heard ≡ None }
    ensures { Gives result (spec.body (told_of run.now) page.now course) }
{
    if course.tally.goes_on {
        act(alloc, run.replies.as_slice(), page, Act::Body, course)
    } else {
        Ok(Way::On(course))
    }
}

fn outside(course: Course) -> Course
    ensures { result ≡ spec.outside course }
{
    let Course { objects, tally } = course;
    Course {
        objects: objects.outside_page(),
        tally,
    }
}

fn quiet_course(failure: Option<Text>, course: Course) -> Course
    ensures { result ≡ spec.quiet_course failure course }
{
    let mut quiet = course;
    quiet.tally.failure = failure;
    quiet
}

fn quiet(failure: Option<Text>, way: Way) -> Way
    ensures { result ≡ spec.quiet failure way }
{
    match way {
        Way::On(course) => Way::On(quiet_course(failure, course)),
        Way::Wants(call) => Way::Wants(call),
    }
}

fn ending(alloc: Global, site: &Site, run: &PlainRun, course: Course) -> Result<Way, Memory>
    requires { run.now.heard ≡ None }
    ensures { Gives result (spec.ending site.now (told_of run.now) course) }
{
    let replies = run.replies.as_slice();
    let events = site.events.as_ref();
    event(alloc, replies, events, b"Session_OnEnd", outside(course))
}

fn closes(alloc: Global, site: &Site, run: &PlainRun, course: Course) -> Result<Way, Memory>
    requires { run.now.heard ≡ None }
    ensures { Gives result (spec.closes site.now (told_of run.now) course) }
{
    match course.tally.failure.copy() {
        Ok(failure) => {
            let way = ending(alloc, site, run, course)?;
            Ok(quiet(failure, way))
        }
        Err(memory) => {
            drop(course);
            Err(memory)
        }
    }
}

fn leaves(alloc: Global, site: &Site, run: &PlainRun, course: Course) -> Result<Way, Memory>
    requires { run.now.heard ≡ None }
    ensures { Gives result (spec.leaves site.now (told_of run.now) course) }
{
    if course.objects.is_abandoned {
        closes(alloc, site, run, course)
    } else {
        Ok(Way::On(course))
    }
}

fn opens(
    alloc: Global,
    site: &Site,
    run: &PlainRun,
    page: &Page,
    course: Course,
) -> Result<Way, Memory>
    requires { run.now.heard ≡ None }
    ensures { Gives result (spec.opens site.now (told_of run.now) page.now course) }
{
    match starts(alloc, site, run, course)? {
        Way::On(course) => body(alloc, run, page, course),
        Way::Wants(call) => Ok(Way::Wants(call)),
    }
}

/// The acts of a page.
#[tactic(auto, unfolding(asp_acts::specs::Acts::page_acts))]
pub(crate) fn page_acts(
    alloc: Global,
    site: &Site,
    run: &PlainRun,
    page: &Page,
    course: Course,
) -> Result<Way, Memory>
    requires { run.now.heard ≡ None }
    ensures { Gives result (spec.page_acts site.now (told_of run.now) page.now course) }
{
    match opens(alloc, site, run, page, course)? {
        Way::On(course) => leaves(alloc, site, run, course),
        Way::Wants(call) => Ok(Way::Wants(call)),
    }
}
