//! The acts of a run, one after another.
ghost use Rattle.std.specs.Prelude.{◌≡◌, drop};
ghost use Rattle.std.specs.Option.{option_or};
ghost use Rattle.vb_value.specs.Outcome.{Gives};
ghost use Rattle.asp_acts.specs.Acts as spec;

use crate::failure::{fail_of, failure_text};
use asp_acts::{Course, Tally, Way};
use asp_objects::PageObjects;
use asp_site::Page;
use std::alloc::Global;
use vb_meaning::PlainEnd;
use vb_plain::run_act;
use vb_syntax::{Act, ActDone, ActEnd};
use vb_value::{AppReply, Memory};

/// Before any act.
pub(crate) fn course_of(objects: PageObjects) -> Course
    ensures { result ≡ spec.course_of objects }
{
    Course {
        objects,
        tally: Tally {
            fail: None,
            failure: None,
            goes_on: true,
            made: 0,
            finished: 0,
        },
    }
}

fn is_done(end: &ActEnd) -> bool
    ensures { result ≡ spec.is_done end.now }
{
    match end {
        ActEnd::Done => true,
        ActEnd::Stopped | ActEnd::Error { .. } | ActEnd::Limit { .. } => false,
    }
}

fn first<T: Drop>(one: Option<T>, next: Option<T>) -> Option<T>
    ensures { result ≡ option_or one next }
{
    match one {
        Some(value) => Some(value),
        None => next,
    }
}

/// After one act more.
fn after(alloc: Global, page: &Page, done: &ActDone, tally: Tally) -> Result<Tally, Memory>
    ensures { Gives result (spec.after page.now done.now tally) }
{
    let next_fail = fail_of(page, &done.end)?;
    let next_failure = failure_text(alloc, page, &done.end)?;
    let Tally {
        fail,
        failure,
        goes_on: _goes_on,
        made,
        finished,
    } = tally;
    Ok(Tally {
        fail: first(fail, next_fail),
        failure: first(failure, next_failure),
        goes_on: is_done(&done.end),
        made: made.saturating_add(done.made),
        finished: finished.saturating_add(done.finished),
    })
}

/// The replies that are left once so many were heard.
fn left_of(replies: &[AppReply], heard: usize) -> &[AppReply]
    ensures { result.now ≡ drop heard replies.now }
{
    if heard < replies.len() {
        &replies[heard..]
    } else {
        &[]
    }
}

/// An act of a page's program.
#[tactic(auto, unfolding(asp_acts::specs::Acts::act))]
pub(crate) fn act(
    alloc: Global,
    replies: &[AppReply],
    page: &Page,
    which: Act,
    course: Course,
) -> Result<Way, Memory>
    ensures { Gives result (spec.act replies.now page.now which course) }
{
    let Course { mut objects, tally } = course;
    let rest = left_of(replies, objects.heard);
    match run_act(alloc, &page.program, which, &mut objects, rest) {
        Ok(PlainEnd::Wants(call)) => {
            drop(objects);
            drop(tally);
            Ok(Way::Wants(call))
        }
        Ok(PlainEnd::Ends(done)) => match after(alloc, page, &done, tally) {
            Ok(tally) => Ok(Way::On(Course { objects, tally })),
            Err(memory) => {
                drop(objects);
                Err(memory)
            }
        },
        Err(memory) => {
            drop(objects);
            drop(tally);
            Err(memory)
        }
    }
}
