//! How many answers a journal has.
ghost use Rattle.std.specs.Prelude.{◌≡◌, ◌+◌, ◌<◌, IfOk, OnOk, Option, length, reverse};
ghost use Rattle.asp_core.specs.Ready.{IsAnswered};
ghost use Rattle.asp_job.specs.Running as running;
ghost use Rattle.asp_job.specs.Rules.{Rules};
ghost use Rattle.asp_feed.specs.Shown.{shown_of};
ghost use Rattle.asp_host.specs.Answered as spec;

use asp_job::{Entry, What, Work};
use std::alloc::Global;
use vb_value::{List, Memory};

fn is_page(work: &Work) -> bool
    ensures { result ≡ running.is_page work.now }
{
    matches!(work, Work::Page(_))
}

/// Whether the run is marked as that of a page.
fn is_marked(pages: &List<bool>, run: u32) -> bool
    ensures { result ≡ spec.mark_of pages.now run }
{
    (run as usize) < pages.len() && pages.as_slice()[run as usize]
}

/// Makes places for the runs up to this one.
#[tactic(auto, using(crate::proofs::Marks::place_more))]
fn make_places(pages: &mut List<bool>, run: u32) -> Result<(), Memory>
    ensures room { OnOk result (run < length pages.new) }
    ensures same { OnOk result (spec.AreSameMarks pages.old pages.new) }
{
    while pages.len() <= run as usize {
        pages.push(false)?;
    }
    Ok(())
}

/// Marks a run.
#[tactic(auto, using(crate::proofs::Marks::mark_put))]
fn mark(pages: &mut List<bool>, run: u32, page: bool) -> Result<(), Memory>
    ensures { OnOk result (spec.IsMarked run page pages.old pages.new) }
{
    make_places(pages, run)?;
    pages.set(run as usize, page);
    Ok(())
}

/// Marks the run that the entry draws, if it draws one.
fn mark_drawn(pages: &mut List<bool>, what: &What) -> Result<(), Memory>
    ensures { OnOk result (spec.AreMarkedBy what.now pages.old pages.new) }
{
    match what {
        What::Queue { run, work, .. } => mark(pages, *run, is_page(work)),
        What::Admit { run, job, .. } | What::Refuse { run, job } => mark(
            pages,
            *run,
            is_page(&job.work),
        ),
        _ => Ok(()),
    }
}

/// Whether the entry leaves an answer.
fn leaves_answer(pages: &List<bool>, what: &What) -> bool
    ensures { result ≡ spec.leaves_answer pages.now what.now }
{
    match what {
        What::End { run, .. } => is_marked(pages, *run),
        What::Refuse { job, .. } => is_page(&job.work),
        _ => false,
    }
}

/// One answer more, where there is one.
fn with_answer(count: u32, answered: bool) -> Result<u32, Memory>
    ensures { IfOk result (λ more. more ≡ count + spec.one_if answered) }
{
    count.checked_add(answered as u32).ok_or(Memory)
}

/// How many answers the journal has: those of the pages that ended or were refused.
pub fn count_answers(alloc: Global, journal: &[Entry]) -> Result<u32, Memory>
    ensures { IfOk result (λ count. (rules : Rules) → IsAnswered rules (reverse journal.now)
        → count ≡ length (shown_of rules (reverse journal.now))) }
{
    let mut pages = List::new(alloc);
    let mut count = 0u32;
    for entry in journal {
        count = with_answer(count, leaves_answer(&pages, &entry.what))?;
        mark_drawn(&mut pages, &entry.what)?;
    }
    Ok(count)
}
