//! Answers that are handed out.
#![tactic(auto)]

ghost use Rattle.std.specs.Prelude.{◌≡◌, ◌<◌, ◌==◌, ◌++◌, ◌∷◌, [], length, nat_eq, Some, IsSome};
ghost use Rattle.std.specs.Prelude.{vec_capacity};
ghost use Rattle.std.specs.List.{position};
ghost use Rattle.std.specs.Map.{lookup, remove_entry};
ghost use Rattle.asp_job.specs.History.{with_lane};
ghost use Rattle.asp_job.specs.Runs as runs;
ghost use Rattle.asp_journal.specs.Tables.{IsFit};
ghost use Rattle.asp_core.specs.Book.{past_by, past_in};
ghost use Rattle.asp_core.specs.Ready as spec;

use crate::book::Book;
use crate::stop::CollectStop;
use asp_job::{Answer, Entry, What};
use asp_journal::Journal;

fn ended_stop(ended: bool, page: bool, taken: bool) -> Option<CollectStop>
    ensures { result ≡ spec.ended_stop ended page taken }
{
    if !ended {
        Some(CollectStop::NotEnded)
    } else if !page {
        Some(CollectStop::NoAnswer)
    } else if taken {
        Some(CollectStop::Taken)
    } else {
        None
    }
}

fn lane_stop(
    lane: u32,
    asking: Option<u32>,
    ended: bool,
    page: bool,
    taken: bool,
) -> Option<CollectStop>
    ensures { result ≡ spec.lane_stop lane asking ended page taken }
{
    match asking {
        Some(asking) => if asking == lane {
            ended_stop(ended, page, taken)
        } else {
            Some(CollectStop::Foreign { lane: asking })
        },
        None => ended_stop(ended, page, taken),
    }
}

/// Why the answer of a run is not handed out to the lane.
pub fn collect_stop(journal: &Journal, lane: u32, run: u32) -> Option<CollectStop>
    ensures { result ≡ spec.collect_stop (past_by journal.now) lane run }
{
    lane_stop(
        lane,
        journal.asking_lane_of(run as u64),
        journal.has_ended(run as u64),
        journal.is_page_run(run as u64),
        journal.is_taken(run as u64),
    )
}

/// The place of the answer of a run.
fn place_of(answers: &[(u32, Answer)], run: u32) -> Option<usize>
    ensures { result ≡ position (λ ready. run == ready.0) answers.now }
{
    answers.iter().position(|ready| run == ready.0)
}

/// Takes the answer of a run out.
#[tactic(auto, using(crate::proofs::Handing::place_some, crate::proofs::Handing::place_none))]
pub fn take_answer(answers: &mut Vec<(u32, Answer)>, run: u32) -> Answer
    requires { IsSome (lookup (nat_eq run) answers.old.items) }
    ensures answer { lookup (nat_eq run) answers.old.items ≡ Some result }
    ensures items { answers.new.items ≡ remove_entry (nat_eq run) answers.old.items }
    ensures capacity { vec_capacity answers.new ≡ vec_capacity answers.old }
{
    match place_of(answers.as_slice(), run) {
        Some(at) => answers.remove(at).1,
        None => unreachable!(),
    }
}

/// Hands the answer of a run out: its entry comes, and the answer waits no more.
pub fn take_run(book: &mut Book, lane: u32, run: u32) -> Answer
    requires waits { IsSome (lookup (nat_eq run) book.old.answers) }
    requires fit { IsFit (past_in book.old) (What.Take run) }
    ensures answer { lookup (nat_eq run) book.old.answers ≡ Some result }
    ensures items { book.new.items ≡ book.old.items ++ with_lane lane (What.Take run) ∷ [] }
    ensures answers { book.new.answers ≡ remove_entry (nat_eq run) book.old.answers }
{
    let answer = book.take(run);
    book.push(Entry {
        lane,
        what: What::Take { run },
    });
    answer
}
