//! The answers that wait to be handed out.
#![tactic(auto)]

ghost use Rattle.std.specs.Prelude.{◌≡◌, ◌-◌, ◌^◌, min, nat_le};
ghost use Rattle.std.specs.Option.{option_map};
ghost use Rattle.asp_core.specs.Book.{past_by, past_in};
ghost use Rattle.asp_core.specs.Ready as spec;

use crate::book::Book;
use asp_job::Answer;
use asp_journal::Journal;
use asp_response::MOST_BODY;

/// At most so many bytes have the bodies of the answers that wait, with the room of those that may come.
pub const MOST_BODY_BYTES: u64 = 268_435_456;

/// So many bytes may the body of an answer have.
pub const BODY_ROOM: u64 = MOST_BODY as u64;

/// The bytes of the bodies of the answers. 2^64 - 1 stands for more.
#[tactic(auto, using(asp_journal::proofs::Past::sum_more))]
fn bodies_of(answers: &[(u32, Answer)]) -> u64
    ensures { result ≡ min (spec.bodies_of answers.now) (2 ^ 64 - 1) }
{
    let mut total: u64 = 0;
    for ready in answers {
        total = total.saturating_add(ready.1.body.len() as u64);
    }
    total
}

/// Whether there is room for the body of one more run.
pub fn has_body_room(book: &Book) -> bool
    ensures { result ≡ nat_le (spec.bodies_with_one book.now.answers (past_in book.now)) MOST_BODY_BYTES }
{
    let open = book.journal().unfinished() as u128 + 1;
    bodies_of(book.answers()) as u128 + BODY_ROOM as u128 * open <= MOST_BODY_BYTES as u128
}

fn is_asked_by(journal: &Journal, lane: u32, run: u32) -> bool
    ensures { result ≡ spec.asked_by (past_by journal.now) lane run }
{
    match journal.asking_lane_of(run as u64) {
        Some(asking) => asking == lane,
        None => false,
    }
}

/// The first answer for whose run a lane asked, as its run.
pub fn first_for(book: &Book, lane: u32) -> Option<u32>
    ensures { result ≡ option_map (λ ready. ready.0) (spec.first_for (past_in book.now) lane book.now.answers) }
{
    let journal = book.journal();
    match book
        .answers()
        .iter()
        .find(|ready| is_asked_by(journal, lane, ready.0))
    {
        Some(ready) => Some(ready.0),
        None => None,
    }
}
