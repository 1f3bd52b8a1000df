//! What a core keeps.
#![tactic(auto)]

ghost use Rattle.std.specs.Prelude.{List as Items};
ghost use Rattle.asp_job.specs.declared.entry.Entry.{Entry as Line};
ghost use Rattle.asp_job.specs.Rules.{Rules};
ghost use Rattle.asp_core.specs.Book.{IsSound, past_in};

use crate::book::Book;
use asp_app::Application;
use asp_job::Fail;
use asp_session::Sessions;

/// What is kept with a journal.
pub trait Keeps {
    /// The journal, oldest entry first.
    ghost journal: { Self → Items Line };

    /// It is what the journal says, held against these rules.
    ghost keeps: { Self → Rules → Type 0 };
}

/// The journal with the answers that wait, and what it says besides: the session keys, the Application object, and why
/// the first run failed.
#[derive(Drop)]
pub struct Tables {
    pub(crate) book: Book,
    pub(crate) sessions: Sessions,
    pub(crate) application: Application,
    pub(crate) start_fail: Option<Fail>,
}

impl Keeps for Tables {
    ghost journal = { λ kept. kept.book.items };

    ghost keeps = { λ kept rules.
        IsSound rules (past_in kept.book) kept.sessions.account kept.application kept.book.answers kept.start_fail };
}
