//! The runner of words.
ghost use Rattle.std.specs.Prelude.{◌≡◌, IfOk, IfSome};
ghost use Rattle.asp_job.specs.Running.{IsBounded};
ghost use Rattle.word_runs.specs.Words as spec;

use crate::run::{At, WordRun};
use crate::words::{call_at, is_keyed, left_at, left_by_event, page_of};
use asp_job::{Finished, Job, Runner, SessionState, Step};
use std::alloc::Global;
use vb_value::{AppCall, AppReply, Memory, Text};

/// Runs jobs of pages whose paths are words. A word says what its runs do; a run keeps its place in it.
#[derive(Drop)]
pub struct WordRunner {
    /// What memory is taken from.
    pub alloc: Global,
}

/// The site of all words.
#[derive(Clone, Copy)]
pub struct AllWords;

/// What a run needs: nothing.
#[derive(Clone, Copy)]
pub struct NoStore;

/// What a run comes to.
#[derive(Drop)]
pub enum Came {
    /// It wants the call, and then stands at the place.
    Wants(AppCall, usize),
    /// It ends, and leaves this.
    Ends(Finished),
}

/// What a run comes to that goes on.
fn comes(alloc: Global, run: &WordRun) -> Result<Came, Memory>
    ensures { IfOk result (spec.HasCome run.now) }
{
    let Some(page) = &run.page else {
        return Ok(Came::Ends(left_by_event()));
    };
    match call_at(alloc, &page.word, run.place)? {
        Some((call, next)) => Ok(Came::Wants(call, next)),
        None => Ok(Came::Ends(left_at(alloc, page, &run.session, &run.cookie, run.place)?)),
    }
}

impl Runner for WordRunner {
    ghost use Rattle.word_runs.specs.Words.{Stands, phase_at, meaning as meaning_of_words};
    ghost use Rattle.asp_job.specs.Running.{Never};

    type Site = AllWords;

    type Store = NoStore;

    type State = WordRun;

    ghost meaning = { λ _ _. meaning_of_words };

    ghost pace = { λ _. Never };

    ghost stands = { λ _ _ run told _. Stands run told };

    ghost phase = { λ run. phase_at run.at };

    fn store(&self) -> Result<NoStore, Memory> {
        Ok(NoStore)
    }

    fn keyed(&self, _site: &AllWords, job: &Job) -> bool {
        is_keyed(job)
    }

    fn start(
        &self,
        _site: &AllWords,
        job: &Job,
        session: Option<SessionState>,
        _is_new: bool,
        cookie: Option<Text>,
        store: NoStore,
    ) -> Result<WordRun, (NoStore, Memory)> {
        match page_of(&job.work) {
            Ok((page, place)) => Ok(WordRun {
                page,
                place,
                session,
                cookie,
                at: At::Going,
            }),
            Err(memory) => Err((store, memory)),
        }
    }

    fn go(&self, _site: &AllWords, run: &mut WordRun, _quantum: u32) -> Result<Step, Memory> {
        match comes(self.alloc, run) {
            Ok(Came::Wants(call, next)) => {
                run.place = next;
                run.at = At::Wanting;
                Ok(Step::Wants(call))
            }
            Ok(Came::Ends(finished)) => {
                run.at = At::Over(finished);
                Ok(Step::Ended)
            }
            Err(memory) => {
                run.at = At::Dead;
                Err(memory)
            }
        }
    }

    fn feed(&self, run: &mut WordRun, _reply: AppReply) {
        run.at = At::Going;
    }

    fn finish(&self, run: WordRun) -> (Option<Finished>, NoStore) {
        let WordRun {
            page: _page,
            place: _place,
            session: _session,
            cookie: _cookie,
            at,
        } = run;
        match at {
            At::Over(finished) => (Some(finished), NoStore),
            At::Going | At::Wanting | At::Dead => (None, NoStore),
        }
    }
}
