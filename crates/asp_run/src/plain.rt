//! The runner.
ghost use Rattle.std.specs.Prelude.{◌≡◌, IsTrue, IfSome, IfOk, OnOk, None};
ghost use Rattle.std.specs.Option.{option_copied};
ghost use Rattle.asp_job.specs.Running.{IsBounded};
ghost use Rattle.asp_acts.specs.Running as spec;
ghost use Rattle.asp_job.specs.Session.{IsSession};
ghost use Rattle.asp_run.specs.Stands.{MayCome, outcome_of, told_of};

use crate::ended::Came;
use crate::run::{At, PlainRun, keep_heard};
use crate::work::{is_keyed, work_of};
use asp_job::{Answer, Finished, Job, Runner, SessionState, Step};
use asp_objects::{HeldSession, may_call};
use asp_site::Site;
use std::alloc::Global;
use vb_value::{AppReply, Copied, List, Memory, Text};

/// Runs the jobs of sites. It keeps the replies of a run, and runs each act from its beginning with all of them.
#[derive(Debug, Drop)]
pub struct PlainRunner {
    /// What memory is taken from.
    pub alloc: Global,
}

/// What a run of a [`PlainRunner`] needs: nothing.
#[derive(Clone, Copy, Debug, PartialEq, Eq)]
pub struct NoStore;

/// Whether a body may be answered.
fn is_bounded(answer: Option<&Answer>) -> bool
    ensures { IsTrue result → IfSome (option_copied answer.entry) IsBounded }
{
    match answer {
        Some(answer) => answer.body.len() < 4_294_967_296,
        None => true,
    }
}

/// Whether what a run came to may be told: a body that may be answered, or a call that may be made.
fn may_come(alloc: Global, came: &Came) -> Result<bool, Memory>
    ensures { IfOk result (λ may. IsTrue may → MayCome came.now) }
{
    match came {
        Came::Ends(ended) => Ok(is_bounded(ended.finished().answer.as_ref())),
        Came::Wants(call) => may_call(alloc, call),
    }
}

/// What a run comes to that goes on.
fn goes(alloc: Global, site: &Site, run: &mut PlainRun) -> Result<Came, Memory>
    ensures told { OnOk result (told_of run.new ≡ told_of run.old) }
    ensures none { OnOk result (run.new.heard ≡ None) }
    ensures work { IfOk result (λ came. outcome_of came ≡ spec.work_of site.now (told_of run.new) run.new.job.work) }
    ensures may { IfOk result MayCome }
{
    keep_heard(run)?;
    let came = work_of(alloc, site, run)?;
    if !may_come(alloc, &came)? {
        return Err(Memory);
    }
    Ok(came)
}

fn held(session: Option<SessionState>) -> Option<HeldSession>
    requires { IfSome session IsSession }
    ensures { result ≡ session }
{
    match session {
        Some(session) => Some(HeldSession::of(session)),
        None => None,
    }
}

impl Runner for PlainRunner {
    ghost use Rattle.asp_acts.specs.Running.{meaning_of};
    ghost use Rattle.asp_run.specs.Stands.{Stands, phase_at};
    ghost use Rattle.asp_job.specs.Running.{Never};

    type Site = Site;

    type Store = NoStore;

    type State = PlainRun;

    ghost meaning = { λ _ site. meaning_of site };

    ghost pace = { λ _. Never };

    ghost stands = { λ _ site run told _. Stands site run told };

    ghost phase = { λ run. phase_at run.at };

    fn store(&self) -> Result<NoStore, Memory> {
        Ok(NoStore)
    }

    fn keyed(&self, site: &Site, job: &Job) -> bool {
        is_keyed(site, job)
    }

    fn start(
        &self,
        _site: &Site,
        job: &Job,
        session: Option<SessionState>,
        is_new: bool,
        cookie: Option<Text>,
        store: NoStore,
    ) -> Result<PlainRun, (NoStore, Memory)> {
        match job.copy() {
            Ok(job) => Ok(PlainRun {
                job,
                session: held(session),
                is_new,
                cookie,
                replies: List::new(self.alloc),
                heard: None,
                at: At::Going,
            }),
            Err(memory) => Err((store, memory)),
        }
    }

    fn go(&self, site: &Site, run: &mut PlainRun, _quantum: u32) -> Result<Step, Memory> {
        match goes(self.alloc, site, run) {
            Ok(Came::Ends(ended)) => {
                run.at = At::Over(ended.into_finished());
                Ok(Step::Ended)
            }
            Ok(Came::Wants(call)) => {
                run.at = At::Wanting;
                Ok(Step::Wants(call))
            }
            Err(memory) => {
                run.at = At::Dead;
                Err(memory)
            }
        }
    }

    fn feed(&self, run: &mut PlainRun, reply: AppReply) {
        run.heard = Some(reply);
        run.at = At::Going;
    }

    fn finish(&self, run: PlainRun) -> (Option<Finished>, NoStore) {
        let PlainRun {
            job: _job,
            session: _session,
            is_new: _is_new,
            cookie: _cookie,
            replies: _replies,
            heard: _heard,
            at,
        } = run;
        match at {
            At::Over(finished) => (Some(finished), NoStore),
            At::Going | At::Wanting | At::Dead => (None, NoStore),
        }
    }
}
