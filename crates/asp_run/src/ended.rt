//! What a run leaves, with a session that may be.
ghost use Rattle.std.specs.Prelude.{◌≡◌, IfSome};
ghost use Rattle.asp_job.specs.Session.{IsSession as MaySession};

use asp_job::{Answer, Fail, Finished, SessionState};
use asp_objects::HeldSession;
use std::marker::Model;
use vb_value::AppCall;

/// What a run leaves, with a session that may be. Contracts see it as what the run leaves.
#[derive(Debug, Drop)]
pub struct Ended {
    finished: Finished,
}

impl Model for Ended {
    ghost use Rattle.std.specs.Prelude.{IfSome as WhereSome};
    ghost use Rattle.asp_job.specs.declared.answer.Finished.{Finished};
    ghost use Rattle.asp_job.specs.Session.{IsSession};
    ghost use Rattle.std.specs.Coded.{codes};
    ghost use Rattle.asp_job.specs.contracts.answer.Finished as row;

    ghost Value = { Finished };

    ghost coded = { Prim.hlevel (codes, row.the_row.coded) };

    ghost view = { λ ended. ended.finished };

    ghost invariant = { λ ended. WhereSome ended.finished.session IsSession };
}

/// How far a run came.
#[derive(Debug, Drop)]
pub enum Came {
    /// It wants the reply to this call.
    Wants(AppCall),
    /// It has ended.
    Ends(Ended),
}

fn state_of(session: Option<HeldSession>) -> Option<SessionState>
    ensures same { result ≡ session }
    ensures session { IfSome result MaySession }
{
    match session {
        Some(session) => Some(session.into_state()),
        None => None,
    }
}

impl Ended {
    /// What a run leaves.
    pub(crate) fn of(
        answer: Option<Answer>,
        session: Option<HeldSession>,
        fail: Option<Fail>,
        made: u32,
        finished: u32,
    ) -> Ended
        ensures { result ≡ record { answer = answer; session = session; fail = fail; made = made; finished = finished } }
    {
        let session = state_of(session);
        Ended {
            finished: Finished {
                answer,
                session,
                fail,
                made,
                finished,
            },
        }
    }

    /// What it leaves.
    pub(crate) fn finished(&self) -> &Finished
        ensures { result.now ≡ self.now }
    {
        &self.finished
    }

    /// What it leaves, to be handed on.
    pub(crate) fn into_finished(self) -> Finished
        ensures same { result ≡ self }
        ensures session { IfSome result.session MaySession }
    {
        let Ended { finished } = self;
        finished
    }
}
