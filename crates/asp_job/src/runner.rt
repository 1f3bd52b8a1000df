//! What runs jobs.
ghost use Rattle.std.specs.Prelude.{◌≡◌, ℕ, ◌≤◌, IfOk, OnOk, IfSome, Option, Bool};
ghost use Rattle.asp_job.specs.Size.{IsSmall};
ghost use Rattle.asp_job.specs.Session.{IsSession};
ghost use Rattle.asp_job.specs.Told.{Told, Meaning, begun, heard};
ghost use Rattle.asp_job.specs.Calls.{IsCall, IsReply};
ghost use Rattle.asp_job.specs.Running.{Pace, Phase, Going, Wanting, phase_of, IsStep, IsFinish, spent_after};

use crate::answer::Finished;
use crate::job::Job;
use crate::session::SessionState;
use vb_value::{AppCall, AppReply, Memory, Text};

/// How far a run came.
#[derive(Debug, Drop)]
pub enum Step {
    /// It has spent its ticks, and has more to do.
    More,
    /// It waits for the reply to this call of the Application object.
    Wants(AppCall),
    /// It has ended.
    Ended,
}

/// What runs the jobs of a site, each run in slices. What a run does is fixed by what it is told: its meaning.
pub trait Runner {
    /// The pages and files that runs are of.
    type Site;

    /// What a run needs and gives back at its end, as room that was made.
    type Store;

    /// A run on its way.
    type State;

    /// What each run of a site does, given what it was told, and which jobs have a session.
    ghost meaning: { Self → Self.Site → Meaning };

    /// Whether a run is cut into slices.
    ghost pace: { Self → Pace };

    /// The state is that of a run that was told this and has spent so many ticks.
    ghost stands: { Self → Self.Site → Self.State → Told → ℕ → Type 0 };

    /// What the state waits for.
    ghost phase: { Self.State → Phase };

    /// What a run needs.
    fn store(&self) -> Result<Self::Store, Memory>;

    /// Whether the job has a session.
    fn keyed(&self, site: &Self::Site, job: &Job) -> bool
        requires { IsSmall job.now }
        ensures { result ≡ (meaning self.now site.now).is_keyed job.now };

    /// Begins a run: of the job, in the session that its key has, which is a new one or not, with the letters of its
    /// key where the job made it. Without memory the store comes back.
    fn start(
        &self,
        site: &Self::Site,
        job: &Job,
        session: Option<SessionState>,
        is_new: bool,
        cookie: Option<Text>,
        store: Self::Store,
    ) -> Result<Self::State, (Self::Store, Memory)>
        requires job { IsSmall job.now }
        requires session { IfSome session IsSession }
        ensures stands { IfOk result (λ state.
            stands self.now site.now state (begun job.now session is_new cookie) 0) }
        ensures going { IfOk result (λ state. phase state ≡ Going) };

    /// Goes on until the run wants a call, has ended, or has spent `quantum` ticks and has more to do. It has made the
    /// whole answer before it answers that it has ended. Without memory the run can only be finished.
    fn go(&self, site: &Self::Site, state: &mut Self::State, quantum: u32) -> Result<Step, Memory>
        requires going { phase state.old ≡ Going }
        requires quantum { 1 ≤ quantum }
        ensures phase { phase state.new ≡ phase_of result }
        ensures step { IfOk result (λ step. (told : Told) (spent : ℕ) → stands self.now site.now state.old told spent →
            IsStep (pace self.now) (meaning self.now site.now) told spent quantum step) }
        ensures stands { IfOk result (λ step. (told : Told) (spent : ℕ) → stands self.now site.now state.old told spent →
            stands self.now site.now state.new told (spent_after (meaning self.now site.now) told spent quantum step)) }
        ensures call { IfOk result IsCall };

    /// Takes the reply to the call that the run wants.
    fn feed(&self, state: &mut Self::State, reply: AppReply)
        requires wanting { phase state.old ≡ Wanting }
        requires reply { IsReply reply }
        ensures phase { phase state.new ≡ Going }
        ensures stands { (site : Self.Site) (told : Told) (spent : ℕ) → stands self.now site state.old told spent →
            stands self.now site state.new (heard told reply) spent };

    /// What the run leaves, exactly after it has ended, and what it needed. It takes no memory.
    fn finish(&self, state: Self::State) -> (Option<Finished>, Self::Store)
        ensures { (site : Self.Site) (told : Told) (spent : ℕ) → stands self.now site state told spent →
            IsFinish (phase state) result.0 told ((meaning self.now site).does told) };
}
