//! One request is answered.
#![tactic(auto)]

ghost use Rattle.std.specs.Prelude.{◌≡◌, true, false, IfErr, IfOk};
ghost use Rattle.asp_core.specs.Kernel.{IsHostOf, rules_by, rules_of, setting_of};
ghost use Rattle.asp_get.specs.Answered.{HasAnswered, IsGetStop};
ghost use Rattle.asp_job.specs.Running.{is_page};
ghost use Rattle.asp_job.specs.Size.{IsSmall};
ghost use Rattle.asp_lane.specs.First.{first_past};

use crate::asking::answer_job;
use crate::stop::GetStop;
use asp_core::Core;
use asp_job::{Answer, Job, Runner};
use asp_lane::{Load, begin_host, let_go};
use std::alloc::Global;

/// Answers the job on a host that was just made.
fn answer_over<R>(
    core: &mut Core<R>,
    runner: &R,
    site: &R::Site,
    store: R::Store,
    job: &Job,
) -> Result<Answer, GetStop>
where
    R: Runner,
    R::State: Drop,
    R::Store: Drop,
    requires host { IsHostOf core.old runner.now site.now }
    requires first { core.old.journal ≡ first_past 0 }
    requires page { is_page job.now.work ≡ true }
    requires small { IsSmall job.now }
    ensures ok { IfOk result (HasAnswered (rules_of R.meaning core.old) job.now) }
    ensures err { IfErr result (IsGetStop (rules_of R.meaning core.old) job.now) }
{
    match begin_host(core, runner, site, 0, store) {
        Ok((fail, store)) => match fail {
            None => answer_job(core, runner, site, store, job),
            Some(fail) => {
                let_go::<R>(Load::Free(store));
                Err(GetStop::StartFailed(fail))
            }
        },
        Err(stop) => Err(GetStop::from(stop)),
    }
}

/// Lets a core go.
fn let_core_go<R: Runner>(_core: Core<R>) {}

/// Answers one request: a host is made, its first run goes to its end, and then the job's. Where the first run failed,
/// the job does not come. An answer that would stand in for the page's own, since memory ran out or the journal was
/// full, is a stop instead.
pub fn answer_one<R>(
    alloc: Global,
    runner: &R,
    site: &R::Site,
    seed: [u8; 32],
    job: &Job,
) -> Result<Answer, GetStop>
where
    R: Runner,
    R::State: Drop,
    R::Store: Drop,
    requires page { is_page job.now.work ≡ true }
    requires small { IsSmall job.now }
    ensures ok { IfOk result (HasAnswered (rules_by (R.meaning runner.now site.now) (setting_of seed false)) job.now) }
    ensures err { IfErr result (IsGetStop (rules_by (R.meaning runner.now site.now) (setting_of seed false)) job.now) }
{
    let store = runner.store()?;
    let mut core = match Core::new(alloc, 0, runner, site, seed, false) {
        Ok(core) => core,
        Err(memory) => {
            let_go::<R>(Load::Free(store));
            return Err(GetStop::from(memory));
        }
    };
    let answered = answer_over(&mut core, runner, site, store, job);
    let_core_go(core);
    answered
}
