//! The request's job: it is admitted, run, and its answer handed out.
#![tactic(auto)]

ghost use Rattle.std.specs.Prelude.{◌≡◌, true, IfErr, IfOk, Some};
ghost use Rattle.asp_core.specs.Kernel.{IsHostOf, past_of, rules_of};
ghost use Rattle.asp_get.specs.Answered as answered;
ghost use Rattle.asp_get.specs.Underway as spec;
ghost use Rattle.asp_job.specs.Output.{answer_of_run};
ghost use Rattle.asp_job.specs.Running.{is_page};
ghost use Rattle.asp_job.specs.Size.{IsSmall};
ghost use Rattle.asp_lane.specs.Underway.{Grows};

use crate::stop::GetStop;
use asp_core::Core;
use asp_job::{Answer, Job, Runner};
use asp_lane::{Load, RunStop, go_through, let_go};

/// Hands the answer of a run out.
fn hand_out<R: Runner>(core: &mut Core<R>, run: u32) -> Result<Answer, GetStop>
    ensures ok { IfOk result (λ answer. answer_of_run (rules_of R.meaning core.old) (past_of core.old) run ≡ Some answer) }
    ensures err { IfErr result (λ stop. stop ≡ GetStop.Memory) }
{
    match core.collect(0, run) {
        Ok(answer) => Ok(answer),
        Err(_) => Err(GetStop::Memory),
    }
}

/// The number of the run, where it is the one that went through.
fn number_back<R>(run: u32, gone: Result<(u32, R::Store), RunStop>) -> Result<u32, GetStop>
where
    R: Runner,
    R::State: Drop,
    R::Store: Drop,
    ensures { result ≡ spec.number_back run gone }
{
    match gone {
        Ok((number, store)) => {
            let_go::<R>(Load::Free(store));
            if number == run {
                Ok(run)
            } else {
                Err(GetStop::Memory)
            }
        }
        Err(stop) => Err(GetStop::from(stop)),
    }
}

/// Admits the job, and takes its run to its end: the number of the run.
fn ask<R>(
    core: &mut Core<R>,
    runner: &R,
    site: &R::Site,
    store: R::Store,
    job: &Job,
) -> Result<u32, GetStop>
where
    R: Runner,
    R::State: Drop,
    R::Store: Drop,
    requires host { IsHostOf core.old runner.now site.now }
    requires page { is_page job.now.work ≡ true }
    requires small { IsSmall job.now }
    requires ready { spec.IsReady (rules_of R.meaning core.old) (past_of core.old) }
    ensures grows { Grows core.old core.new }
    ensures ok { IfOk result (λ run. spec.IsAsked (rules_of R.meaning core.old) job.now (past_of core.old) run
        (past_of core.new)) }
    ensures err { IfErr result (answered.IsGetStop (rules_of R.meaning core.old) job.now) }
{
    match core.admit(0, runner, site, job) {
        Ok(told) => {
            // The journal is within its bounds.
            let _ = core.journal();
            let gone = go_through(core, runner, site, 0, store);
            // And still valid.
            let _ = core.journal();
            number_back::<R>(told.run, gone)
        }
        Err(stop) => {
            let_go::<R>(Load::Free(store));
            Err(GetStop::from(stop))
        }
    }
}

/// Answers the job on a host whose first run has ended.
pub fn answer_job<R>(
    core: &mut Core<R>,
    runner: &R,
    site: &R::Site,
    store: R::Store,
    job: &Job,
) -> Result<Answer, GetStop>
where
    R: Runner,
    R::State: Drop,
    R::Store: Drop,
    requires host { IsHostOf core.old runner.now site.now }
    requires page { is_page job.now.work ≡ true }
    requires small { IsSmall job.now }
    requires ready { spec.IsReady (rules_of R.meaning core.old) (past_of core.old) }
    ensures ok { IfOk result (answered.HasAnswered (rules_of R.meaning core.old) job.now) }
    ensures err { IfErr result (answered.IsGetStop (rules_of R.meaning core.old) job.now) }
{
    let run = ask(core, runner, site, store, job)?;
    hand_out(core, run)
}
