//! A core at which lanes make calls.

ghost use Rattle.std.specs.Prelude.{◌≡◌, ◌<◌, length, slice_index_or, slice_set, Some, None, IfOk, OnErr, IsTrue, true};
ghost use Rattle.asp_job.specs.Running.{is_page};
ghost use Rattle.asp_job.specs.Size.{IsSmall};
ghost use Rattle.core_cases.specs.Lanes as spec;

use asp_core::{
    AdmitStop, Admitted, AppStepStop, BeginStop, CollectStop, Core, EventStop, Progress, Run,
};
use asp_job::{Answer, EndKind, Job, Runner};
use case_files::CaseStop;
use std::alloc::Global;
use std::marker::Model;
use std::mem::replace;

/// How many lanes may have a run under way.
const LANES: usize = 40;

/// How much a run may do before it is asked to go on.
const QUANTUM: u32 = 10_000;

/// How often a run is asked to go on before it is given up.
const TURNS: usize = 3_000_000;

/// The run of each lane.
type LaneRuns<R> = Vec<Option<Run<R>>>;

/// What a call of a lane tells. One that the lane may not make is unreadable.
pub type Told<T> = Result<T, CaseStop>;

/// A core, what it is given, and the runs that lanes have under way.
#[derive(Drop)]
pub struct Desk<R: Runner> {
    core: Core<R>,
    runner: R,
    site: R::Site,
    runs: LaneRuns<R>,
}

impl<R: Runner> Model for Desk<R> {
    ghost use Rattle.std.specs.Coded.{codes};
    ghost use Rattle.vb_value.specs.contracts.value.Value as contract;
    ghost use Rattle.asp_core.specs.Kernel.{CoreView};
    ghost use Rattle.core_cases.specs.Lanes.{IsDesk};

    ghost Value = { CoreView R R.Site };

    ghost coded = { Prim.hlevel (codes, contract.the_row.coded, R.code, R.Site.code) };

    ghost view = { λ d. d.core };

    ghost invariant = { λ d. IsDesk R.meaning R.stands d.core d.runner d.site d.runs.items };
}

fn no_runs<R: Runner>(alloc: Global) -> Result<LaneRuns<R>, CaseStop>
where
    R::State: Drop,
    ensures { IfOk result (λ runs. spec.AreNone runs.items) }
{
    let mut runs = Vec::new(alloc);
    for _ in 0..LANES {
        runs.push(None)?;
    }
    Ok(runs)
}

/// Whether the lane may have a run, and has none.
fn is_free<R: Runner>(runs: &[Option<Run<R>>], lane: u32) -> bool
    ensures { IsTrue result → spec.IsFree runs.now lane }
{
    let place = lane as usize;
    place < runs.len() && runs[place].is_none()
}

/// Takes the run of a lane that has one.
fn take_run<R: Runner>(runs: &mut LaneRuns<R>, lane: u32) -> Result<Run<R>, CaseStop>
    ensures ok { IfOk result (λ run. spec.IsTaken runs.old.items runs.new.items lane run) }
    ensures err { OnErr result (runs.new.items ≡ runs.old.items) }
{
    let place = lane as usize;
    if place >= runs.len() || runs[place].is_none() {
        return Err(CaseStop::Unreadable);
    }
    match replace(&mut runs[place], None) {
        Some(run) => Ok(run),
        None => unreachable!(),
    }
}

/// Puts a run into a lane that has none.
fn put_run<R: Runner>(runs: &mut LaneRuns<R>, lane: u32, run: Run<R>)
where
    R::State: Drop,
    requires { lane < length runs.old.items }
    ensures { runs.new.items ≡ slice_set runs.old.items lane (Some run) }
{
    runs[lane as usize] = Some(run);
}

/// Lets a run go on. One that may not is unreadable.
fn go_on<R: Runner>(run: &mut Run<R>, runner: &R, site: &R::Site) -> Result<(), CaseStop>
    ensures { spec.HasGone (R.stands runner.now site.now) (R.meaning runner.now site.now) run.old run.new }
{
    if !matches!(run.progress(), Progress::Going) {
        return Err(CaseStop::Unreadable);
    }
    match run.go(runner, site, QUANTUM) {
        Ok(_) => Ok(()),
        Err(_) => Err(CaseStop::Memory),
    }
}

/// How a run ends: by itself where it has ended, and else for want of memory.
fn end_kind(progress: &Progress) -> EndKind
    ensures { result ≡ spec.end_kind progress.now }
{
    match progress {
        Progress::Ended => EndKind::Done,
        _ => EndKind::Memory,
    }
}

impl<R: Runner> Desk<R>
where
    R: Drop,
    R::Site: Drop,
    R::State: Drop,
    R::Store: Drop,
{
    /// A new core with a seed of noughts and this rule of the lock, and no runs.
    pub fn new(alloc: Global, runner: R, site: R::Site, strict: bool) -> Result<Desk<R>, CaseStop> {
        let runs = no_runs(alloc)?;
        let core = Core::new(alloc, 0, &runner, &site, [0; 32], strict)?;
        Ok(Desk {
            core,
            runner,
            site,
            runs,
        })
    }

    /// The core.
    pub fn core(&self) -> &Core<R> {
        &self.core
    }

    /// A job comes.
    pub fn admit(&mut self, lane: u32, job: &Job) -> Told<Result<Admitted, AdmitStop>>
        requires page { is_page job.now.work ≡ true }
        requires small { IsSmall job.now }
    {
        if !is_free(self.runs.as_slice(), lane) {
            return Err(CaseStop::Unreadable);
        }
        let told = self.core.admit(lane, &self.runner, &self.site, job);
        let _ = self.core.journal();
        Ok(told)
    }

    /// Time goes on.
    pub fn tick(&mut self, lane: u32, moment: u64) -> Told<Result<u32, EventStop>> {
        if !is_free(self.runs.as_slice(), lane) {
            return Err(CaseStop::Unreadable);
        }
        let told = self.core.tick(lane, moment);
        let _ = self.core.journal();
        Ok(told)
    }

    /// No job is admitted from now on.
    pub fn stop(&mut self, lane: u32) -> Told<Result<(), EventStop>> {
        if !is_free(self.runs.as_slice(), lane) {
            return Err(CaseStop::Unreadable);
        }
        let told = self.core.stop(lane);
        let _ = self.core.journal();
        Ok(told)
    }

    /// No run begins from now on.
    pub fn halt(&mut self, lane: u32) -> Told<()> {
        if !is_free(self.runs.as_slice(), lane) {
            return Err(CaseStop::Unreadable);
        }
        self.core.halt(lane);
        let _ = self.core.journal();
        Ok(())
    }

    /// Hands the answer of a run out.
    pub fn collect(&mut self, lane: u32, run: u32) -> Told<Result<Answer, CollectStop>> {
        if !is_free(self.runs.as_slice(), lane) {
            return Err(CaseStop::Unreadable);
        }
        let told = self.core.collect(lane, run);
        let _ = self.core.journal();
        Ok(told)
    }

    /// Hands the first answer out that waits for the lane.
    pub fn collect_first(&mut self, lane: u32) -> Told<Option<(u32, Answer)>> {
        if !is_free(self.runs.as_slice(), lane) {
            return Err(CaseStop::Unreadable);
        }
        let told = self.core.collect_first(lane);
        let _ = self.core.journal();
        Ok(told)
    }

    /// Begins a run in a lane that has none.
    pub fn begin(&mut self, lane: u32) -> Told<Result<u32, BeginStop>> {
        if !is_free(self.runs.as_slice(), lane) {
            return Err(CaseStop::Unreadable);
        }
        let store = self.runner.store()?;
        let begun = self.core.begin(lane, &self.runner, &self.site, store);
        let _ = self.core.journal();
        match begun {
            Ok(run) => {
                let number = run.number();
                put_run(&mut self.runs, lane, run);
                Ok(Ok(number))
            }
            Err((_, stop)) => Ok(Err(stop)),
        }
    }

    /// What the last step of the run of a lane was, if the lane has one.
    pub fn progress(&self, lane: u32) -> Option<&Progress> {
        match self.runs.get(lane as usize) {
            Some(Some(run)) => Some(run.progress()),
            _ => None,
        }
    }

    /// Lets the run of a lane go on.
    pub fn go(&mut self, lane: u32) -> Told<()> {
        let mut run = take_run(&mut self.runs, lane)?;
        let told = go_on(&mut run, &self.runner, &self.site);
        put_run(&mut self.runs, lane, run);
        told
    }

    /// Makes the call that the run of a lane wants. A run whose call does not fit is ended.
    pub fn call(&mut self, lane: u32) -> Told<Result<(), AppStepStop>> {
        let mut run = take_run(&mut self.runs, lane)?;
        if !matches!(run.progress(), Progress::Wants(_)) {
            return Err(CaseStop::Unreadable);
        }
        let told = self.core.app_step(lane, &self.runner, &mut run);
        let _ = self.core.journal();
        match told {
            Err(AppStepStop::JournalFull(full)) => {
                let _ = self.core.end(lane, &self.runner, run, EndKind::JournalFull);
                let _ = self.core.journal();
                Ok(Err(AppStepStop::JournalFull(full)))
            }
            told => {
                put_run(&mut self.runs, lane, run);
                Ok(told)
            }
        }
    }

    /// Ends the run of a lane.
    pub fn end(&mut self, lane: u32) -> Told<EndKind> {
        let run = take_run(&mut self.runs, lane)?;
        let kind = end_kind(run.progress());
        let _ = self.core.end(lane, &self.runner, run, kind);
        let _ = self.core.journal();
        Ok(kind)
    }

    /// Lets the run of a lane go on, makes its calls, and ends it: how it ended, or why a call was not made.
    pub fn run(&mut self, lane: u32) -> Told<Result<EndKind, AppStepStop>> {
        for _ in 0..TURNS {
            if matches!(self.progress(lane), Some(Progress::Going)) {
                self.go(lane)?;
            } else if matches!(self.progress(lane), Some(Progress::Wants(_))) {
                if let Err(stop) = self.call(lane)? {
                    return Ok(Err(stop));
                }
            } else {
                return Ok(Ok(self.end(lane)?));
            }
        }
        Err(CaseStop::Unreadable)
    }
}
