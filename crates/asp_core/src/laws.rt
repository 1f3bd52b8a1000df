//! Laws of valid journals. Each is the contract of a function that does nothing.
#![tactic(auto)]

ghost use Rattle.std.specs.Prelude.{◌≡◌, ℕ, true, false, List, [], ◌∷◌, Some, filter, length, nat_lt, not};
ghost use Rattle.asp_job.specs.declared.entry.Entry.{Entry};
ghost use Rattle.asp_job.specs.declared.entry.What.{What as Said};
ghost use Rattle.asp_job.specs.History.{held_by, with_lane};
ghost use Rattle.asp_job.specs.declared.job.Job.{Job};
ghost use Rattle.asp_job.specs.Journal.{AreRight, IsRight, past_after};
ghost use Rattle.asp_job.specs.Journal.{admit_entries, stop_entries, tick_entries};
ghost use Rattle.asp_job.specs.Keys.{is_askable, is_due_key, live, made, session_of, told};
ghost use Rattle.asp_job.specs.Output.{answer_of_run};
ghost use Rattle.asp_job.specs.Rules.{Rules};
ghost use Rattle.asp_job.specs.Runs.{has_ended, is_unfinished, numbers, unfinished, waiting};
ghost use Rattle.asp_job.specs.Turns.{IsRunning, has_most_keys, may_begin};
ghost use Rattle.asp_session.specs.Account as keys;
ghost use Rattle.asp_session.specs.Account.{Account};
ghost use Rattle.asp_session.specs.Steps.{most_live};
ghost use Rattle.asp_core.specs.Sessions.{Tells, account_after, account_of, sessions_in};
ghost use Rattle.asp_core.specs.Kernel.{CoreView, IsRunOf, RunView, grown, past_of, rules_of};
ghost use Rattle.asp_core.specs.Laws.{AreNoSteps, AreOfLane, AreOfOthers, RunStays};
ghost use Rattle.asp_core.specs.Waits.{AreThose};

use asp_job::Runner;

/// The entries of other lanes leave an unfinished run as it is: it stays unfinished, and is told nothing.
pub fn runs_stay()
    ensures { (rules : Rules) (past entries : List Entry) (lane run : ℕ) →
        AreRight rules (past_after past entries) → IsRunning past lane run → AreOfOthers lane entries →
        RunStays rules past (past_after past entries) lane run }
{}

/// A run that was moved out stays one of the core's, whatever else comes: entries of its own lane that are no call and no
/// End of it, and all entries of other lanes.
pub fn run_stays<R: Runner>()
    ensures steps { (core : CoreView R R.Site) (entries : List Entry) (lane : ℕ) (run : RunView R.State) →
        AreRight (rules_of R.meaning core) (past_after (past_of core) entries) →
        IsRunOf R.meaning R.stands core lane run → AreNoSteps run.number entries →
        IsRunOf R.meaning R.stands (grown core entries) lane run }
    ensures others { (core : CoreView R R.Site) (entries : List Entry) (lane : ℕ) (run : RunView R.State) →
        AreRight (rules_of R.meaning core) (past_after (past_of core) entries) →
        IsRunOf R.meaning R.stands core lane run → AreOfOthers lane entries →
        IsRunOf R.meaning R.stands (grown core entries) lane run }
{}

/// A run that has ended or was refused stays so, and its answer stays.
pub fn answer_stays()
    ensures { (rules : Rules) (past entries : List Entry) (run : ℕ) →
        AreRight rules (past_after past entries) → has_ended past run ≡ true →
        (has_ended (past_after past entries) run ≡ true)
        × (answer_of_run rules (past_after past entries) run ≡ answer_of_run rules past run) }
{}

/// The entries that an event adds bear the lane of the event.
pub fn events_bear_lane()
    ensures tick { (rules : Rules) (past : List Entry) (lane moment : ℕ) →
        AreOfLane lane (tick_entries rules past lane moment) }
    ensures admit { (rules : Rules) (past : List Entry) (lane : ℕ) (job : Job) →
        AreOfLane lane (admit_entries rules past lane job) }
    ensures stop { (rules : Rules) (past : List Entry) (lane : ℕ) → AreOfLane lane (stop_entries rules past lane) }
{}

/// The answers that wait are those of the runs that have ended and were not handed out, each once.
pub fn answers_wait()
    ensures { (rules : Rules) (past : List Entry) → AreRight rules past → AreThose rules past }
{}

/// The run that has the lock of the Application object is unfinished: no lock stays when its run has ended.
pub fn holder_is_unfinished()
    ensures { (rules : Rules) (past : List Entry) (run : ℕ) →
        AreRight rules past → (held_by past).holder ≡ Some run → is_unfinished past run ≡ true }
{}

/// A host with nothing under way is never stuck: as long as a run waits, one may begin.
pub fn some_run_may_begin()
    ensures { (rules : Rules) (past : List Entry) →
        AreRight rules past → unfinished past ≡ [] → ((run : ℕ) → may_begin past run ≡ false) → waiting past ≡ [] }
{}

/// Each entry makes one step of the account of the session keys, and the account tells of the keys what the journal does:
/// the session of each, which are live, which may be asked for, whether as many are live as may be, and which are due.
pub fn account_steps()
    ensures step { (rules : Rules) (seed : List ℕ) (past : List Entry) (lane : ℕ) (what : Said) →
        AreRight rules past → IsRight rules past (with_lane lane what) →
        account_of rules seed (with_lane lane what ∷ past)
        ≡ account_after rules past what (account_of rules seed past) }
    ensures told { (rules : Rules) (past : List Entry) (account : Account) →
        AreRight rules past → account ≡ account_of rules account.seed past →
        Tells account past × (sessions_in account ≡ session_of rules past) }
    ensures live { (account : Account) (past : List Entry) →
        Tells account past → keys.live account ≡ live (sessions_in account) past }
    ensures askable { (account : Account) (past : List Entry) (key : ℕ) →
        Tells account past → keys.is_askable key account ≡ is_askable (sessions_in account) past key }
    ensures full { (account : Account) (past : List Entry) → Tells account past →
        not (nat_lt (length account.keys) most_live) ≡ has_most_keys (sessions_in account) past }
    ensures due { (account : Account) (past : List Entry) (moment : ℕ) → Tells account past →
        keys.due moment account ≡ filter (is_due_key (sessions_in account) past moment) (numbers (made past)) }
{}
