//! The first run of a host.
#![tactic(auto)]

ghost use Rattle.std.specs.Prelude.{◌≡◌, [], IfErr, IfOk, OnOk};
ghost use Rattle.asp_core.specs.Kernel.{IsHostOf, past_of, rules_of};
ghost use Rattle.asp_job.specs.Runs.{unfinished};
ghost use Rattle.asp_lane.specs.First.{HasBegun, first_past};
ghost use Rattle.asp_lane.specs.Underway.{Grows, IsRunStop};

use crate::course::go_through;
use crate::stop::RunStop;
use asp_core::Core;
use asp_job::{Fail, Runner};

/// Takes the first run of a core that was just made to its end: why it failed, if it did, and the store.
pub fn begin_host<R>(
    core: &mut Core<R>,
    runner: &R,
    site: &R::Site,
    lane: u32,
    store: R::Store,
) -> Result<(Option<Fail>, R::Store), RunStop>
where
    R: Runner,
    R::State: Drop,
    R::Store: Drop,
    requires host { IsHostOf core.old runner.now site.now }
    requires first { core.old.journal ≡ first_past lane }
    ensures grows { Grows core.old core.new }
    ensures ok { IfOk result (λ begun. HasBegun (rules_of R.meaning core.old) lane begun.0 (past_of core.new)) }
    ensures free { OnOk result (unfinished (past_of core.new) ≡ []) }
    ensures err { IfErr result (IsRunStop (rules_of R.meaning core.old) lane (first_past lane)) }
{
    match go_through(core, runner, site, lane, store) {
        Ok((_, store)) => {
            // The journal is valid.
            let _ = core.journal();
            Ok((core.start_fail(), store))
        }
        Err(stop) => Err(stop),
    }
}
