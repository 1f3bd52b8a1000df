//! The answers that wait are handed out and written.
#![tactic(auto)]

ghost use Rattle.std.specs.Prelude.{◌≡◌, ◌∷◌, [], IfNone, IfSome, IsOk};
ghost use Rattle.asp_core.specs.Kernel.{grown, past_of, rules_of};
ghost use Rattle.asp_core.specs.Ready.{first_for, ready};
ghost use Rattle.asp_io.specs.Faults.{HasCause};
ghost use Rattle.asp_job.specs.declared.entry.What.TheVariants as What;
ghost use Rattle.asp_job.specs.History.{with_lane};
ghost use Rattle.asp_replay.specs.Underway as way;

use crate::stop::FeedStop;
use crate::writing::write_record;
use asp_core::Core;
use asp_io::Sink;
use asp_job::{Answer, Runner};
use std::alloc::Global;

/// Hands out the first answer that waits: that of the run that ended or was refused first.
fn first_out<R: Runner>(core: &mut Core<R>) -> Option<(u32, Answer)>
    ensures first { result ≡ first_for (past_of core.old) 0
        (ready (rules_of R.meaning core.old) (past_of core.old)) }
    ensures some { IfSome result (λ given. core.new ≡ grown core.old (with_lane 0 (What.Take given.0) ∷ [])) }
    ensures none { IfNone result (core.new ≡ core.old) }
{
    core.collect_first(0)
}

/// Hands out the answers that wait, in their order, and writes the record of each.
pub fn hand_out<R: Runner, K: Sink>(
    alloc: Global,
    core: &mut Core<R>,
    sink: &mut K,
) -> Result<(), FeedStop>
    requires lane { way.AreOfLane (past_of core.old) }
    ensures out { way.HandsOut R.meaning result core.old core.new (K.held sink.old) (K.held sink.new) }
    ensures cause { HasCause FeedStop.WriteFault (K.faults sink.old) (K.faults sink.new) result }
    ensures only { way.IsOfWriting result }
    ensures none { ready (rules_of R.meaning core.old) (past_of core.old) ≡ [] → IsOk result }
{
    // The journal is valid, and the answers are those of pages.
    let _ = core.journal();
    while let Some((run, answer)) = first_out(core) {
        write_record(alloc, sink, run, core.moment(), &answer)?;
    }
    Ok(())
}
