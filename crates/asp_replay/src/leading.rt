//! What the lanes of a host do that a recording is fed to: lane 0 leads, the others help.
#![tactic(auto)]

ghost use Rattle.std.specs.Prelude.{◌≡◌, is_some};
ghost use Rattle.asp_desk.specs.Crews as crews;
ghost use Rattle.asp_desk.specs.Hands.{IsHandOf};
ghost use Rattle.asp_io.specs.Faults.{HasCause};
ghost use Rattle.asp_record.specs.Recorded.{IsSound};
ghost use Rattle.asp_replay.specs.Near.{IsLead};
ghost use Rattle.asp_replay.specs.Workers as spec;

use crate::leaving::leave;
use crate::met::Met;
use crate::round::feed_near;
use crate::stop::FeedStop;
use asp_desk::{Gate, Hand, Host, Lead, Slice, Task, Worker};
use asp_feed::Clients;
use asp_io::Sink;
use asp_job::Runner;
use asp_record::Recording;
use std::alloc::Global;
use std::sync::Wait;

/// What a lane beside lane 0 does: slices, until nothing is left to do. Where it ends early lane 0 is told.
#[derive(Clone, Copy)]
pub struct Helping<'a, G> {
    pub gate: &'a G,
    pub met: &'a Met,
}

/// Whether a loop ended early.
fn is_early(slice: Slice) -> bool
    ensures { result ≡ is_some (spec.stop_of slice) }
{
    matches!(slice, Slice::JournalFull(_) | Slice::Memory)
}

impl<'a, Rt: Wait, R: Runner, G: Gate> Task<Rt, Host<R>, Worker<R, Slice>> for Helping<'a, G> {
    ghost accepts = { λ task host worker. IsHandOf R.meaning R.stands host worker.hand };

    ghost does = { λ task host old new.
        crews.LoopsOn R.pace R.meaning R.stands (G.may_hold task.gate.now) host old new };

    fn work(&self, rt: &Rt, shared: &Host<R>, worker: &mut Worker<R, Slice>) {
        worker.made = shared.work_loop(rt, &mut worker.hand, self.gate);
        if is_early(worker.made) {
            self.met.meet();
            shared.bell().ring();
        }
    }
}

/// What lane 0 does: it feeds the recording, works, hands answers out and writes them; and where not all is fed it halts
/// the host and takes its run to its end.
#[derive(Drop)]
pub struct Leading<'a, Rt, R: Runner, G, K> {
    pub rt: &'a Rt,
    pub alloc: Global,
    pub host: &'a Host<R>,
    pub gate: &'a G,
    pub met: &'a Met,
    pub recording: &'a Recording,
    pub sink: &'a mut K,
}

impl<'a, Rt: Wait, R: Runner, G: Gate, K: Sink> Lead<Hand<R>> for Leading<'a, Rt, R, G, K> {
    ghost use Rattle.asp_replay.specs.declared.stop.FeedStop.TheVariants.{WriteFault};

    type Told = Result<(), FeedStop>;

    ghost accepts = { λ lead hand. IsLead R.meaning R.stands lead.host.now hand × IsSound lead.recording.now
        × spec.HasBegun R.meaning R.stands lead.host.now lead.recording.now.items hand };

    ghost does = { λ old hand told new then_hand. (new.sink.ghost_name ≡ old.sink.ghost_name)
        × spec.HasLed R.meaning R.stands old.host.now old.recording.now.items then_hand told
        (K.held old.sink.now) (K.held new.sink.now)
        × HasCause WriteFault (K.faults old.sink.now) (K.faults new.sink.now) told };

    fn lead(&mut self, hand: &mut Hand<R>) -> Result<(), FeedStop> {
        let mut clients = Clients::new(self.alloc);
        let fed = feed_near(
            self.rt,
            self.alloc,
            self.host,
            hand,
            self.gate,
            self.met,
            &mut clients,
            self.recording,
            self.sink,
        );
        leave(self.rt, self.host, hand, self.gate, fed)
    }
}
