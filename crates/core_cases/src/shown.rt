//! What the calls of a core tell, as cases write it.

use crate::desk::Told;
use crate::said::write_bytes;
use asp_core::{AdmitStop, Admitted, AppStepStop, BeginStop, CollectStop, EventStop, Progress};
use asp_job::EndKind;
use asp_journal::Full;
use case_files::{Answer, CaseStop};

/// The content of an answer is shown that has at most so many bytes.
const LONG: usize = 1000;

/// Too many or too heavy entries.
fn write_full(out: &mut Answer, full: Full) {
    out.put("full ");
    out.show(&full.entries);
    out.put(" ");
    out.show(&full.weight);
}

/// A job came, or did not.
pub fn write_admitted(out: &mut Answer, told: Told<Result<Admitted, AdmitStop>>) {
    match told {
        Ok(Ok(told)) => write_job(out, told),
        Ok(Err(AdmitStop::Stopping)) => out.put("stopping"),
        Ok(Err(AdmitStop::WaitingFull)) => out.put("waiting full"),
        Ok(Err(AdmitStop::JournalFull(full))) => write_full(out, full),
        Ok(Err(AdmitStop::Memory)) => out.stop(CaseStop::Memory),
        Err(stop) => out.stop(stop),
    }
}

/// What is told of a job that came.
fn write_job(out: &mut Answer, told: Admitted) {
    out.show(&told.run);
    if told.refused {
        out.put(" refused");
    } else {
        out.put(" key ");
        out.show(&told.key);
        out.put(" at ");
        out.show(&told.moment);
    }
}

/// Time went on, with so many keys' sessions over by it, or did not.
pub fn write_ticked(out: &mut Answer, told: Told<Result<u32, EventStop>>) {
    match told {
        Ok(Ok(expired)) => out.show(&expired),
        Ok(Err(stop)) => write_event_stop(out, stop),
        Err(stop) => out.stop(stop),
    }
}

/// An event came, or did not.
pub fn write_event(out: &mut Answer, told: Told<Result<(), EventStop>>) {
    match told {
        Ok(Ok(())) => out.put("done"),
        Ok(Err(stop)) => write_event_stop(out, stop),
        Err(stop) => out.stop(stop),
    }
}

/// No run begins from now on.
pub fn write_halted(out: &mut Answer, told: Told<()>) {
    match told {
        Ok(()) => out.put("done"),
        Err(stop) => out.stop(stop),
    }
}

fn write_event_stop(out: &mut Answer, stop: EventStop) {
    match stop {
        EventStop::JournalFull(full) => write_full(out, full),
        EventStop::Memory => out.stop(CaseStop::Memory),
    }
}

/// A run began, or did not.
pub fn write_begun(out: &mut Answer, told: Told<Result<u32, BeginStop>>) {
    match told {
        Ok(Ok(run)) => out.show(&run),
        Ok(Err(BeginStop::Idle)) => out.put("idle"),
        Ok(Err(BeginStop::JournalFull(full))) => write_full(out, full),
        Ok(Err(BeginStop::Memory)) => out.stop(CaseStop::Memory),
        Err(stop) => out.stop(stop),
    }
}

/// How far a run came.
pub fn write_progress(out: &mut Answer, progress: Option<&Progress>) {
    match progress {
        Some(Progress::Going) => out.put("more"),
        Some(Progress::Wants(_)) => out.put("wants"),
        Some(Progress::Ended) => out.put("ended"),
        Some(Progress::Dead) => out.put("dead"),
        None => out.stop(CaseStop::Unreadable),
    }
}

/// A call was made, or was not.
pub fn write_called(out: &mut Answer, told: Told<Result<(), AppStepStop>>) {
    match told {
        Ok(Ok(())) => out.put("done"),
        Ok(Err(stop)) => write_call_stop(out, stop),
        Err(stop) => out.stop(stop),
    }
}

fn write_call_stop(out: &mut Answer, stop: AppStepStop) {
    match stop {
        AppStepStop::Blocked { holder } => {
            out.put("blocked by ");
            out.show(&holder);
        }
        AppStepStop::JournalFull(full) => write_full(out, full),
        AppStepStop::Memory => out.stop(CaseStop::Memory),
    }
}

/// How a run ended.
pub fn write_ended(out: &mut Answer, told: Told<EndKind>) {
    match told {
        Ok(kind) => out.put(kind_word(kind)),
        Err(stop) => out.stop(stop),
    }
}

/// How a run ended that went on to its end, or which call was not made.
pub fn write_ran(out: &mut Answer, told: Told<Result<EndKind, AppStepStop>>) {
    match told {
        Ok(Ok(kind)) => out.put(kind_word(kind)),
        Ok(Err(stop)) => write_call_stop(out, stop),
        Err(stop) => out.stop(stop),
    }
}

/// How the first run ended, if it has.
pub fn write_started(out: &mut Answer, kind: Option<EndKind>) {
    match kind {
        Some(kind) => out.put(kind_word(kind)),
        None => out.put("none"),
    }
}

fn kind_word(kind: EndKind) -> &'static str {
    match kind {
        EndKind::Done => "ended",
        EndKind::Memory => "out of memory",
        EndKind::JournalFull => "journal full",
    }
}

/// The status of an answer and its content, or how long that is.
fn write_answer(out: &mut Answer, answer: &asp_job::Answer) {
    let length = answer.body.len();
    out.show(&answer.status);
    if length > LONG {
        out.put(" ");
        out.show(&length);
        out.put(" bytes");
    } else if length > 0 {
        out.put(" ");
        write_bytes(out, answer.body.as_slice());
    }
}

/// An answer was handed out, or was not.
pub fn write_collected(out: &mut Answer, told: &Told<Result<asp_job::Answer, CollectStop>>) {
    match told {
        Ok(Ok(answer)) => write_answer(out, answer),
        Ok(Err(CollectStop::Foreign { lane })) => {
            out.put("of lane ");
            out.show(lane);
        }
        Ok(Err(CollectStop::NotEnded)) => out.put("not ended"),
        Ok(Err(CollectStop::NoAnswer)) => out.put("no answer"),
        Ok(Err(CollectStop::Taken)) => out.put("taken"),
        Err(stop) => out.stop(*stop),
    }
}

/// The answer that was handed out first, with its run.
pub fn write_first(out: &mut Answer, told: &Told<Option<(u32, asp_job::Answer)>>) {
    match told {
        Ok(Some((run, answer))) => {
            out.show(run);
            out.put(": ");
            write_answer(out, answer);
        }
        Ok(None) => out.put("none"),
        Err(stop) => out.stop(*stop),
    }
}
