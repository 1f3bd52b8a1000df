//! The recording that a source has.
ghost use Rattle.std.specs.Prelude.{◌≡◌, IfErr, IfOk, length};
ghost use Rattle.asp_io.specs.Faults.{HasCause};
ghost use Rattle.asp_record.specs.Recorded.{IsSound, Stands};
ghost use Rattle.asp_host.specs.Input.{IsAllRecording, IsRecordingStop, IsStopOf};

use crate::source::read_source;
use asp_io::{IoStop, Source};
use asp_record::{RecordStop, Recording, read_recording, refusals_stay};
use std::alloc::Global;
use std::error::Error;
use std::fmt;
use vb_value::{Bytes, Memory};

/// Why no recording was read.
#[derive(Clone, Copy, Debug, PartialEq, Eq)]
pub enum RecordingStop {
    /// The source has none, or more than one.
    Refused {
        /// The first byte that does not fit.
        offset: u64,
    },
    /// The source failed.
    ReadFault,
    /// Memory ran out.
    Memory,
}

impl fmt::Display for RecordingStop {
    fn fmt<W: fmt::Write>(&self, f: &mut fmt::Formatter<W>) -> fmt::Result {
        match self {
            RecordingStop::Refused { offset } => write!(f, "refused at byte {offset}"),
            RecordingStop::ReadFault => write!(f, "the source failed"),
            RecordingStop::Memory => write!(f, "{}", Memory),
        }
    }
}

impl Error for RecordingStop {}

impl From<IoStop> for RecordingStop {
    ghost use Rattle.asp_host.specs.Input.{input_stop};

    ghost from_gives = { λ stop given. given ≡ input_stop stop };

    fn from(stop: IoStop) -> RecordingStop {
        match stop {
            IoStop::Failed => RecordingStop::ReadFault,
            IoStop::Memory => RecordingStop::Memory,
        }
    }
}

impl From<RecordStop> for RecordingStop {
    ghost use Rattle.asp_host.specs.Input.{record_stop};

    ghost from_gives = { λ stop given. given ≡ record_stop stop };

    fn from(stop: RecordStop) -> RecordingStop {
        match stop {
            RecordStop::Refused { offset } => RecordingStop::Refused { offset },
            RecordStop::Memory => RecordingStop::Memory,
        }
    }
}

/// The recording that is all that the source has.
#[tactic(auto, using(crate::proofs::Inputs::source_stop))]
pub fn source_recording<S: Source>(
    alloc: Global,
    source: &mut S,
) -> Result<Recording, RecordingStop>
    ensures ok { IfOk result (IsAllRecording (S.left source.old) (S.left source.new)) }
    ensures sound { IfOk result IsSound }
    ensures err { IfErr result (IsRecordingStop (S.left source.old)) }
    ensures cause { HasCause RecordingStop.ReadFault (S.faults source.old) (S.faults source.new) result }
{
    refusals_stay();
    let bytes = read_source(alloc, source)?;
    recording_of(alloc, &bytes)
}

/// The recording that all of the bytes are.
fn recording_of(alloc: Global, bytes: &Bytes) -> Result<Recording, RecordingStop>
    ensures ok { IfOk result (λ recording. Stands bytes.now recording (length bytes.now)) }
    ensures err { IfErr result (IsStopOf bytes.now) }
{
    let length = bytes.len() as u64;
    let (recording, end) = read_recording(alloc, bytes.as_slice())?;
    if end < length {
        return Err(RecordingStop::Refused { offset: end });
    }
    Ok(recording)
}
