//! The lines of a journal, read.
ghost use Rattle.std.specs.Prelude.{◌≡◌, List as Lines, Ok, IfOk};
ghost use Rattle.vb_value.specs.Outcome.{Answers};
ghost use Rattle.asp_record.specs.declared.journal.Line.{Line as LineValue};
ghost use Rattle.asp_record.specs.declared.stop.RecordStop.TheVariants.{Memory as OutOfMemory};
ghost use Rattle.asp_record.specs.Recorded.{OnRefused};
ghost use Rattle.asp_record.specs.Journal as spec;

use crate::line_reading::line_at;
use crate::stop::RecordStop;
use asp_job::{EndKind, Work};
use std::alloc::Global;
use vb_value::{AppCall, AppReply, List};

/// What a line says that a lane did.
#[derive(Debug, Drop)]
pub enum LineWhat {
    /// A run of the host's own waits from now on: an event of `global.asa`.
    Queue {
        run: u32,
        work: Work,
        /// The session key, counted from 1; 0 for none.
        key: u32,
    },
    /// A run of a page waits from now on.
    Admit {
        run: u32,
        /// The session key, counted from 1; 0 for none.
        key: u32,
        /// Seconds since 1970.
        moment: u64,
    },
    /// A job needed a new session key, and as many were live as may be.
    Refuse {
        run: u32,
        /// Seconds since 1970.
        moment: u64,
    },
    /// Time went on.
    Tick {
        /// Seconds since 1970.
        moment: u64,
    },
    /// A run began.
    Begin {
        run: u32,
        /// The number of its session; 0 for none.
        serial: u32,
    },
    /// A run called the Application object.
    App {
        run: u32,
        call: AppCall,
        reply: AppReply,
    },
    /// A run ended.
    End {
        run: u32,
        kind: EndKind,
        /// The status code of its answer (RFC 9110, section 15); 0 without an answer.
        status: u16,
        /// The bytes of its answer's content; 0 without an answer.
        length: u32,
        /// How many objects the run made.
        made: u32,
        /// How many objects the run ended.
        finished: u32,
    },
    /// No job is admitted from now on, and all sessions end.
    Stop,
}

/// A line of a journal.
#[derive(Debug, Drop)]
pub struct Line {
    /// The number of the lane that made the entry.
    pub lane: u32,
    pub what: LineWhat,
}

/// The lines that bytes are.
fn all_lines(alloc: Global, bytes: &[u8]) -> Result<List<Line>, RecordStop>
    ensures lines { IfOk result (λ lines. spec.IsJournal bytes.now lines) }
    ensures refused { OnRefused result (spec.IsNoJournalAt bytes.now) }
{
    let mut lines = List::new(alloc);
    let mut rest = bytes;
    while 0 < rest.len() {
        let Some((line, after)) = line_at(alloc, rest)? else {
            let at = bytes.len() - rest.len();
            return Err(RecordStop::Refused { offset: at as u64 });
        };
        lines.push(line)?;
        rest = after;
    }
    Ok(lines)
}

/// Reads the lines of a journal, as [`entry_line`](crate::entry_line) writes them.
///
/// Other bytes are refused at the first byte of the first line that does not fit.
pub fn read_lines(alloc: Global, bytes: &[u8]) -> Result<List<Line>, RecordStop>
    ensures lines { IfOk result (λ lines. spec.IsJournal bytes.now lines) }
    ensures only { (lines : Lines LineValue) → spec.IsJournal bytes.now lines
        → Answers result OutOfMemory (Ok lines) }
    ensures refused { OnRefused result (spec.IsNoJournalAt bytes.now) }
{
    all_lines(alloc, bytes)
}
