//! How a command ended.
ghost use Rattle.std.specs.Prelude.{◌≡◌, IfOk};
ghost use Rattle.std.specs.String.{string_bytes};
ghost use Rattle.vb_value.specs.Outcome.{Gives};
ghost use Rattle.asp_host.specs.Status.{code_of, fault_text_of, kind_text_of, place_text, text_of};

use crate::fail_text::fail_text;
use crate::recording::RecordingStop;
use crate::replay_text::{full_text, refused_text};
use asp_get::GetStop;
use asp_job::Fail;
use asp_journal::Full;
use asp_replay::FeedStop;
use asp_serve::ServeStop;
use site_load::LoadStop;
use std::alloc::Global;
use vb_value::{Copied, FaultKind, Memory, SiteFault, Text};

/// The commands.
const USAGE: &str = "usage: get SITE PATH, check SITE, replay SITE, serve SITE --requests N, gen N";

/// How a command ended.
#[derive(Debug, Drop)]
pub enum Status {
    /// The command did all of its work.
    Ok,
    /// Memory ran out.
    Memory,
    /// The words are those of no command.
    Usage,
    /// The folder is no site, or none that this host runs, for this fault.
    SiteRefused(SiteFault),
    /// Application_OnStart failed, for this cause.
    StartFailed(Fail),
    /// The folder failed.
    ReadFault,
    /// The sink failed.
    WriteFault,
    /// The source has no recording, or more than one.
    RecordRefused {
        /// The first byte that does not fit.
        offset: u64,
    },
    /// The journal would be too long or too heavy.
    JournalFull(Full),
    /// The wire failed.
    AcceptFault,
}

impl From<LoadStop> for Status {
    ghost use Rattle.asp_host.specs.Status.{status_of};

    ghost from_gives = { λ stop status. status ≡ status_of stop };

    fn from(stop: LoadStop) -> Status {
        match stop {
            LoadStop::Refused(fault) => Status::SiteRefused(fault),
            LoadStop::ReadFault => Status::ReadFault,
            LoadStop::Memory => Status::Memory,
        }
    }
}

impl From<GetStop> for Status {
    ghost use Rattle.asp_host.specs.Status.{get_status_of};

    ghost from_gives = { λ stop status. status ≡ get_status_of stop };

    fn from(stop: GetStop) -> Status {
        match stop {
            GetStop::StartFailed(fail) => Status::StartFailed(fail),
            GetStop::JournalFull(full) => Status::JournalFull(full),
            GetStop::Memory => Status::Memory,
        }
    }
}

impl From<RecordingStop> for Status {
    ghost use Rattle.asp_host.specs.Status.{recording_status_of};

    ghost from_gives = { λ stop status. status ≡ recording_status_of stop };

    fn from(stop: RecordingStop) -> Status {
        match stop {
            RecordingStop::Refused { offset } => Status::RecordRefused { offset },
            RecordingStop::ReadFault => Status::ReadFault,
            RecordingStop::Memory => Status::Memory,
        }
    }
}

impl From<FeedStop> for Status {
    ghost use Rattle.asp_host.specs.Status.{feed_status_of};

    ghost from_gives = { λ stop status. status ≡ feed_status_of stop };

    fn from(stop: FeedStop) -> Status {
        match stop {
            FeedStop::StartFailed(fail) => Status::StartFailed(fail),
            FeedStop::JournalFull(full) => Status::JournalFull(full),
            FeedStop::WriteFault => Status::WriteFault,
            FeedStop::Memory => Status::Memory,
        }
    }
}

impl From<ServeStop> for Status {
    ghost use Rattle.asp_host.specs.Status.{serve_status_of};

    ghost from_gives = { λ stop status. status ≡ serve_status_of stop };

    fn from(stop: ServeStop) -> Status {
        match stop {
            ServeStop::StartFailed(fail) => Status::StartFailed(fail),
            ServeStop::JournalFull(full) => Status::JournalFull(full),
            ServeStop::AcceptFault => Status::AcceptFault,
            ServeStop::Memory => Status::Memory,
        }
    }
}

/// The exit status of the program, 0 where the command did all of its work.
pub fn status_code(status: &Status) -> u8
    ensures { result ≡ code_of status.now }
{
    match status {
        Status::Ok => 0,
        Status::Memory => 1,
        Status::Usage => 2,
        Status::SiteRefused(_) => 3,
        Status::ReadFault => 4,
        Status::WriteFault => 5,
        Status::RecordRefused { .. } => 6,
        Status::JournalFull(_) => 7,
        Status::StartFailed(_) => 8,
        Status::AcceptFault => 9,
    }
}

/// What the program says of the end, in one line without its end. It is empty where there is nothing to say.
pub fn status_text(alloc: Global, status: &Status) -> Result<Text, Memory>
    ensures { Gives result (text_of status.now) }
{
    match status {
        Status::Ok => Ok(Text::new(alloc)),
        Status::SiteRefused(fault) => fault_text(alloc, fault),
        Status::StartFailed(fail) => fail_text(alloc, *fail),
        Status::RecordRefused { offset } => refused_text(alloc, *offset),
        Status::JournalFull(full) => full_text(alloc, *full),
        Status::Memory => Text::from_str(alloc, "out of memory"),
        Status::Usage => Text::from_str(alloc, USAGE),
        Status::ReadFault => Text::from_str(alloc, "read fault"),
        Status::WriteFault => Text::from_str(alloc, "write fault"),
        Status::AcceptFault => Text::from_str(alloc, "accept fault"),
    }
}

/// The path, the line and the kind of the fault.
fn fault_text(alloc: Global, fault: &SiteFault) -> Result<Text, Memory>
    ensures { Gives result (fault_text_of fault.now) }
{
    let place = place_string(alloc, fault.line, fault.kind)?;
    let mut text = fault.path.copy()?;
    text.push_str(place.as_str())?;
    Ok(text)
}

/// The line and the kind of a fault.
fn place_string(alloc: Global, line: u32, kind: FaultKind) -> Result<String, Memory>
    ensures { IfOk result (λ place. string_bytes place ≡ place_text line kind) }
{
    let kind = kind_text(kind);
    Ok(format!(in alloc; ":{line}: {kind}")?)
}

/// The name of what is wrong with a file.
fn kind_text(kind: FaultKind) -> &'static str
    ensures { result.now ≡ kind_text_of kind }
{
    match kind {
        FaultKind::NotYet => "NotYet",
        FaultKind::NotUtf8 => "NotUtf8",
        FaultKind::OpenBlock => "OpenBlock",
        FaultKind::LateDirective => "LateDirective",
        FaultKind::BadDirective => "BadDirective",
        FaultKind::ObjectTag => "ObjectTag",
        FaultKind::NotFound => "NotFound",
        FaultKind::BadPath => "BadPath",
        FaultKind::Cycle => "Cycle",
        FaultKind::Depth => "Depth",
        FaultKind::BadGlobal => "BadGlobal",
        FaultKind::TooLarge => "TooLarge",
        FaultKind::OpenString => "OpenString",
        FaultKind::OpenBracket => "OpenBracket",
        FaultKind::LongName => "LongName",
        FaultKind::BadNumber => "BadNumber",
        FaultKind::DateLiteral => "DateLiteral",
        FaultKind::BadOperator => "BadOperator",
        FaultKind::BadCharacter => "BadCharacter",
        FaultKind::Unexpected => "Unexpected",
        FaultKind::CallParens => "CallParens",
        FaultKind::TextHere => "TextHere",
        FaultKind::TooDeep => "TooDeep",
        FaultKind::Redefined => "Redefined",
        FaultKind::BadExit => "BadExit",
        FaultKind::ConstTarget => "ConstTarget",
        FaultKind::BadMember => "BadMember",
        FaultKind::TooMany => "TooMany",
    }
}
