//! How a run begins.
#![tactic(auto)]

ghost use Rattle.std.specs.Prelude.{◌≡◌, ◌<◌, ◌≤◌, ◌+◌, ◌^◌, Option, IfSome, IfOk, true, if◌then◌else◌};
ghost use Rattle.std.specs.Option.{option_copied};
ghost use Rattle.vb_value.specs.Outcome.{Gives};
ghost use Rattle.asp_job.specs.Runs as runs;
ghost use Rattle.asp_core.specs.Book.{past_by};
ghost use Rattle.asp_core.specs.Kernel as kernel;
ghost use Rattle.asp_core.specs.Opening as spec;
ghost use Rattle.asp_core.specs.Sessions.{sessions_in};
ghost use Rattle.asp_core.specs.Standing as standing;

use crate::admitted::stand_in;
use crate::run::StandIns;
use asp_job::{Job, SessionState, Work, copy_session};
use asp_journal::Journal;
use asp_response::Unavailable;
use asp_session::{Sessions, letters};
use std::alloc::Global;
use vb_value::{List, Memory, Text};

/// The number of the session with which a run begins, 0 without one, and whether the run opens it.
#[derive(Clone, Copy, Debug)]
pub struct SessionNumber {
    pub serial: u32,
    pub is_new: bool,
}

/// What a run begins with: its job, its session, the letters of its key, where its job made the key, and the answers
/// that stand in for its own.
#[derive(Debug, Drop)]
pub struct Opening {
    pub job: Job,
    pub session: Option<SessionState>,
    pub cookie: Option<Text>,
    pub stand_ins: StandIns,
}

fn serial_if(opened: u32, opens: bool, session: Option<&SessionState>) -> u32
    requires { opened + 1 < 2 ^ 31 }
    ensures { result ≡ spec.serial_if opened opens (option_copied session.entry) }
{
    match session {
        Some(session) => session.serial,
        None => if opens { opened + 1 } else { 0 },
    }
}

/// The number of the session with which the run begins.
pub fn session_number(journal: &Journal, sessions: &Sessions, run: u64) -> SessionNumber
    requires { sessions.now.account.opened + 1 < 2 ^ 31 }
    ensures number { spec.IsNumberOf (runs.draw_of (past_by journal.now) run)
        (sessions_in sessions.now.account (runs.key_of (past_by journal.now) run))
        sessions.now.account.opened result }
    ensures may { kernel.IsSessionIn
        (sessions_in sessions.now.account (runs.key_of (past_by journal.now) run)) }
{
    let key = journal.key_of(run);
    let held = sessions.session(key);
    let is_new = journal.is_page_run(run) && key != 0 && held.is_none();
    SessionNumber {
        serial: serial_if(sessions.opened(), is_new, held),
        is_new,
    }
}

/// The session with which a run begins.
fn session_if(
    alloc: Global,
    number: SessionNumber,
    session: Option<&SessionState>,
) -> Result<Option<SessionState>, Memory>
    ensures { Gives result (spec.session_if number.is_new (option_copied session.entry) number.serial) }
{
    if number.is_new {
        return Ok(Some(SessionState {
            serial: number.serial,
            timeout: 20,
            values: List::new(alloc),
            dicts: List::new(alloc),
        }));
    }
    match session {
        Some(session) => Ok(Some(copy_session(alloc, session)?)),
        None => Ok(None),
    }
}

/// The characters with the numbers of the bytes.
fn text_of(alloc: Global, bytes: &[u8]) -> Result<Text, Memory>
    ensures { Gives result bytes.now }
{
    let mut text = Text::with_capacity(alloc, bytes.len())?;
    for byte in bytes {
        text.push(char::from(*byte))?;
    }
    Ok(text)
}

/// The letters of a key, where it was made for the job.
fn cookie_if(alloc: Global, seed: &[u8; 32], fresh: bool, key: u32) -> Result<Option<Text>, Memory>
    requires { fresh ≡ true → 0 < key }
    ensures { Gives result (spec.cookie_if seed.now fresh key) }
{
    if fresh {
        let letters = letters(seed, key);
        Ok(Some(text_of(alloc, letters.as_slice())?))
    } else {
        Ok(None)
    }
}

/// The answers that stand in for that of a run with this work.
fn stand_ins(alloc: Global, work: &Work) -> Result<StandIns, Memory>
    ensures { Gives result (standing.stand_ins work.now) }
{
    Ok(StandIns {
        memory: stand_in(alloc, Unavailable::OutOfMemory, work)?,
        full: stand_in(alloc, Unavailable::JournalFull, work)?,
    })
}

/// What the run begins with, where that is the number of its session.
pub fn open_run(
    seed: &[u8; 32],
    journal: &Journal,
    sessions: &Sessions,
    number: SessionNumber,
    run: u64,
) -> Result<Opening, Memory>
    requires { runs.is_fresh (past_by journal.now) run ≡ true → 0 < runs.key_of (past_by journal.now) run }
    ensures { IfOk result (spec.IsOpening seed.now (runs.draw_of (past_by journal.now) run)
        (sessions_in sessions.now.account (runs.key_of (past_by journal.now) run)) number) }
{
    let alloc = journal.alloc();
    let job = journal.job_of(run)?;
    let key = journal.key_of(run);
    let session = session_if(alloc, number, sessions.session(key))?;
    let cookie = cookie_if(alloc, seed, journal.is_fresh(run), key)?;
    let stand_ins = stand_ins(alloc, &job.work)?;
    Ok(Opening {
        job,
        session,
        cookie,
        stand_ins,
    })
}
