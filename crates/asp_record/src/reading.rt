//! Recordings, read.
ghost use Rattle.std.specs.Prelude.{◌≡◌, ◌≤◌, ◌++◌, ℕ, [], Ok, IfOk, IsSome, IsTrue, MatchOption};
ghost use Rattle.std.specs.Bool.{Decides};
ghost use Rattle.vb_value.specs.Outcome.{Answers, Gives};
ghost use Rattle.http_front.specs.Reader.{Wants};
ghost use Rattle.asp_record.specs.declared.recording.Recording.{Recording as Recorded};
ghost use Rattle.asp_record.specs.declared.stop.RecordStop.TheVariants.{Memory as OutOfMemory};
ghost use Rattle.asp_record.specs.Fields.{Reads};
ghost use Rattle.asp_record.specs.Reading.{HasHead, HasNoRule, HasOpening, item_of, seed_line_at};
ghost use Rattle.asp_record.specs.Recording.{First, Second, item_text, lock_text, seed_text, version_text};
ghost use Rattle.asp_record.specs.Recorded as spec;

use crate::line::{Line, item_at};
use crate::one_request::is_one_request;
use crate::recording::{Item, Recording};
use crate::scanning::{behind, seed_at};
use crate::stop::RecordStop;
use http_front::Reader;
use std::alloc::Global;
use vb_value::{Bytes, List, Memory};

/// The last second of the year 9999.
const LAST_MOMENT: u64 = 253_402_300_799;
/// How many bytes a recording may have.
const MOST_BYTES: usize = 67_108_864;

/// Whether time goes on from one moment to another.
fn is_in_time(now: u64, moment: u64) -> bool
    ensures { Decides result ((now ≤ moment) × (moment ≤ 253402300799)) }
{
    now <= moment && moment <= LAST_MOMENT
}

/// Whether a request may come where time has come to a moment.
fn is_next_request(
    reader: &mut Reader,
    now: u64,
    client: u32,
    moment: u64,
    bytes: &[u8],
) -> Result<bool, Memory>
    requires empty { reader.old ≡ [] }
    requires wants { Wants reader.old }
    ensures tells { IfOk result (λ yes. Decides yes (spec.IsNext now (Item.Request client moment bytes.now))) }
    ensures kept { IfOk result (λ yes. IsTrue yes → reader.new ≡ []) }
{
    let _client = client;
    if !is_in_time(now, moment) {
        return Ok(false);
    }
    if bytes.len() > MOST_BYTES {
        return Ok(false);
    }
    is_one_request(reader, bytes)
}

/// Whether an item may come where time has come to a moment.
fn is_next(reader: &mut Reader, now: u64, line: Line<'_>) -> Result<bool, Memory>
    requires empty { reader.old ≡ [] }
    requires wants { Wants reader.old }
    ensures tells { IfOk result (λ yes. Decides yes (spec.IsNext now (item_of line.entry))) }
    ensures kept { IfOk result (λ yes. IsTrue yes → reader.new ≡ []) }
{
    match line {
        Line::Tick { moment } => Ok(is_in_time(now, moment)),
        Line::Request {
            client,
            moment,
            bytes,
        } => is_next_request(reader, now, client, moment, bytes),
    }
}

/// The item that comes next, and what follows it.
fn next_item<'a>(
    reader: &mut Reader,
    now: u64,
    bytes: &'a [u8],
) -> Result<Option<(Line<'a>, &'a [u8])>, Memory>
    requires empty { reader.old ≡ [] }
    requires wants { Wants reader.old }
    ensures found { IfOk result (λ found. MatchOption found (spec.HasNoItem now bytes.now)
        (λ read. spec.IsNext now (item_of read.0) × (bytes.now ≡ item_text (item_of read.0) ++ read.1.now))) }
    ensures kept { IfOk result (λ found. IsSome found → reader.new ≡ []) }
{
    let Some((line, rest)) = item_at(bytes) else {
        return Ok(None);
    };
    if is_next(reader, now, line)? {
        Ok(Some((line, rest)))
    } else {
        Ok(None)
    }
}

fn moment_of(line: Line<'_>) -> u64
    ensures { result ≡ spec.moment_of (item_of line.entry) }
{
    match line {
        Line::Request { moment, .. } => moment,
        Line::Tick { moment } => moment,
    }
}

fn item(alloc: Global, line: Line<'_>) -> Result<Item, Memory>
    ensures { Gives result (item_of line.entry) }
{
    match line {
        Line::Request {
            client,
            moment,
            bytes,
        } => {
            let mut copy = Bytes::new(alloc);
            copy.append_slice(bytes)?;
            Ok(Item::Request {
                client,
                moment,
                bytes: copy,
            })
        }
        Line::Tick { moment } => Ok(Item::Tick { moment }),
    }
}

/// All items at the front of bytes, and what follows them.
fn read_items(alloc: Global, bytes: &[u8]) -> Result<(List<Item>, &[u8]), Memory>
    ensures { IfOk result (λ read. spec.ReadsItems bytes.now read.0 read.1.now) }
{
    let mut reader = Reader::new(alloc);
    let mut items = List::new(alloc);
    let mut now = 0;
    let mut rest = bytes;
    loop {
        match next_item(&mut reader, now, rest)? {
            None => return Ok((items, rest)),
            Some((line, after)) => {
                items.push(item(alloc, line)?)?;
                now = moment_of(line);
                rest = after;
            }
        }
    }
}

/// The seed whose line stands at the front of bytes.
#[tactic(auto, unfolding(crate::specs::Reading::seed_line_at))]
fn seed_line(bytes: &[u8]) -> Option<([u8; 32], &[u8])>
    ensures { Reads (λ read. (read.0, read.1.now)) result (seed_line_at bytes.now) }
{
    let text = behind(b"seed ", bytes)?;
    let (seed, rest) = seed_at(text)?;
    let rest = behind(b"\n", rest)?;
    Some((seed, rest))
}

/// The rule whose line stands at the front of bytes.
fn rule_line(bytes: &[u8]) -> Option<(bool, &[u8])>
    ensures { MatchOption result (HasNoRule bytes.now) (λ found. bytes.now ≡ lock_text found.0 ++ found.1.now) }
{
    if let Some(rest) = behind(b"lock plain\n", bytes) {
        return Some((false, rest));
    }
    match behind(b"lock strict\n", bytes) {
        Some(rest) => Some((true, rest)),
        None => None,
    }
}

/// Ends a recording, of which `rest` is still to be read.
fn ended(bytes: &[u8], rest: &[u8], recording: Recording) -> Result<(Recording, u64), RecordStop>
    requires text { HasOpening bytes.now recording rest.now }
    requires sound { spec.IsSound recording }
    requires last { spec.HasNoItem (spec.last_of 0 recording.items) rest.now }
    ensures recording { IfOk result (λ read. spec.Stands bytes.now read.0 read.1) }
    ensures refused { spec.OnRefused result (spec.IsRefusedAt bytes.now) }
{
    let at = bytes.len() - rest.len();
    if at > MOST_BYTES {
        return Err(RecordStop::Refused {
            offset: MOST_BYTES as u64,
        });
    }
    match behind(b"end\n", rest) {
        None => Err(RecordStop::Refused { offset: at as u64 }),
        Some(_) => {
            if at + 4 > MOST_BYTES {
                return Err(RecordStop::Refused {
                    offset: MOST_BYTES as u64,
                });
            }
            Ok((recording, at as u64 + 4))
        }
    }
}

/// A recording with this seed and rule, of which `bytes` from `begun` on are still to be read.
fn recording_from(
    alloc: Global,
    bytes: &[u8],
    begun: &[u8],
    seed: [u8; 32],
    strict: bool,
) -> Result<(Recording, u64), RecordStop>
    requires { HasHead bytes.now seed strict begun.now }
    ensures recording { IfOk result (λ read. spec.Stands bytes.now read.0 read.1) }
    ensures refused { spec.OnRefused result (spec.IsRefusedAt bytes.now) }
{
    let (items, rest) = read_items(alloc, begun)?;
    ended(
        bytes,
        rest,
        Recording {
            seed,
            strict,
            items,
        },
    )
}

/// A recording of the first version, of which `bytes` from `named` on are still to be read.
fn first_version(alloc: Global, bytes: &[u8], named: &[u8]) -> Result<(Recording, u64), RecordStop>
    requires { bytes.now ≡ version_text First ++ named.now }
    ensures recording { IfOk result (λ read. spec.Stands bytes.now read.0 read.1) }
    ensures refused { spec.OnRefused result (spec.IsRefusedAt bytes.now) }
{
    match seed_line(named) {
        None => Err(RecordStop::Refused { offset: 9 }),
        Some(found) => {
            let (seed, begun) = found;
            recording_from(alloc, bytes, begun, seed, false)
        }
    }
}

/// A recording of the second version, of which `bytes` from `seeded` on are still to be read.
fn ruled(
    alloc: Global,
    bytes: &[u8],
    seeded: &[u8],
    seed: [u8; 32],
) -> Result<(Recording, u64), RecordStop>
    requires { bytes.now ≡ version_text Second ++ seed_text seed ++ seeded.now }
    ensures recording { IfOk result (λ read. spec.Stands bytes.now read.0 read.1) }
    ensures refused { spec.OnRefused result (spec.IsRefusedAt bytes.now) }
{
    match rule_line(seeded) {
        None => Err(RecordStop::Refused { offset: 79 }),
        Some(found) => {
            let (strict, begun) = found;
            recording_from(alloc, bytes, begun, seed, strict)
        }
    }
}

/// A recording of the second version, of which `bytes` from `named` on are still to be read.
fn second_version(alloc: Global, bytes: &[u8], named: &[u8]) -> Result<(Recording, u64), RecordStop>
    requires { bytes.now ≡ version_text Second ++ named.now }
    ensures recording { IfOk result (λ read. spec.Stands bytes.now read.0 read.1) }
    ensures refused { spec.OnRefused result (spec.IsRefusedAt bytes.now) }
{
    match seed_line(named) {
        None => Err(RecordStop::Refused { offset: 9 }),
        Some(found) => {
            let (seed, seeded) = found;
            ruled(alloc, bytes, seeded, seed)
        }
    }
}

/// The recording at the front of bytes, and where it ends.
fn recording_at(alloc: Global, bytes: &[u8]) -> Result<(Recording, u64), RecordStop>
    ensures recording { IfOk result (λ read. spec.Stands bytes.now read.0 read.1) }
    ensures refused { spec.OnRefused result (spec.IsRefusedAt bytes.now) }
{
    if let Some(named) = behind(b"ASPREC 1\n", bytes) {
        return first_version(alloc, bytes, named);
    }
    match behind(b"ASPREC 2\n", bytes) {
        None => Err(RecordStop::Refused { offset: 0 }),
        Some(named) => second_version(alloc, bytes, named),
    }
}

/// Reads the recording at the front of bytes, of either version, and tells where it ends. What follows it is left to the
/// caller.
///
/// Bytes without one are refused at the first byte of the first line that does not fit, of which a request's bytes are
/// a part; at their length, where `end` is missing behind whole lines; and at 67,108,864, where the recording is
/// longer.
pub fn read_recording(alloc: Global, bytes: &[u8]) -> Result<(Recording, u64), RecordStop>
    ensures recording { IfOk result (λ read. spec.Stands bytes.now read.0 read.1) }
    ensures only { (recording : Recorded) (end : ℕ) → spec.Stands bytes.now recording end
        → Answers result OutOfMemory (Ok (recording, end)) }
    ensures refused { spec.OnRefused result (spec.IsRefusedAt bytes.now) }
{
    recording_at(alloc, bytes)
}
