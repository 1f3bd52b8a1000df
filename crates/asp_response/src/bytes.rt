//! The bytes of an answer.
ghost use Rattle.std.specs.Prelude.{◌≡◌, [], ◌++◌, IfOk, min, map};
ghost use Rattle.std.specs.Fmt.{decimal};
ghost use Rattle.std.specs.List.{flat_map};
ghost use Rattle.httpdate.specs.Date.{unix_secs};
ghost use Rattle.vb_value.specs.Outcome.{Adds, Gives};
ghost use Rattle.asp_response.specs.AnswerText as spec;

use asp_job::{Answer, Header};
use httpdate::HttpDate;
use std::alloc::Global;
use vb_value::{Bytes, Memory, Text};

/// The last second of the year 9999.
const LAST_SECOND: u64 = 253_402_300_799;

/// The date of a moment, and that of the last second of the year 9999 for a later one.
fn date_of(moment: u64) -> HttpDate
    ensures { unix_secs result ≡ min moment 253402300799 }
{
    match HttpDate::from_unix_secs(moment.min(LAST_SECOND)) {
        Ok(date) => date,
        Err(_) => unreachable!(),
    }
}

fn push_field(bytes: &mut Bytes, name: &[u8], value: &[u8]) -> Result<(), Memory>
    ensures { Adds result bytes.old bytes.new (spec.line (spec.field name.now value.now)) }
{
    bytes.append_slice(name)?;
    bytes.append_slice(b": ")?;
    bytes.append_slice(value)?;
    bytes.append_slice(b"\r\n")
}

/// Writes a field as a line.
pub(crate) fn push_header(bytes: &mut Bytes, header: &Header) -> Result<(), Memory>
    ensures { Adds result bytes.old bytes.new (spec.line (spec.field_of header.now)) }
{
    let name = header.name.to_utf8(*bytes.allocator())?;
    push_field(bytes, name.as_slice(), header.value.as_slice())
}

fn push_headers(bytes: &mut Bytes, headers: &[Header]) -> Result<(), Memory>
    ensures { Adds result bytes.old bytes.new (flat_map spec.line (map spec.field_of headers.now)) }
{
    for header in headers {
        push_header(bytes, header)?;
    }
    Ok(())
}

fn decimal(alloc: Global, number: u64) -> Result<Bytes, Memory>
    ensures { Gives result (decimal number) }
{
    Ok(Bytes::from_vec(number.to_string(alloc)?.into_bytes()))
}

/// Writes a status as a line.
pub(crate) fn push_status(bytes: &mut Bytes, status: u16, reason: &Text) -> Result<(), Memory>
    ensures { Adds result bytes.old bytes.new (spec.line (spec.status_text status reason.now)) }
{
    let alloc = *bytes.allocator();
    let code = decimal(alloc, u64::from(status))?;
    let reason = reason.to_utf8(alloc)?;
    bytes.append_slice(b"HTTP/1.1 ")?;
    bytes.append(code)?;
    bytes.append_slice(b" ")?;
    bytes.append(reason)?;
    bytes.append_slice(b"\r\n")
}

/// Whether an answer of this status may have content.
fn may_have_content(status: u16) -> bool
    ensures { result ≡ spec.may_have_content status }
{
    status != 204 && status != 304
}

/// Writes the length of the content, where there may be one.
fn push_length(bytes: &mut Bytes, answer: &Answer) -> Result<(), Memory>
    ensures { Adds result bytes.old bytes.new (flat_map spec.line (spec.length_lines answer.now)) }
{
    if may_have_content(answer.status) {
        let length = decimal(*bytes.allocator(), answer.body.len() as u64)?;
        push_field(bytes, b"Content-Length", length.as_slice())?;
    }
    Ok(())
}

/// Writes what an answer says of the connection.
fn push_close(bytes: &mut Bytes, answer: &Answer) -> Result<(), Memory>
    ensures { Adds result bytes.old bytes.new (flat_map spec.line (spec.close_lines answer.now)) }
{
    if answer.close {
        push_field(bytes, b"Connection", b"close")?;
    }
    Ok(())
}

fn push_content(bytes: &mut Bytes, answer: &Answer) -> Result<(), Memory>
    ensures { Adds result bytes.old bytes.new (spec.line [] ++ spec.content answer.now) }
{
    bytes.append_slice(b"\r\n")?;
    if !answer.head_only && may_have_content(answer.status) {
        bytes.append_slice(answer.body.as_slice())?;
    }
    Ok(())
}

/// Writes what an answer says of its content and of the connection.
#[tactic(auto, using(crate::proofs::Lines::both_lines))]
fn push_ending(bytes: &mut Bytes, answer: &Answer) -> Result<(), Memory>
    ensures { Adds result bytes.old bytes.new
        (flat_map spec.line (spec.length_lines answer.now ++ spec.close_lines answer.now)) }
{
    push_length(bytes, answer)?;
    push_close(bytes, answer)
}

#[tactic(auto, using(crate::proofs::Lines::all_lines), unfolding(crate::specs::AnswerText::answer_text))]
fn push_answer(bytes: &mut Bytes, answer: &Answer, date: &[u8]) -> Result<(), Memory>
    ensures { Adds result bytes.old bytes.new (spec.answer_text answer.now date.now) }
{
    push_status(bytes, answer.status, &answer.reason)?;
    push_field(bytes, b"Date", date)?;
    push_headers(bytes, answer.headers.as_slice())?;
    push_ending(bytes, answer)?;
    push_content(bytes, answer)
}

/// The bytes of an answer at a moment, which is in seconds since 1970 (RFC 9112). In place of a moment after the year
/// 9999 its last second stands.
pub fn answer_bytes(alloc: Global, answer: &Answer, moment: u64) -> Result<Bytes, Memory>
    ensures { IfOk result (spec.IsAnswerText answer.now moment) }
{
    let date = date_of(moment).to_bytes();
    let mut bytes = Bytes::new(alloc);
    push_answer(&mut bytes, answer, &date)?;
    Ok(bytes)
}
