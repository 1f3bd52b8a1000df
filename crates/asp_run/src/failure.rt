//! What an answer says of an act that failed.
ghost use Rattle.std.specs.Prelude.{◌≡◌, ◌<◌, ◌++◌, codes};
ghost use Rattle.vb_value.specs.Outcome.{Adds, Gives};
ghost use Rattle.asp_acts.specs.Failures as spec;
ghost use Rattle.asp_acts.specs.Lines as lines;

use crate::text::{ascii, push_ascii};
use asp_job::Fail;
use asp_site::{LineSpot, Page};
use asp_text::html_encode;
use std::alloc::Global;
use vb_syntax::ActEnd;
use vb_value::{Copied, LimitKind, Memory, Text};

/// Where a line of the page's program stands.
fn spot_of(page: &Page, line: u32) -> Result<LineSpot, Memory>
    ensures { Gives result (lines.spot_of page.now line) }
{
    match page.lines.spot(line as usize)? {
        Some(spot) => Ok(spot),
        None => Ok(LineSpot {
            path: page.path.copy()?,
            line,
        }),
    }
}

fn hex_digit(digit: u32) -> char
    requires { digit < 16 }
    ensures { result ≡ spec.hex_digit digit }
{
    if digit < 10 {
        char::from(48 + digit as u8)
    } else {
        char::from(87 + digit as u8)
    }
}

fn push_digits(text: &mut Text, number: u32) -> Result<(), Memory>
    ensures { Adds result text.old text.new (spec.four_digits number) }
{
    text.append_slice(&[
        hex_digit(number / 4096 % 16),
        hex_digit(number / 256 % 16),
        hex_digit(number / 16 % 16),
        hex_digit(number % 16),
    ])
}

fn push_all_digits(text: &mut Text, number: u32) -> Result<(), Memory>
    ensures { Adds result text.old text.new (spec.eight_digits number) }
{
    push_digits(text, number / 65536)?;
    push_digits(text, number)
}

fn push_short_code(text: &mut Text, number: u32) -> Result<(), Memory>
    ensures { Adds result text.old text.new (codes "800a" ++ spec.four_digits number) }
{
    push_ascii(text, b"800a")?;
    push_digits(text, number)
}

fn bits_of(number: i32) -> u32
    ensures { result ≡ spec.bits_of number }
{
    if number < 0 {
        u32::MAX - (-(number + 1)) as u32
    } else {
        number as u32
    }
}

fn push_code(text: &mut Text, number: i32) -> Result<(), Memory>
    ensures { Adds result text.old text.new (spec.code_of number) }
{
    let bits = bits_of(number);
    if 1 <= bits && bits <= 65535 {
        push_short_code(text, bits)
    } else {
        push_all_digits(text, bits)
    }
}

fn push_spot(text: &mut Text, spot: &LineSpot) -> Result<(), Memory>
    ensures { Adds result text.old text.new (spec.spot_text spot.now) }
{
    let alloc = *text.allocator();
    text.append_slice(spot.path.as_slice())?;
    push_ascii(text, b", line ")?;
    push_ascii(text, spot.line.to_string(alloc)?.as_bytes())?;
    push_ascii(text, b"\n")
}

fn error_text(
    alloc: Global,
    source: &Text,
    number: i32,
    description: &Text,
    spot: &LineSpot,
) -> Result<Text, Memory>
    ensures { Gives result (spec.error_text source.now number description.now spot.now) }
{
    let mut text = html_encode(alloc, source)?;
    push_ascii(&mut text, b" '")?;
    push_code(&mut text, number)?;
    push_ascii(&mut text, b"'\n")?;
    text.append(html_encode(alloc, description)?)?;
    push_ascii(&mut text, b"\n")?;
    push_spot(&mut text, spot)?;
    Ok(text)
}

fn push_limit_name(text: &mut Text, kind: LimitKind) -> Result<(), Memory>
    ensures { Adds result text.old text.new (spec.limit_name kind) }
{
    match kind {
        LimitKind::Ticks => push_ascii(text, b"Ticks"),
        LimitKind::Depth => push_ascii(text, b"Depth"),
        LimitKind::Data => push_ascii(text, b"Data"),
        LimitKind::Body => push_ascii(text, b"Body"),
        LimitKind::Session => push_ascii(text, b"Session"),
        LimitKind::Application => push_ascii(text, b"Application"),
        LimitKind::Nest => push_ascii(text, b"Nest"),
    }
}

fn limit_text(alloc: Global, kind: LimitKind, spot: &LineSpot) -> Result<Text, Memory>
    ensures { Gives result (spec.limit_text kind spot.now) }
{
    let mut text = ascii(alloc, b"Active Server Pages limit '")?;
    push_limit_name(&mut text, kind)?;
    push_ascii(&mut text, b"'\n")?;
    push_spot(&mut text, spot)?;
    Ok(text)
}

/// What is said of an act of the page that ended so, if it failed.
pub(crate) fn failure_text(alloc: Global, page: &Page, end: &ActEnd) -> Result<Option<Text>, Memory>
    ensures { Gives result (spec.failure_text page.now end.now) }
{
    match end {
        ActEnd::Error {
            number,
            source,
            description,
            line,
        } => {
            let spot = spot_of(page, *line)?;
            Ok(Some(error_text(alloc, source, *number, description, &spot)?))
        }
        ActEnd::Limit { kind, line } => {
            let spot = spot_of(page, *line)?;
            Ok(Some(limit_text(alloc, *kind, &spot)?))
        }
        ActEnd::Done | ActEnd::Stopped => Ok(None),
    }
}

/// Why an act of the page that ended so failed, if it did.
pub(crate) fn fail_of(page: &Page, end: &ActEnd) -> Result<Option<Fail>, Memory>
    ensures { Gives result (spec.fail_of page.now end.now) }
{
    match end {
        ActEnd::Error { number, line, .. } => Ok(Some(Fail::Error {
            number: *number,
            line: spot_of(page, *line)?.line,
        })),
        ActEnd::Limit { kind, line } => Ok(Some(Fail::Limit {
            kind: *kind,
            line: spot_of(page, *line)?.line,
        })),
        ActEnd::Done | ActEnd::Stopped => Ok(None),
    }
}
