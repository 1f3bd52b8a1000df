//! What the program says of an application that did not begin.
ghost use Rattle.std.specs.Prelude.{◌≡◌, ◌++◌, codes, decimal};
ghost use Rattle.vb_value.specs.Outcome.{Adds, Gives};
ghost use Rattle.asp_acts.specs.Failures.{limit_name as limit_name_of};
ghost use Rattle.asp_host.specs.Status as spec;

use asp_job::Fail;
use std::alloc::Global;
use vb_value::{LimitKind, Memory, Text};

/// The text whose characters are these bytes, each below 128.
pub fn ascii(alloc: Global, bytes: &[u8]) -> Result<Text, Memory>
    ensures { Gives result bytes.now }
{
    let mut text = Text::with_capacity(alloc, bytes.len())?;
    for byte in bytes {
        text.push(char::from(*byte))?;
    }
    Ok(text)
}

fn push_ascii(text: &mut Text, more: &[u8]) -> Result<(), Memory>
    ensures { Adds result text.old text.new more.now }
{
    let more = ascii(*text.allocator(), more)?;
    text.append(more)
}

fn push_number(text: &mut Text, number: u32) -> Result<(), Memory>
    ensures { Adds result text.old text.new (decimal number) }
{
    let digits = number.to_string(*text.allocator())?;
    push_ascii(text, digits.as_bytes())
}

fn push_signed(text: &mut Text, number: i32) -> Result<(), Memory>
    ensures { Adds result text.old text.new (spec.signed_text number) }
{
    if number < 0 {
        push_ascii(text, b"-")?;
        push_number(text, (-(number + 1)) as u32 + 1)
    } else {
        push_number(text, number as u32)
    }
}

fn limit_name(kind: LimitKind) -> &'static [u8]
    ensures { result.now ≡ limit_name_of kind }
{
    match kind {
        LimitKind::Ticks => b"Ticks",
        LimitKind::Depth => b"Depth",
        LimitKind::Data => b"Data",
        LimitKind::Body => b"Body",
        LimitKind::Session => b"Session",
        LimitKind::Application => b"Application",
        LimitKind::Nest => b"Nest",
    }
}

fn push_line(text: &mut Text, line: u32) -> Result<(), Memory>
    ensures { Adds result text.old text.new (codes ", line " ++ decimal line) }
{
    push_ascii(text, b", line ")?;
    push_number(text, line)
}

fn push_cause(text: &mut Text, fail: Fail) -> Result<(), Memory>
    ensures { Adds result text.old text.new (spec.cause_text fail) }
{
    match fail {
        Fail::Error { number, line } => {
            push_ascii(text, b"error ")?;
            push_signed(text, number)?;
            push_line(text, line)
        }
        Fail::Limit { kind, line } => {
            push_ascii(text, b"limit ")?;
            push_ascii(text, limit_name(kind))?;
            push_line(text, line)
        }
    }
}

/// Why the application did not begin.
pub fn fail_text(alloc: Global, fail: Fail) -> Result<Text, Memory>
    ensures { Gives result (codes "Application_OnStart failed: " ++ spec.cause_text fail) }
{
    let mut text = ascii(alloc, b"Application_OnStart failed: ")?;
    push_cause(&mut text, fail)?;
    Ok(text)
}
