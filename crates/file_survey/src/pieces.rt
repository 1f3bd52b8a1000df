//! The pieces of a page file, also behind a form that the host refuses.
ghost use Rattle.std.specs.Prelude.{◌≤◌, IfOk, length};

use crate::encoding::lines_before;
use crate::folding::folded;
use page_read::{Fragment, PageFault, PageStop, fragments};
use std::alloc::Global;
use vb_value::{List, Memory, Stop};

/// How many refused forms of one file are passed over.
const MOST_SLIPS: usize = 64;

/// How many bytes have pieces.
const MOST_BYTES: usize = 0x7fff_ffff;

/// Pieces that stand one behind another.
#[derive(Drop)]
pub struct Part {
    /// How many lines of the file end before them.
    pub before: u32,
    /// The pieces, whose lines count from there.
    pub pieces: List<Fragment>,
}

/// A form that the host refuses.
#[derive(Drop)]
pub struct Slip {
    /// Why.
    pub kind: PageFault,
    /// Its line.
    pub line: u32,
    /// Its text; no characters of an open block.
    pub form: String,
}

/// The pieces of a file.
#[derive(Drop)]
pub struct Cut {
    /// The pieces, but for the refused forms and what is passed over.
    pub parts: Vec<Part>,
    /// The refused forms. Behind an open block the rest of the file is passed over.
    pub slips: Vec<Slip>,
    /// The line behind the last of too many refused forms, where the rest of the file is passed over.
    pub passed: Option<u32>,
}

/// The pieces of a file that is UTF-8.
pub fn cut_file(alloc: Global, bytes: &[u8]) -> Result<Cut, Memory> {
    let mut found = Cut {
        parts: Vec::new(alloc),
        slips: Vec::new(alloc),
        passed: None,
    };
    let mut rest = bytes;
    let mut before = 0u32;
    for _ in 0..MOST_SLIPS {
        match short_fragments(alloc, rest) {
            Ok(pieces) => {
                found.parts.push(Part { before, pieces })?;
                return Ok(found);
            }
            Err(Stop::Memory) => return Err(Memory),
            Err(Stop::Fault { kind, line }) => {
                let (front, form, behind) = form_at(alloc, rest, line, kind)?;
                add_front(alloc, &mut found, before, front)?;
                add_slip(alloc, &mut found, (kind, before.saturating_add(line)), form)?;
                before = before.saturating_add(lines_before(rest, rest.len() - behind.len()));
                rest = behind;
            }
        }
    }
    found.passed = Some(before.saturating_add(1));
    Ok(found)
}

fn short_fragments(alloc: Global, bytes: &[u8]) -> Result<List<Fragment>, PageStop> {
    if bytes.len() > MOST_BYTES {
        return Err(PageStop::Memory);
    }
    fragments(alloc, bytes)
}

/// Adds the pieces of what stands before a refused form.
fn add_front(alloc: Global, found: &mut Cut, before: u32, front: &[u8]) -> Result<(), Memory> {
    match short_fragments(alloc, front) {
        Ok(pieces) => {
            found.parts.push(Part { before, pieces })?;
            Ok(())
        }
        Err(Stop::Memory) => Err(Memory),
        Err(Stop::Fault { kind: _, line: _ }) => Ok(()),
    }
}

fn add_slip(
    alloc: Global,
    found: &mut Cut,
    (kind, line): (PageFault, u32),
    form: &[u8],
) -> Result<(), Memory> {
    let form = String::from_utf8_lossy(alloc, form)?;
    found.slips.push(Slip { kind, line, form })?;
    Ok(())
}

/// What stands before the refused form that begins in this line, the form itself, and what stands behind it. Behind an
/// open block, and behind a directive of another language, nothing is read.
fn form_at(
    alloc: Global,
    text: &[u8],
    line: u32,
    kind: PageFault,
) -> Result<(&[u8], &[u8], &[u8]), Memory>
    ensures { IfOk result (λ parts. length parts.2.now ≤ length text.now) }
{
    let (lines, tail) = text.split_at(line_place(text, line));
    let begins = mark_place(tail, kind);
    let (front, form) = text.split_at(lines.len() + begins);
    if kind == PageFault::OpenBlock {
        return Ok((front, &[], &[]));
    }
    let (form, behind) = form.split_at(form_length(form));
    if is_of_other_language(alloc, form)? {
        return Ok((front, form, &[]));
    }
    Ok((front, form, behind))
}

/// Whether a form is a directive of a language that is not VBScript.
fn is_of_other_language(alloc: Global, form: &[u8]) -> Result<bool, Memory> {
    let text = String::from_utf8_lossy(alloc, form)?;
    let small = folded(alloc, text.as_str())?;
    let is_other = small.as_str().contains("script") && !small.as_str().contains("vbscript");
    Ok(small.as_str().starts_with("<%@") && is_other)
}

/// The place at which this line begins, counted from 1.
fn line_place(text: &[u8], line: u32) -> usize
    ensures { result ≤ length text.now }
{
    let mut at = 0usize;
    let mut ends = 1u32;
    let mut last = 0u8;
    for byte in text {
        if ends >= line && !(last == b'\r' && *byte == b'\n') {
            return at.min(text.len());
        }
        if *byte == b'\r' || (*byte == b'\n' && last != b'\r') {
            ends = ends.saturating_add(1);
        }
        last = *byte;
        at = at.saturating_add(1);
    }
    text.len()
}

/// The place of the first mark with which a form of this fault may begin.
fn mark_place(text: &[u8], kind: PageFault) -> usize
    ensures { result ≤ length text.now }
{
    for at in 0..text.len() {
        if begins_form(&text[at..], kind) {
            return at;
        }
    }
    text.len()
}

fn begins_form(text: &[u8], kind: PageFault) -> bool {
    match kind {
        PageFault::ObjectTag => begins(text, b"<object"),
        PageFault::OpenBlock => begins(text, b"<%") || begins(text, b"<script"),
        _ => begins(text, b"<%@") || begins(text, b"<script"),
    }
}

fn begins(text: &[u8], mark: &[u8]) -> bool {
    text.len() >= mark.len()
        && text
            .iter()
            .zip(mark.iter())
            .all(|(one, other)| one.to_ascii_lowercase() == *other)
}

/// The length of a form up to its end, that end among it.
fn form_length(form: &[u8]) -> usize
    ensures { result ≤ length form.now }
{
    let end = if begins(form, b"<%") {
        b"%>".as_slice()
    } else {
        b">".as_slice()
    };
    for at in 0..form.len() {
        if begins(&form[at..], end) {
            return (at + end.len()).min(form.len());
        }
    }
    form.len()
}
