//! A survey of one file that holds script.

use crate::faulty::add_faulty;
use crate::folding::folded;
use crate::include::included_place;
use crate::kind::Kind;
use crate::pieces::{Cut, Slip, cut_file};
use crate::plain::add_plain;
use crate::scan::Scan;
use crate::table::Table;
use crate::uses::add_uses;
use crate::words::words_of;
use page_read::{Fragment, PageFault};
use std::alloc::Global;
use std::collections::BTreeMap;
use vb_value::{FaultKind, Memory, SiteFile, Text};

/// What a survey of a file needs of the site.
#[derive(Clone, Copy)]
pub struct Around<'a> {
    /// The table.
    pub table: &'a Table,
    /// The places of the site's files, by their folded paths.
    pub places: &'a BTreeMap<Text, usize>,
}

/// What a survey sees in a file, whose bytes are UTF-8.
pub fn scan_file(alloc: Global, around: &Around<'_>, file: &SiteFile) -> Result<Scan, Memory> {
    let mut scan = Scan::new(alloc);
    let Cut {
        parts,
        slips,
        passed,
    } = cut_file(alloc, file.bytes.as_slice())?;
    for part in parts {
        for piece in part.pieces.as_slice() {
            add_piece(alloc, around, file, (piece, part.before), &mut scan)?;
        }
    }
    for slip in slips {
        add_slip(alloc, around.table, &slip, &mut scan)?;
    }
    if let Some(line) = passed {
        let way = around.table.way_out(Kind::File, "rest")?;
        scan.see(Kind::File, line, "rest", way.as_str())?;
    }
    Ok(scan)
}

/// Adds what a piece has, whose line counts from another place on.
fn add_piece(
    alloc: Global,
    around: &Around<'_>,
    file: &SiteFile,
    (piece, before): (&Fragment, u32),
    scan: &mut Scan,
) -> Result<(), Memory> {
    let table = around.table;
    match piece {
        Fragment::Directive { session: _ } => Ok(()),
        Fragment::Text { text, line } => {
            add_plain(
                alloc,
                table,
                text.as_slice(),
                before.saturating_add(*line),
                scan,
            )
        }
        Fragment::Script { text, line } => {
            add_written(table, text, before.saturating_add(*line), scan)?;
            add_script(alloc, table, text, before.saturating_add(*line), scan)
        }
        Fragment::Write { text, line } | Fragment::Element { text, line } => {
            add_script(alloc, table, text, before.saturating_add(*line), scan)
        }
        Fragment::Include {
            from_root,
            path,
            line,
        } => {
            add_backslash(alloc, table, path, before.saturating_add(*line), scan)?;
            add_include(alloc, around, file, (*from_root, path), scan)
        }
    }
}

fn add_script(
    alloc: Global,
    table: &Table,
    text: &Text,
    line: u32,
    scan: &mut Scan,
) -> Result<(), Memory> {
    let words = words_of(alloc, text.as_slice(), line)?;
    add_uses(alloc, table, words.as_slice(), scan)?;
    add_faulty(alloc, text, line, scan)
}

/// Adds a block that begins with `=` behind a blank.
fn add_written(table: &Table, text: &Text, first: u32, scan: &mut Scan) -> Result<(), Memory> {
    let mut line = first;
    let mut last = ' ';
    for character in text.as_slice() {
        match *character {
            '=' => {
                let way = table.way_out(Kind::Form, "<% =")?;
                let way = way.as_str();
                return scan.see_refused(Kind::Form, line, "<% =", way, FaultKind::Unexpected);
            }
            '\r' => line = line.saturating_add(1),
            '\n' if last != '\r' => line = line.saturating_add(1),
            '\n' | ' ' | '\t' => {}
            _ => return Ok(()),
        }
        last = *character;
    }
    Ok(())
}

/// Adds an include whose path has a backslash.
fn add_backslash(
    alloc: Global,
    table: &Table,
    path: &Text,
    line: u32,
    scan: &mut Scan,
) -> Result<(), Memory> {
    if !path.as_slice().contains(&'\\') {
        return Ok(());
    }
    let way = table.way_out(Kind::Form, "backslash")?;
    let path = path.to_string(alloc)?;
    let word = format!(in alloc; "backslash in {path}")?;
    scan.see_refused(
        Kind::Form,
        line,
        word.as_str(),
        way.as_str(),
        FaultKind::BadPath,
    )
}

/// Adds the place of a file that is included.
fn add_include(
    alloc: Global,
    around: &Around<'_>,
    file: &SiteFile,
    (from_root, path): (bool, &Text),
    scan: &mut Scan,
) -> Result<(), Memory> {
    let place = included_place(alloc, around.places, &file.path, from_root, path)?;
    if let Some(place) = place {
        if !scan.includes.as_slice().contains(&place) {
            scan.includes.push(place)?;
        }
    }
    Ok(())
}

fn kind_of(fault: PageFault) -> FaultKind {
    match fault {
        PageFault::NotUtf8 => FaultKind::NotUtf8,
        PageFault::OpenBlock => FaultKind::OpenBlock,
        PageFault::LateDirective => FaultKind::LateDirective,
        PageFault::BadDirective => FaultKind::BadDirective,
        PageFault::ObjectTag => FaultKind::ObjectTag,
    }
}

/// Adds a form that the host refuses, by the first row whose word it has.
fn add_slip(alloc: Global, table: &Table, slip: &Slip, scan: &mut Scan) -> Result<(), Memory> {
    let fault = kind_of(slip.kind);
    let small = folded(alloc, slip.form.as_str())?;
    if slip.kind == PageFault::BadDirective {
        if let Some(row) = table.row_within(Kind::Attribute, small.as_str()) {
            let (word, way) = (row.word.as_str(), row.way.as_str());
            return scan.see_refused(Kind::Attribute, slip.line, word, way, fault);
        }
    }
    scan.faults.push((slip.line, fault))?;
    Ok(())
}
