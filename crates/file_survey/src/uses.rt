//! What a script uses that the host has not: names, members, objects and server variables.

use crate::folding::folded;
use crate::kind::Kind;
use crate::scan::Scan;
use crate::table::Table;
use crate::words::{Word, WordKind};
use std::alloc::Global;
use vb_value::{FaultKind, Memory};

/// The one object that can be made.
const DICTIONARY: &str = "scripting.dictionary";

/// What stands before a word.
#[derive(Drop)]
struct Place {
    /// Whether the word is the first of its statement.
    is_first: bool,
    /// Whether the statement declares names.
    declares: bool,
    /// Whether a point stands directly before it.
    behind_point: bool,
    /// The path of members that ends before it, if one does.
    path: Option<String>,
    /// The paths that ended before each parenthesis that is open.
    outer: Vec<Option<String>>,
}

/// Adds what these words use.
pub fn add_uses(
    alloc: Global,
    table: &Table,
    words: &[Word],
    scan: &mut Scan,
) -> Result<(), Memory> {
    let mut place = Place {
        is_first: true,
        declares: false,
        behind_point: false,
        path: None,
        outer: Vec::new(alloc),
    };
    for at in 0..words.len() {
        let word = &words[at];
        if word.kind == WordKind::Name {
            add_called(alloc, table, word, &words[at + 1..], scan)?;
        }
        pass(alloc, table, word, &mut place, scan)?;
    }
    Ok(())
}

fn is_declaring(word: &str) -> bool {
    matches!(
        word,
        "class" | "const" | "dim" | "function" | "private" | "property" | "public" | "sub"
    )
}

/// Goes over one word.
fn pass(
    alloc: Global,
    table: &Table,
    word: &Word,
    place: &mut Place,
    scan: &mut Scan,
) -> Result<(), Memory> {
    match word.kind {
        WordKind::Name => pass_name(alloc, table, word, place, scan)?,
        WordKind::Point => {}
        WordKind::Open => {
            let path = place.path.take();
            place.outer.push(path)?;
        }
        WordKind::Close => close(table, word, place, scan)?,
        WordKind::End => {
            place.declares = false;
            place.path = None;
            place.outer.clear();
        }
        _ => place.path = None,
    }
    place.is_first = word.kind == WordKind::End;
    place.behind_point = word.kind == WordKind::Point;
    Ok(())
}

/// Goes over a closing parenthesis: the path before it goes on with arguments.
fn close(table: &Table, word: &Word, place: &mut Place, scan: &mut Scan) -> Result<(), Memory> {
    place.path = None;
    if let Some(Some(mut path)) = place.outer.pop() {
        path.push_str("()")?;
        place.path = known_path(table, word, path, scan)?;
    }
    Ok(())
}

/// Goes over a name: a step of a path, one that is declared, or one that stands for something.
fn pass_name(
    alloc: Global,
    table: &Table,
    word: &Word,
    place: &mut Place,
    scan: &mut Scan,
) -> Result<(), Memory> {
    if place.is_first {
        place.declares = is_declaring(word.text.as_str());
    }
    let before = place.path.take();
    if place.behind_point {
        if let Some(mut path) = before {
            path.push('.')?;
            path.push_str(word.text.as_str())?;
            place.path = known_path(table, word, path, scan)?;
        }
        return Ok(());
    }
    if table.is_head(word.text.as_str()) {
        place.path = Some(String::from_str(alloc, word.text.as_str())?);
    }
    add_name(table, word, place.declares, scan)
}

/// Adds a name that the host has not, or that it is declared here.
fn add_name(table: &Table, word: &Word, is_declared: bool, scan: &mut Scan) -> Result<(), Memory> {
    if let Some(row) = table.row(Kind::Name, word.text.as_str()) {
        if is_declared {
            scan.declare(row.word.as_str())?;
        } else {
            scan.see_name(word.line, row.word.as_str(), row.way.as_str())?;
        }
    }
    Ok(())
}

/// The path, where it may go on. It is told where it is that of a member that the host has not.
fn known_path(
    table: &Table,
    word: &Word,
    path: String,
    scan: &mut Scan,
) -> Result<Option<String>, Memory> {
    if let Some(row) = table.row(Kind::Member, path.as_str()) {
        let (name, way) = (row.word.as_str(), row.way.as_str());
        scan.see_refused(Kind::Member, word.line, name, way, FaultKind::BadMember)?;
        return Ok(None);
    }
    Ok(Some(path))
}

/// Adds what stands behind a call's parenthesis: an object that is made, or a server variable that is read.
fn add_called(
    alloc: Global,
    table: &Table,
    word: &Word,
    behind: &[Word],
    scan: &mut Scan,
) -> Result<(), Memory> {
    let argument = match behind {
        [open, text, ..] if open.kind == WordKind::Open && text.kind == WordKind::Text => {
            text.text.as_str()
        }
        [open, ..] if open.kind == WordKind::Open => "?",
        _ => return Ok(()),
    };
    match word.text.as_str() {
        "createobject" => add_component(alloc, table, word.line, argument, scan),
        "servervariables" => add_variable(alloc, table, word.line, argument, scan),
        _ => Ok(()),
    }
}

/// Adds an object that is made, if it is no Dictionary: by the row of its whole name, or by that of what stands before
/// its point.
fn add_component(
    alloc: Global,
    table: &Table,
    line: u32,
    name: &str,
    scan: &mut Scan,
) -> Result<(), Memory> {
    let small = folded(alloc, name)?;
    if small.as_str() == DICTIONARY {
        return Ok(());
    }
    let (library, _) = small
        .as_str()
        .split_once('.')
        .unwrap_or((small.as_str(), ""));
    let way = match table.row(Kind::Component, small.as_str()) {
        Some(row) => row.way.clone()?,
        None => table.way_out(Kind::Component, library)?,
    };
    scan.see(Kind::Component, line, name, way.as_str())
}

fn add_variable(
    alloc: Global,
    table: &Table,
    line: u32,
    name: &str,
    scan: &mut Scan,
) -> Result<(), Memory> {
    let small = folded(alloc, name)?;
    if let Some(row) = table.row(Kind::Variable, small.as_str()) {
        scan.see(Kind::Variable, line, row.word.as_str(), row.way.as_str())?;
    }
    Ok(())
}
