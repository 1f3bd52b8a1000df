//! What is told of a site by its paths alone.

use crate::finding::Findings;
use crate::walk::Oddity;
use file_survey::{Kind, Table, folded};
use std::alloc::Global;
use std::collections::BTreeMap;
use vb_value::{Memory, Text};

/// Tells of links, special files and names that are not UTF-8.
pub fn tell_oddities(
    table: &Table,
    oddities: &[(Text, Oddity)],
    found: &mut Findings,
) -> Result<(), Memory> {
    for (path, oddity) in oddities {
        let word = match oddity {
            Oddity::Link => "link",
            Oddity::Special => "special file",
            Oddity::Name => "name that is not UTF-8",
        };
        found.tell_whole(table, path, (Kind::File, word))?;
    }
    Ok(())
}

/// Tells of folders and of endings that the table has.
pub fn tell_paths(
    alloc: Global,
    table: &Table,
    paths: &BTreeMap<Text, Text>,
    found: &mut Findings,
) -> Result<(), Memory> {
    for path in paths.values() {
        tell_folders(alloc, table, path, found)?;
        tell_ending(alloc, table, path, found)?;
    }
    Ok(())
}

/// Tells of each folder on the way to a file.
fn tell_folders(
    alloc: Global,
    table: &Table,
    path: &Text,
    found: &mut Findings,
) -> Result<(), Memory> {
    let mut folder = Text::new(alloc);
    let mut name = String::new(alloc);
    for character in path.as_slice() {
        folder.push(*character)?;
        if *character == '/' {
            let small = folded(alloc, name.as_str())?;
            if let Some(row) = table.row(Kind::Folder, small.as_str()) {
                let (word, way) = (row.word.as_str(), row.way.as_str());
                found.tell(&folder, (0, 0), (Kind::Folder, word), way)?;
            }
            name.clear();
        } else {
            name.push(*character)?;
        }
    }
    Ok(())
}

/// Tells of the ending of a file: what stands behind the last point of its name, with the point.
fn tell_ending(
    alloc: Global,
    table: &Table,
    path: &Text,
    found: &mut Findings,
) -> Result<(), Memory> {
    let path_string = path.to_string(alloc)?;
    let Some((_, ending)) = path_string.as_str().rsplit_once('.') else {
        return Ok(());
    };
    let small = folded(alloc, ending)?;
    let ending = format!(in alloc; ".{small}")?;
    if let Some(row) = table.row(Kind::Ending, ending.as_str()) {
        let (word, way) = (row.word.as_str(), row.way.as_str());
        found.tell(path, (0, 0), (Kind::Ending, word), way)?;
    }
    Ok(())
}
