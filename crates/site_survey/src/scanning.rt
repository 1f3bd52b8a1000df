//! The files of a site that hold script, each scanned once.

use crate::finding::Findings;
use crate::reading::Sources;
use asp_site::{has_ending, is_page};
use file_survey::{Around, Encoding, Kind, Scan, Table, encoding_of, repaired, scan_file};
use std::alloc::Global;
use std::collections::BTreeMap;
use vb_value::{Bytes, Memory, SiteFile};

/// What is seen in each file, by its place.
pub type Scans = BTreeMap<usize, Scan>;

/// Scans the files that hold script by their endings, and those that they include. What is not UTF-8 is told, and read
/// on with a sign in place of each such character.
pub fn scan_all(
    alloc: Global,
    table: &Table,
    sources: &mut Sources,
    found: &mut Findings,
) -> Result<Scans, Memory> {
    let mut scans = BTreeMap::new(alloc);
    let mut places = script_places(alloc, sources.files.as_slice())?;
    for _ in 0..=sources.files.len() {
        if places.is_empty() {
            return Ok(scans);
        }
        places = scan_places(alloc, table, sources, places, (&mut scans, &mut *found))?;
    }
    Ok(scans)
}

/// The places of the files whose endings say that they hold script.
fn script_places(alloc: Global, files: &[SiteFile]) -> Result<Vec<usize>, Memory> {
    let mut places = Vec::new(alloc);
    for (place, file) in files.iter().enumerate() {
        let path = file.path.as_slice();
        if is_page(path) || has_ending(path, b".asa") || has_ending(path, b".inc") {
            places.push(place)?;
        }
    }
    Ok(places)
}

/// Scans the files at these places that were not scanned before. Gives the places of those that they include.
fn scan_places(
    alloc: Global,
    table: &Table,
    sources: &mut Sources,
    places: Vec<usize>,
    (scans, found): (&mut Scans, &mut Findings),
) -> Result<Vec<usize>, Memory> {
    let mut next = Vec::new(alloc);
    for place in places {
        if !scans.contains_key(&place) {
            if let Some(scan) = scan_place(alloc, table, sources, place, found)? {
                next.extend_from_slice(scan.includes.as_slice())?;
                scans.insert(place, scan)?;
            }
        }
    }
    Ok(next)
}

fn scan_place(
    alloc: Global,
    table: &Table,
    sources: &mut Sources,
    place: usize,
    found: &mut Findings,
) -> Result<Option<Scan>, Memory> {
    let Some(file) = sources.files.get_mut(place) else {
        return Ok(None);
    };
    make_text(alloc, table, file, found)?;
    let around = Around {
        table,
        places: &sources.places,
    };
    match sources.files.get(place) {
        Some(file) => Ok(Some(scan_file(alloc, &around, file)?)),
        None => Ok(None),
    }
}

/// Tells where a file is not UTF-8, and makes it so.
fn make_text(
    alloc: Global,
    table: &Table,
    file: &mut SiteFile,
    found: &mut Findings,
) -> Result<(), Memory> {
    let (line, word) = match encoding_of(file.bytes.as_slice()) {
        Encoding::Utf8 => return Ok(()),
        Encoding::Utf16 => (1, "UTF-16"),
        Encoding::Other { line } => (line, "windows-1252"),
    };
    let way = table.way_out(Kind::File, word)?;
    found.tell(&file.path, (line, 0), (Kind::File, word), way.as_str())?;
    file.bytes = match word {
        "UTF-16" => Bytes::new(alloc),
        _ => repaired(alloc, file.bytes.as_slice())?,
    };
    Ok(())
}
