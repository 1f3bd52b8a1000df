//! What is told of files, whatever page has them.

use crate::finding::Findings;
use crate::pages::{Judged, Site};
use asp_site::is_static;
use file_survey::{Kind, Scan, Sight};
use std::alloc::Global;
use std::collections::BTreeSet;
use vb_value::{FaultKind, Memory, SiteFile};

/// Tells what is seen in the files, and the names of those that are in none of the pages.
pub fn tell_others(
    alloc: Global,
    site: &Site<'_>,
    pages: &[Judged],
    found: &mut Findings,
) -> Result<(), Memory> {
    let inside = inside_pages(alloc, pages)?;
    for (place, scan) in site.scans.iter() {
        if let Some(file) = site.files.get(*place) {
            tell_scan(alloc, site, file, scan, found)?;
            if !inside.contains(place) {
                tell_own_names(file, scan, found)?;
            }
        }
    }
    Ok(())
}

/// The places of files that pages are made of.
fn inside_pages(alloc: Global, pages: &[Judged]) -> Result<BTreeSet<usize>, Memory> {
    let mut inside = BTreeSet::new(alloc);
    for page in pages {
        for place in page.reached.as_slice() {
            inside.insert(*place)?;
        }
    }
    Ok(inside)
}

fn tell_own_names(file: &SiteFile, scan: &Scan, found: &mut Findings) -> Result<(), Memory> {
    for name in scan.names.as_slice() {
        if !scan.declares(name.word.as_str()) {
            tell_sight(file, name, found)?;
        }
    }
    Ok(())
}

fn tell_sight(file: &SiteFile, sight: &Sight, found: &mut Findings) -> Result<(), Memory> {
    let said = (sight.kind, sight.word.as_str());
    found.tell(&file.path, (sight.line, sight.at), said, sight.way.as_str())
}

/// Tells what is seen in a file, but for names.
fn tell_scan(
    alloc: Global,
    site: &Site<'_>,
    file: &SiteFile,
    scan: &Scan,
    found: &mut Findings,
) -> Result<(), Memory> {
    for sight in scan.sights.as_slice() {
        tell_sight(file, sight, found)?;
    }
    for (line, fault) in scan.faults.as_slice() {
        tell_fault(alloc, site, file, (*line, *fault), found)?;
    }
    for include in scan.includes.as_slice() {
        if let Some(other) = site.files.get(*include) {
            if is_static(other.path.as_slice()) {
                let said = (Kind::File, "include that is served");
                found.tell_whole(site.table, &other.path, said)?;
            }
        }
    }
    Ok(())
}

/// Tells a word or a form that is refused, which no page was refused for.
fn tell_fault(
    alloc: Global,
    site: &Site<'_>,
    file: &SiteFile,
    (line, fault): (u32, FaultKind),
    found: &mut Findings,
) -> Result<(), Memory> {
    let word = format!(in alloc; "{fault:?}")?;
    let mut way = site.table.way_out(Kind::Fault, word.as_str())?;
    if fault == FaultKind::OpenBlock {
        way.push_str("; the rest of the file is passed over")?;
    }
    let said = (Kind::Fault, word.as_str());
    found.tell(&file.path, (line, 0), said, way.as_str())
}
