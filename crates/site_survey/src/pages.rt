//! The pages of a site: what is refused of each, and the names in their files.
ghost use Rattle.std.specs.List.{All};
ghost use Rattle.page_read.specs.Reading.{IsShort};

use crate::finding::Findings;
use crate::reach::{included, is_declared, reached};
use crate::refusing::{are_short, page_fault};
use crate::scanning::Scans;
use asp_site::{is_global, is_page};
use file_survey::{Kind, Sight, Table};
use std::alloc::Global;
use std::collections::{BTreeMap, BTreeSet};
use vb_value::{FaultKind, List, Memory, SiteFault, SiteFile, Text, fold};

/// A site that is surveyed.
#[derive(Drop)]
pub struct Site<'a> {
    /// The table.
    pub table: &'a Table,
    /// Its files.
    pub files: &'a List<SiteFile>,
    /// Their places, by their folded paths.
    pub places: &'a BTreeMap<Text, usize>,
    /// What is seen in those that hold script.
    pub scans: &'a Scans,
}

/// The file of a page, or of the site's events.
#[derive(Drop)]
struct Own<'a> {
    file: &'a SiteFile,
    place: usize,
    /// Whether another file includes it.
    is_inner: bool,
}

/// A page of a site, or its events.
#[derive(Drop)]
pub struct Judged {
    /// Whether it is a page.
    pub is_page: bool,
    /// Whether `check` refuses it.
    pub is_refused: bool,
    /// The places of the files that it is made of.
    pub reached: Vec<usize>,
}

/// Tells what is refused of the pages, and the names in their files that nothing stands behind.
pub fn judge_pages(
    alloc: Global,
    site: &Site<'_>,
    found: &mut Findings,
) -> Result<Vec<Judged>, Memory> {
    if !are_short(site.files.as_slice()) {
        return Err(Memory);
    }
    let inner = included(alloc, site.scans)?;
    let mut pages = Vec::new(alloc);
    for (place, file) in site.files.as_slice().iter().enumerate() {
        let path = file.path.as_slice();
        if is_page(path) || is_global(path) {
            let own = Own {
                file,
                place,
                is_inner: inner.contains(&place),
            };
            pages.push(judge_page(alloc, site, &own, found)?)?;
        }
    }
    Ok(pages)
}

/// Tells what is refused of a page, and the names in its files.
fn judge_page(
    alloc: Global,
    site: &Site<'_>,
    own: &Own<'_>,
    found: &mut Findings,
) -> Result<Judged, Memory>
    requires { All IsShort site.now.files.now }
{
    let is_page = is_page(own.file.path.as_slice());
    let reached = reached(alloc, site.scans, own.place)?;
    tell_names(site, reached.as_slice(), found)?;
    let fault = page_fault(alloc, site.files, &own.file.path, !is_page)?;
    let is_refused = fault.is_some();
    if let Some(fault) = fault {
        tell_refused(alloc, site, own, &fault, found)?;
    }
    Ok(Judged {
        is_page,
        is_refused,
        reached,
    })
}

/// Tells the names in these files that none of them declares.
fn tell_names(site: &Site<'_>, places: &[usize], found: &mut Findings) -> Result<(), Memory> {
    for place in places {
        if let (Some(scan), Some(file)) = (site.scans.get(place), site.files.get(*place)) {
            for name in scan.names.as_slice() {
                if !is_declared(site.scans, places, name.word.as_str()) {
                    let said = (Kind::Name, name.word.as_str());
                    found.tell(&file.path, (name.line, name.at), said, name.way.as_str())?;
                }
            }
        }
    }
    Ok(())
}

/// Tells the fault of a page, by what is seen in that line of its file where that tells it.
fn tell_refused(
    alloc: Global,
    site: &Site<'_>,
    own: &Own<'_>,
    fault: &SiteFault,
    found: &mut Findings,
) -> Result<(), Memory> {
    if let Some(sight) = seen(alloc, site, fault)? {
        let spot = (sight.line, sight.at);
        return tell_noted(
            alloc,
            fault,
            spot,
            (sight.kind, sight.word.as_str(), sight.way.as_str()),
            found,
        );
    }
    let word = format!(in alloc; "{:?}", fault.kind)?;
    let mut said = (Kind::Fault, word.as_str());
    let is_own = fault.path == own.file.path;
    if own.is_inner && is_own && fault.kind == FaultKind::Unexpected {
        said = (Kind::Form, "included page");
    }
    let way = site.table.way_out(said.0, said.1)?;
    tell_noted(
        alloc,
        fault,
        (fault.line, 0),
        (said.0, said.1, way.as_str()),
        found,
    )
}

/// Tells it with a note of what is passed over.
fn tell_noted(
    alloc: Global,
    fault: &SiteFault,
    spot: (u32, u32),
    (kind, word, way): (Kind, &str, &str),
    found: &mut Findings,
) -> Result<(), Memory> {
    let way = format!(in alloc; "{way}; check passes over the rest of each page that has it")?;
    found.tell(&fault.path, spot, (kind, word), way.as_str())
}

/// What is seen of the fault in its file, if it is.
fn seen<'a>(
    alloc: Global,
    site: &Site<'a>,
    fault: &SiteFault,
) -> Result<Option<&'a Sight>, Memory> {
    let small = fold(alloc, &fault.path)?;
    let Some(place) = site.places.get(&small) else {
        return Ok(None);
    };
    match site.scans.get(place) {
        Some(scan) => Ok(scan.refused_in(fault.line, fault.kind)),
        None => Ok(None),
    }
}
