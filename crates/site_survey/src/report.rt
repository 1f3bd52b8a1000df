//! A survey as text.

use crate::finding::Findings;
use crate::pages::{Judged, Site};
use file_survey::{KINDS, Kind};
use std::alloc::Global;
use std::collections::BTreeSet;
use vb_value::Memory;

/// The lines of a survey: one for each finding, and the counts.
pub fn report_text(
    alloc: Global,
    site: &Site<'_>,
    pages: &[Judged],
    found: &Findings,
) -> Result<String, Memory> {
    let mut text = String::new(alloc);
    for (spot, remark) in found.told.iter() {
        for character in remark.path.as_slice() {
            text.push(*character)?;
        }
        let (line, kind) = (spot.line, remark.kind.word());
        let (word, way) = (spot.word.as_str(), remark.way.as_str());
        let told = format!(in alloc; ":{line}: {kind} {word}: {way}\n")?;
        text.push_str(told.as_str())?;
    }
    text.push_str(counts(alloc, site, pages, found)?.as_str())?;
    Ok(text)
}

/// The places of the files of which something is told.
fn marked(alloc: Global, site: &Site<'_>, found: &Findings) -> Result<BTreeSet<usize>, Memory> {
    let mut places = BTreeSet::new(alloc);
    for spot in found.told.keys() {
        if let Some(place) = site.places.get(&spot.folded) {
            places.insert(*place)?;
        }
    }
    Ok(places)
}

/// How many pages there are, and how many of them have something to mend.
fn page_counts(pages: &[Judged], marked: &BTreeSet<usize>) -> (usize, usize) {
    let mut all = 0usize;
    let mut to_mend = 0usize;
    for page in pages {
        if page.is_page {
            all = all.saturating_add(1);
            let is_marked = page.reached.iter().any(|place| marked.contains(place));
            if page.is_refused || is_marked {
                to_mend = to_mend.saturating_add(1);
            }
        }
    }
    (all, to_mend)
}

/// How many findings of a kind there are.
fn count_of(found: &Findings, kind: Kind) -> usize {
    let mut count = 0usize;
    for remark in found.told.values() {
        if remark.kind == kind {
            count = count.saturating_add(1);
        }
    }
    count
}

/// The line with the counts.
fn counts(
    alloc: Global,
    site: &Site<'_>,
    pages: &[Judged],
    found: &Findings,
) -> Result<String, Memory> {
    let (all, to_mend) = page_counts(pages, &marked(alloc, site, found)?);
    let accepted = all.saturating_sub(to_mend);
    let lines = found.told.len();
    let mut text = format!(in alloc;
        "{all} pages: {accepted} accepted as they are, {to_mend} with something to mend; {lines} lines"
    )?;
    let mut mark = ": ";
    for kind in KINDS {
        let count = count_of(found, kind);
        if count > 0 {
            let word = kind.word();
            let told = format!(in alloc; "{mark}{count} {word}")?;
            text.push_str(told.as_str())?;
            mark = ", ";
        }
    }
    text.push('\n')?;
    Ok(text)
}
