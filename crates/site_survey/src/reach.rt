//! The files of which pages are made.

use crate::scanning::Scans;
use std::alloc::Global;
use std::collections::BTreeSet;
use vb_value::Memory;

/// The places of a page and of all files that it includes, one through another.
pub fn reached(alloc: Global, scans: &Scans, page: usize) -> Result<Vec<usize>, Memory> {
    let mut places = Vec::new(alloc);
    let mut seen = BTreeSet::new(alloc);
    places.push(page)?;
    seen.insert(page)?;
    for at in 0..=scans.len() {
        let Some(place) = places.get(at).copied() else {
            return Ok(places);
        };
        if let Some(scan) = scans.get(&place) {
            for include in scan.includes.as_slice() {
                if seen.insert(*include)? {
                    places.push(*include)?;
                }
            }
        }
    }
    Ok(places)
}

/// The places of the files that others include.
pub fn included(alloc: Global, scans: &Scans) -> Result<BTreeSet<usize>, Memory> {
    let mut places = BTreeSet::new(alloc);
    for (place, scan) in scans.iter() {
        for include in scan.includes.as_slice() {
            if include != place {
                places.insert(*include)?;
            }
        }
    }
    Ok(places)
}

/// Whether one of the files at these places declares the name.
pub fn is_declared(scans: &Scans, places: &[usize], name: &str) -> bool {
    for place in places {
        if let Some(scan) = scans.get(place) {
            if scan.declares(name) {
                return true;
            }
        }
    }
    false
}
