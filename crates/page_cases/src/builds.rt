//! Pages as they are built of their parts.

use crate::includes::{parts, write_fault};
use asp_site::{Page, is_global};
use case_files::{Answer, CaseStop, Subject};
use page_build::build;

/// Pages of sites, each with the lines of files that its program's lines stand in, or with the file and the line of its
/// first fault.
pub struct Builds;

impl Subject for Builds {
    fn answer(&self, case: &str, out: &mut Answer) {
        if let Some((path, parts)) = parts(out, case) {
            let is_global = is_global(path.as_slice());
            match build(out.alloc(), &path, parts.as_slice(), is_global) {
                Ok(page) => write_page(out, &page),
                Err(stop) => write_fault(out, &stop),
            }
        }
    }
}

fn write_page(out: &mut Answer, page: &Page) {
    if !page.session {
        out.put("no sessions, ");
    }
    out.put("lines");
    for place in 0..page.lines.len() {
        write_spot(out, page, place);
    }
}

fn write_spot(out: &mut Answer, page: &Page, place: usize) {
    match page.lines.spot(place) {
        Ok(Some(spot)) => {
            out.put(" ");
            out.text(spot.path.as_slice());
            out.put(":");
            out.show(&spot.line);
        }
        Ok(None) => out.put(" nowhere"),
        Err(_) => out.stop(CaseStop::Memory),
    }
}
