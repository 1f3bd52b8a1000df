//! A site of one page and one static file. Where memory runs out, that stops the answer, and the site lacks something.

use asp_site::{Lines, Page, Site};
use case_files::{Answer, CaseStop};
use vb_syntax::Program;
use vb_value::{Bytes, List, SiteFile, Text};

/// The file of the page.
const PAGE: &str = "/d/p.asp";

/// The static file.
const FILE: &str = "/a.css";

/// How many lines of the page have a place.
const LINES: u32 = 100;

/// The site whose page `/d/p.asp` is this program.
pub fn site_of(out: &mut Answer, program: Program) -> Site {
    let path = text(out, PAGE);
    let page = Page {
        lines: lines(out, &path),
        path,
        session: false,
        program,
    };
    let mut pages = List::new(out.alloc());
    if pages.push(page).is_err() {
        out.stop(CaseStop::Memory);
    }
    Site {
        pages,
        statics: statics(out),
        events: None,
    }
}

fn text(out: &mut Answer, written: &str) -> Text {
    match Text::from_str(out.alloc(), written) {
        Ok(text) => text,
        Err(_) => {
            out.stop(CaseStop::Memory);
            Text::new(out.alloc())
        }
    }
}

fn lines(out: &mut Answer, path: &Text) -> Lines {
    let mut lines = Lines::new(out.alloc());
    if lines.add(path, 0, LINES).is_err() {
        out.stop(CaseStop::Memory);
    }
    lines
}

fn statics(out: &mut Answer) -> List<SiteFile> {
    let path = text(out, FILE);
    let mut bytes = Bytes::new(out.alloc());
    let mut statics = List::new(out.alloc());
    let is_written = bytes.append_slice(b"p {}").is_ok();
    if !is_written || statics.push(SiteFile { path, bytes }).is_err() {
        out.stop(CaseStop::Memory);
    }
    statics
}
