//! Pages with their includes replaced by the files that they name.
ghost use Rattle.std.specs.Prelude.{IsTrue};
ghost use Rattle.std.specs.List.{All};
ghost use Rattle.page_read.specs.Reading.{IsShort};

use crate::pages::{MOST_BYTES, write_piece};
use crate::sites::read_files;
use case_files::{Answer, CaseStop, Subject};
use page_read::{Located, SiteStop, expand};
use std::fmt::Debug;
use vb_value::{List, SiteFile, Text};

/// Pages of sites, each with its parts: the file of each and what it is, or the file and the line of the first fault.
pub struct Includes;

impl Subject for Includes {
    fn answer(&self, case: &str, out: &mut Answer) {
        if let Some((_, parts)) = parts(out, case) {
            write_parts(out, parts.as_slice());
        }
    }
}

/// The path of a page and its parts, if it has them. Else the answer has why.
pub fn parts(out: &mut Answer, case: &str) -> Option<(Text, List<Located>)> {
    let (path, _) = case.split_once(" ## ").unwrap_or((case, ""));
    let files = read_files(out, case);
    match Text::from_str(out.alloc(), path) {
        Ok(path) => parts_of(out, &files, path),
        Err(_) => {
            out.stop(CaseStop::Memory);
            None
        }
    }
}

fn parts_of(out: &mut Answer, files: &List<SiteFile>, path: Text) -> Option<(Text, List<Located>)> {
    if !are_short(files.as_slice()) {
        out.stop(CaseStop::Unreadable);
        return None;
    }
    match expand(out.alloc(), files, &path) {
        Ok(parts) => Some((path, parts)),
        Err(stop) => {
            write_fault(out, &stop);
            None
        }
    }
}

/// Writes the file, the line and the kind of a fault.
pub fn write_fault(out: &mut Answer, stop: &SiteStop) {
    match stop {
        SiteStop::Fault(fault) => write_placed(out, &fault.path, fault.line, &fault.kind),
        SiteStop::Memory => out.stop(CaseStop::Memory),
    }
}

/// Writes a file, a line, and what stands there.
pub fn write_placed<K: Debug>(out: &mut Answer, path: &Text, line: u32, kind: &K) {
    out.text(path.as_slice());
    out.put(":");
    out.show(&line);
    out.put(": ");
    out.debug(kind);
}

/// Whether each file is one that a site may have.
fn are_short(files: &[SiteFile]) -> bool
    ensures { IsTrue result → All IsShort files.now }
{
    files.iter().all(|file| file.bytes.len() <= MOST_BYTES)
}

fn write_parts(out: &mut Answer, parts: &[Located]) {
    for part in parts {
        if !out.is_empty() {
            out.put(", ");
        }
        out.text(part.path.as_slice());
        out.put(" ");
        write_piece(out, &part.fragment);
    }
}
