//! Sites as cases write them.

use crate::hexadecimal::read_bytes;
use asp_io::{MemFolder, SureFolder};
use case_files::{Answer, CaseStop, read_text};
use std::alloc::Global;
use vb_value::{Bytes, List, SiteFile, Text};

/// The site of a case, as [`read_files`] reads its files.
pub fn read_site(out: &mut Answer, case: &str) -> Option<MemFolder> {
    let files = read_files(out, case);
    let Ok(fails) = List::from_slice(out.alloc(), &[0]) else {
        out.stop(CaseStop::Memory);
        return None;
    };
    match SureFolder::new(files) {
        Some(folder) => Some(MemFolder::new(folder, fails)),
        None => {
            out.stop(CaseStop::Unreadable);
            None
        }
    }
}

/// The files of a case, which are written each behind ` ## `: its path, a colon, and its text behind a blank; or its path,
/// `=`, and its bytes in hexadecimal.
pub fn read_files(out: &mut Answer, case: &str) -> List<SiteFile> {
    let mut files = List::new(out.alloc());
    for (i, part) in case.split(" ## ").enumerate() {
        if i > 0 {
            push_file(out, &mut files, part);
        }
    }
    files
}

fn push_file(out: &mut Answer, files: &mut List<SiteFile>, written: &str) {
    let (head, rest) = written.split_once(' ').unwrap_or((written, ""));
    let (path, bytes) = match (head.strip_suffix(':'), rest.strip_prefix("= ")) {
        (Some(path), _) => (path, text_bytes(out.alloc(), rest)),
        (None, Some(bytes)) => (head, read_bytes(out.alloc(), bytes)),
        (None, None) => (head, Err(CaseStop::Unreadable)),
    };
    let Ok(path) = Text::from_str(out.alloc(), path) else {
        return out.stop(CaseStop::Memory);
    };
    match bytes {
        Ok(bytes) => {
            if files.push(SiteFile { path, bytes }).is_err() {
                out.stop(CaseStop::Memory);
            }
        }
        Err(stop) => out.stop(stop),
    }
}

fn text_bytes(alloc: Global, written: &str) -> Result<Bytes, CaseStop> {
    let text = read_text(alloc, written)?;
    Ok(Bytes::from_slice(alloc, text.as_str().as_bytes())?)
}
