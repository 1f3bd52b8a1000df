//! The files of folders that make up their sites.

use crate::includes::write_placed;
use crate::sites::read_site;
use case_files::{Answer, CaseStop, Subject};
use site_load::{LoadStop, site_files};
use vb_value::SiteFile;

/// Folders, each with the files of its site and how many bytes they have, or the file that is refused.
pub struct Folders;

impl Subject for Folders {
    fn answer(&self, case: &str, out: &mut Answer) {
        let Some(mut folder) = read_site(out, case) else {
            return;
        };
        match site_files(out.alloc(), &mut folder) {
            Ok(files) => write_files(out, files.as_slice()),
            Err(LoadStop::Refused(fault)) => {
                write_placed(out, &fault.path, fault.line, &fault.kind);
            }
            Err(LoadStop::ReadFault) => out.put("read fault"),
            Err(LoadStop::Memory) => out.stop(CaseStop::Memory),
        }
    }
}

fn write_files(out: &mut Answer, files: &[SiteFile]) {
    for file in files {
        if !out.is_empty() {
            out.put(", ");
        }
        out.text(file.path.as_slice());
        out.put(" ");
        out.show(&file.bytes.len());
    }
}
