//! What `check` refuses.
ghost use Rattle.std.specs.Prelude.{IsTrue};
ghost use Rattle.std.specs.List.{All};
ghost use Rattle.page_read.specs.Reading.{IsShort};

use page_build::build;
use page_read::{SiteStop, expand};
use std::alloc::Global;
use vb_value::{List, Memory, SiteFault, SiteFile, Text};

/// How many bytes the files of pages may have here, those that are written anew among them.
const MOST_BYTES: usize = 0x7fff_ffff;

/// Whether each file is short enough for its pieces to be read.
pub fn are_short(files: &[SiteFile]) -> bool
    ensures { IsTrue result → All IsShort files.now }
{
    files.iter().all(|file| file.bytes.len() <= MOST_BYTES)
}

/// The fault of the page at a path, or of `/global.asa`, with the files that it includes, if it has one.
pub fn page_fault(
    alloc: Global,
    files: &List<SiteFile>,
    path: &Text,
    is_global: bool,
) -> Result<Option<SiteFault>, Memory>
    requires { All IsShort files.now }
{
    let parts = match expand(alloc, files, path) {
        Ok(parts) => parts,
        Err(SiteStop::Fault(fault)) => return Ok(Some(fault)),
        Err(SiteStop::Memory) => return Err(Memory),
    };
    match build(alloc, path, parts.as_slice(), is_global) {
        Ok(_) => Ok(None),
        Err(SiteStop::Fault(fault)) => Ok(Some(fault)),
        Err(SiteStop::Memory) => Err(Memory),
    }
}
