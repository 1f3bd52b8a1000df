//! The files of a folder's site.
ghost use Rattle.std.specs.Prelude.{◌≡◌, ◌↔◌, ◌≤◌, IfErr, IfOk, IfSome, IsTrue, length, map};
ghost use Rattle.std.specs.Option.{ForSome};
ghost use Rattle.asp_io.specs.Faults.{HasCause};
ghost use Rattle.asp_io.specs.Folder.{HasFile, path_of};
ghost use Rattle.site_load.specs.Chosen.{AreChosen};
ghost use Rattle.site_load.specs.Files.{AreSmall, IsSiteOf, most_of_site};
ghost use Rattle.site_load.specs.Reading.{HasRoom, IsReadAt, IsTooLargeStop, StopsLoading};

use crate::chosen::chosen_paths;
use crate::stop::LoadStop;
use asp_io::{Folder, IoStop};
use std::alloc::Global;
use vb_value::{
    Copied, FaultKind, List, MOST_FILE_BYTES, MOST_FILES, MOST_SITE_BYTES, Memory, SiteFault,
    SiteFile, Text,
};

/// How many bytes of a file are read: one more than it may have.
const MOST_READ: u32 = MOST_FILE_BYTES as u32 + 1;

/// The files of the folder's site, in the order of their folded paths: of those whose paths are equal without ASCII
/// case, the one whose path comes first. A file that is too large, and the one by which the site is, is refused.
pub fn site_files<F: Folder>(alloc: Global, folder: &mut F) -> Result<List<SiteFile>, LoadStop>
    ensures ok { IfOk result (λ files. IfSome (F.files folder.old) (λ all. IsSiteOf all files)) }
    ensures small { IfOk result AreSmall }
    ensures refused { IfErr result (StopsLoading (F.files folder.old)) }
    ensures same { F.files folder.new ≡ F.files folder.old }
    ensures cause { HasCause LoadStop.ReadFault (F.faults folder.old) (F.faults folder.new) result }
{
    let paths = site_paths(alloc, folder)?;
    read_files(alloc, folder, paths.as_slice())
}

/// The paths of the files that make up the folder's site.
fn site_paths<F: Folder>(alloc: Global, folder: &mut F) -> Result<List<Text>, IoStop>
    ensures ok { IfOk result (λ paths. IfSome (F.files folder.old) (λ all. AreChosen (map path_of all) paths)) }
    ensures same { F.files folder.new ≡ F.files folder.old }
    ensures cause { HasCause IoStop.Failed (F.faults folder.old) (F.faults folder.new) result }
{
    let names = folder.names(alloc)?;
    Ok(chosen_paths(alloc, names.as_slice())?)
}

/// Reads the files at the paths.
fn read_files<F: Folder>(
    alloc: Global,
    folder: &mut F,
    paths: &[Text],
) -> Result<List<SiteFile>, LoadStop>
    requires { ForSome (F.files folder.old) (λ all. AreChosen (map path_of all) paths.now) }
    ensures ok { IfOk result (λ files. IfSome (F.files folder.old) (λ all. IsSiteOf all files)) }
    ensures small { IfOk result AreSmall }
    ensures refused { IfErr result (StopsLoading (F.files folder.old)) }
    ensures same { F.files folder.new ≡ F.files folder.old }
    ensures cause { HasCause LoadStop.ReadFault (F.faults folder.old) (F.faults folder.new) result }
{
    let mut files = List::with_capacity(alloc, paths.len())?;
    let mut total = 0;
    for path in paths {
        let file = read_file(alloc, folder, path)?;
        if !has_room(files.len(), total, file.bytes.len()) {
            return Err(too_large(path));
        }
        total += file.bytes.len();
        files.push(file)?;
    }
    Ok(files)
}

/// Whether a file of this size fits behind so many files of so many bytes.
fn has_room(count: usize, total: usize, size: usize) -> bool
    requires { total ≤ most_of_site }
    ensures { IsTrue result ↔ HasRoom count total size }
{
    count < MOST_FILES && size <= MOST_FILE_BYTES && total + size <= MOST_SITE_BYTES
}

/// The refusal of the file at the path, which is too large or makes the site so.
fn too_large(path: &Text) -> LoadStop
    ensures { IsTooLargeStop path.now result }
{
    match path.copy() {
        Ok(path) => LoadStop::Refused(SiteFault {
            path,
            line: 0,
            kind: FaultKind::TooLarge,
        }),
        Err(Memory) => LoadStop::Memory,
    }
}

/// The file at the path, with one byte more than it may have, at most.
fn read_file<F: Folder>(alloc: Global, folder: &mut F, path: &Text) -> Result<SiteFile, IoStop>
    requires { ForSome (F.files folder.old) (λ all. HasFile all path.now) }
    ensures ok { IfOk result (λ read. IfSome (F.files folder.old) (λ all. IsReadAt all path.now read)) }
    ensures short { IfOk result (λ read. length read.bytes ≤ 4194305) }
    ensures same { F.files folder.new ≡ F.files folder.old }
    ensures cause { HasCause IoStop.Failed (F.faults folder.old) (F.faults folder.new) result }
{
    let bytes = folder.read(alloc, path, MOST_READ)?;
    Ok(SiteFile {
        path: path.copy()?,
        bytes,
    })
}
