//! A folder in memory that never fails.
ghost use Rattle.std.specs.Prelude.{◌≡◌, ◌≤◌, ◌↔◌, Some, IfOk, IfSome, IsTrue};
ghost use Rattle.std.specs.Prelude.{SomeIff, length, map, option_copied, option_map, take};
ghost use Rattle.vb_value.specs.Outcome.{Gives};
ghost use Rattle.asp_io.specs.Folder.{AreSitePaths, HasFile, IsRooted, bytes_of, file_at, path_of};

use crate::fault::IoStop;
use crate::folder::Folder;
use std::alloc::Global;
use std::marker::Model;
use vb_value::{Bytes, Copied, List, Memory, SiteFile, Text};

/// A folder in memory, which contracts see as the list of its files.
#[derive(Debug, Drop)]
pub struct SureFolder {
    files: List<SiteFile>,
}

impl Model for SureFolder {
    ghost use Rattle.std.specs.Prelude.{List as Items, map};
    ghost use Rattle.vb_value.specs.declared.site_file.SiteFile.{SiteFile};
    ghost use Rattle.asp_io.specs.Folder.{AreSitePaths, path_of};

    ghost Value = { Items SiteFile };

    ghost view = { λ folder. folder.files };

    ghost invariant = { λ folder. AreSitePaths (map path_of folder.files) };
}

impl SureFolder {
    /// The folder of `files`, or `None` where a path does not begin with `/` or two are alike. The test
    /// takes time in the square of their number.
    pub fn new(files: List<SiteFile>) -> Option<SureFolder>
        ensures { SomeIff result (AreSitePaths (map path_of files)) files }
    {
        if are_site_paths(files.as_slice()) {
            Some(SureFolder { files })
        } else {
            None
        }
    }

    /// The paths of the files.
    pub fn paths(&self, alloc: Global) -> Result<List<Text>, Memory>
        ensures gives { Gives result (map path_of self.now) }
        ensures paths { AreSitePaths (map path_of self.now) }
    {
        let mut paths = List::new(alloc);
        for file in self.files.as_slice() {
            paths.push(file.path.copy()?)?;
        }
        Ok(paths)
    }

    /// Whether it has a file at the path `name`.
    pub fn has_file(&self, name: &Text) -> bool
        ensures { IsTrue result ↔ HasFile self.now name.now }
    {
        has_file(self.files.as_slice(), name)
    }

    /// The first `most` bytes of the file at the path `name`, or `None` where there is no such file.
    pub fn start_of(&self, alloc: Global, name: &Text, most: u32) -> Result<Option<Bytes>, Memory>
        ensures { Gives result (option_map (take most) (bytes_of self.now name.now)) }
    {
        let Some(file) = find_file(self.files.as_slice(), name) else {
            return Ok(None);
        };
        let bytes = file.bytes.as_slice();
        let count = bytes.len().min(most as usize);
        Ok(Some(List::from_slice(alloc, &bytes[..count])?))
    }
}

impl Folder for SureFolder {
    ghost files = { λ folder. Some folder };

    ghost faults = { λ _. 0 };

    fn names(&mut self, alloc: Global) -> Result<List<Text>, IoStop> {
        Ok(self.paths(alloc)?)
    }

    #[tactic(auto, using(crate::proofs::SitePaths::has_bytes))]
    fn read(&mut self, alloc: Global, name: &Text, most: u32) -> Result<Bytes, IoStop> {
        match self.start_of(alloc, name, most)? {
            Some(bytes) => Ok(bytes),
            None => unreachable!(),
        }
    }
}

/// The first of the files that has this path.
fn find_file<'a>(files: &'a [SiteFile], path: &Text) -> Option<&'a SiteFile>
    ensures { option_copied result ≡ file_at files.now path.now }
{
    files.iter().find(|file| *path == file.path)
}

/// Whether each path begins with `/` and no two are alike.
#[tactic(auto, using(crate::proofs::SitePaths::site_file_is_new, crate::proofs::SitePaths::more_site_files))]
fn are_site_paths(files: &[SiteFile]) -> bool
    ensures { IsTrue result ↔ AreSitePaths (map path_of files.now) }
{
    for at in 0..files.len() {
        if !is_new_path(&files[at].path, &files[..at]) {
            return false;
        }
    }
    true
}

/// Whether the path begins with `/` and is that of none of the files.
fn is_new_path(path: &Text, files: &[SiteFile]) -> bool
    ensures { IsTrue result ↔ (IsRooted path.now × ¬ (HasFile files.now path.now)) }
{
    path.as_slice().first() == Some(&'/') && !has_file(files, path)
}

/// Whether one of the files has this path.
fn has_file(files: &[SiteFile], path: &Text) -> bool
    ensures { IsTrue result ↔ HasFile files.now path.now }
{
    match find_file(files, path) {
        Some(_) => true,
        None => false,
    }
}
