//! A folder of the system.
ghost use Rattle.std.specs.Prelude.{◌≡◌, ◌≤◌, None, IfOk, OnOk, length};
ghost use Rattle.asp_io.specs.Faults.{HasCause};
ghost use Rattle.asp_io.specs.Folder.{AreSitePaths, IsRooted};

use crate::fault::IoStop;
use crate::folder::Folder;
use crate::std_stream::read_start;
use crate::tree::files_below;
use std::alloc::Global;
use std::fs;
use std::marker::Model;
use std::rt::Files;
use vb_value::{Bytes, List, Text};

/// A folder of the system, which contracts see as its count of faults.
///
/// Its files are the regular files below the root. A symbolic link below the root, a special file and a name
/// that is not UTF-8 are faults.
#[derive(Drop)]
pub struct StdFolder<R> {
    rt: R,
    root: String,
    faults: u64,
}

impl<R> Model for StdFolder<R> {
    ghost use Rattle.std.specs.Prelude.{ℕ};

    ghost Value = { ℕ };

    ghost view = { λ folder. folder.faults };
}

impl<R> StdFolder<R> {
    /// The folder at the path `root`, which may be a symbolic link itself.
    pub fn new(rt: R, root: String) -> StdFolder<R>
        ensures { result ≡ 0 }
    {
        StdFolder {
            rt,
            root,
            faults: 0,
        }
    }

    /// How many calls have failed, at most 2^64 - 1.
    pub fn faults(&self) -> u64
        ensures { result ≡ self.now }
    {
        self.faults
    }
}

impl<R: Files + AllocGlobal + Clone + Drop> Folder for StdFolder<R> {
    ghost files = { λ _. None };

    ghost faults = { λ folder. folder };

    fn names(&mut self, alloc: Global) -> Result<List<Text>, IoStop> {
        let names = names_below(&self.rt, alloc, self.root.as_str());
        count_fault(&mut self.faults, names)
    }

    fn read(&mut self, alloc: Global, name: &Text, most: u32) -> Result<Bytes, IoStop>
        ensures within { IfOk result (λ bytes. length bytes ≤ most) }

        // A name without a slash at its front, behind which a path beside the root could stand, is refused.
        ensures rooted { OnOk result (IsRooted name.now) }
        ensures cause { HasCause IoStop.Failed self.old self.new result }
    {
        let bytes = read_below(&self.rt, alloc, self.root.as_str(), name, most);
        count_fault(&mut self.faults, bytes)
    }
}

/// The answer as it is. A fault is counted.
fn count_fault<T>(faults: &mut u64, answer: Result<T, IoStop>) -> Result<T, IoStop>
    ensures same { result ≡ answer }
    ensures cause { HasCause IoStop.Failed faults.old faults.new result }
{
    if let Err(IoStop::Failed) = &answer {
        *faults = faults.saturating_add(1);
    }
    answer
}

/// The path of each file below `root`.
fn names_below<R: Files + AllocGlobal + Clone + Drop>(
    rt: &R,
    alloc: Global,
    root: &str,
) -> Result<List<Text>, IoStop>
    ensures { IfOk result AreSitePaths }
{
    let base = base_path(rt, alloc, root)?;
    files_below(rt, alloc, base.as_str())
}

/// The first `most` bytes of the file at the path `name` below `root`.
fn read_below<R: Files + AllocGlobal>(
    rt: &R,
    alloc: Global,
    root: &str,
    name: &Text,
    most: u32,
) -> Result<Bytes, IoStop>
    ensures within { IfOk result (λ bytes. length bytes ≤ most) }
    ensures rooted { OnOk result (IsRooted name.now) }
{
    if name.as_slice().first() != Some(&'/') {
        return Err(IoStop::Failed);
    }
    let mut path = base_path(rt, alloc, root)?;
    path.push_str(name.to_string(alloc)?.as_str())?;
    if !is_plain_file(rt, path.as_str())? {
        return Err(IoStop::Failed);
    }
    let mut file = fs::open(rt, path.as_str())?;
    read_start(alloc, &mut file, most)
}

/// The root's own path, without symbolic links, to which a path that begins with `/` can be added.
fn base_path<R: Files + AllocGlobal>(rt: &R, alloc: Global, root: &str) -> Result<String, IoStop> {
    let path = fs::canonicalize(rt, root)?;
    Ok(String::from_str(alloc, path.as_str().trim_end_matches('/'))?)
}

/// Whether the path leads to a regular file, with no symbolic link, `.` or `..` in it.
fn is_plain_file<R: Files + AllocGlobal>(rt: &R, path: &str) -> Result<bool, IoStop> {
    let is_plain = fs::canonicalize(rt, path)?.as_str() == path;
    Ok(is_plain && fs::symlink_metadata(rt, path)?.is_file())
}
