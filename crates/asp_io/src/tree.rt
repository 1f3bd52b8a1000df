//! The files below a folder of the system.
ghost use Rattle.std.specs.Prelude.{◌≡◌, IfOk};
ghost use Rattle.std.specs.List.{All};
ghost use Rattle.asp_io.specs.Folder.{AreSitePaths, IsRooted};

use crate::fault::IoStop;
use std::alloc::Global;
use std::fs;
use std::fs::DirEntry;
use std::rt::Files;
use vb_value::{Copied, List, Memory, Text};

/// What a walk through the folders has found. Each path begins with `/`, and that of a folder ends with it.
#[derive(Drop)]
struct Walk {
    /// The folders that are still to be visited.
    folders: List<Text>,
    files: List<Text>,
    ghost folders_rooted: { All IsRooted folders },
    ghost files_rooted: { All IsRooted files },
}

/// The path of each regular file below `root`. A symbolic link, a special file or a name that is not UTF-8
/// is a fault: it is never followed or opened, and never left out in silence.
pub fn files_below<R: Files + AllocGlobal + Clone + Drop>(
    rt: &R,
    alloc: Global,
    root: &str,
) -> Result<List<Text>, IoStop>
    ensures { IfOk result AreSitePaths }
{
    let mut walk = start_walk(alloc)?;
    for _ in 0..u64::MAX {
        let Some(folder) = walk.folders.pop() else {
            return Ok(in_order(walk.files)?);
        };
        visit(rt, alloc, root, &folder, &mut walk)?;
    }
    Err(IoStop::Failed)
}

/// The walk that is to visit the root first.
fn start_walk(alloc: Global) -> Result<Walk, Memory> {
    let mut root = Text::new(alloc);
    root.push('/')?;
    let mut folders = List::new(alloc);
    folders.push(root)?;
    Ok(Walk {
        folders,
        files: List::new(alloc),
    })
}

/// Adds what stands in one folder.
fn visit<R: Files + AllocGlobal + Clone + Drop>(
    rt: &R,
    alloc: Global,
    root: &str,
    folder: &Text,
    walk: &mut Walk,
) -> Result<(), IoStop>
    requires { IsRooted folder.now }
{
    let mut path = String::from_str(alloc, root)?;
    path.push_str(folder.to_string(alloc)?.as_str())?;
    for entry in fs::read_dir(rt, path.as_str())? {
        add_entry(&entry?, folder, walk)?;
    }
    Ok(())
}

/// Adds one file or folder.
fn add_entry<R: Files>(entry: &DirEntry<R>, folder: &Text, walk: &mut Walk) -> Result<(), IoStop>
    requires { IsRooted folder.now }
{
    let kind = entry.file_type()?;
    let mut path = folder.copy()?;
    path.push_str(entry.file_name())?;
    if kind.is_file() {
        walk.files.push(path)?;
    } else if kind.is_dir() {
        path.push('/')?;
        walk.folders.push(path)?;
    } else {
        return Err(IoStop::Failed);
    }
    Ok(())
}

/// The paths in their order, each once.
fn in_order(paths: List<Text>) -> Result<List<Text>, Memory>
    requires { All IsRooted paths }
    ensures { IfOk result AreSitePaths }
{
    let mut paths = paths.into_vec();
    paths.sort()?;
    paths.dedup();
    Ok(List::from_vec(paths))
}
