//! All that stands below a folder of the system, links and names that the host refuses among it.

use crate::stop::SurveyStop;
use std::alloc::Global;
use std::fs;
use std::fs::DirEntry;
use std::io::{Error, ErrorKind};
use std::rt::Files;
use vb_value::{Copied, Memory, Text};

/// Why `check` can't read what stands at a path.
#[derive(Clone, Copy)]
pub enum Oddity {
    /// A symbolic link.
    Link,
    /// Neither a file nor a folder.
    Special,
    /// In this folder stands a name that is not UTF-8.
    Name,
}

/// What a walk has found. Each path begins with `/`, and that of a folder ends with it.
#[derive(Drop)]
pub struct Walk {
    /// The folders that are still to be visited.
    pub folders: Vec<Text>,
    /// The files.
    pub files: Vec<Text>,
    /// What can't be read.
    pub oddities: Vec<(Text, Oddity)>,
}

/// The root's own path, without symbolic links, to which a path that begins with `/` can be added.
pub fn base_path<R: Files + AllocGlobal>(rt: &R, root: &str) -> Result<String, SurveyStop> {
    let alloc = rt.alloc();
    match fs::canonicalize(rt, root) {
        Ok(path) => Ok(String::from_str(alloc, path.as_str().trim_end_matches('/'))?),
        Err(error) => Err(unread(&Text::new(alloc), &error)),
    }
}

/// What stands below the folder `root`. No link is followed.
pub fn walk_below<R: Files + AllocGlobal + Clone + Drop>(
    rt: &R,
    root: &str,
) -> Result<Walk, SurveyStop> {
    let mut walk = start_walk(rt.alloc())?;
    for _ in 0..u64::MAX {
        let Some(folder) = walk.folders.pop() else {
            return Ok(walk);
        };
        visit(rt, root, &folder, &mut walk)?;
    }
    Ok(walk)
}

fn start_walk(alloc: Global) -> Result<Walk, Memory> {
    let mut folders = Vec::new(alloc);
    folders.push(Text::from_str(alloc, "/")?)?;
    Ok(Walk {
        folders,
        files: Vec::new(alloc),
        oddities: Vec::new(alloc),
    })
}

/// Adds what stands in one folder.
fn visit<R: Files + AllocGlobal + Clone + Drop>(
    rt: &R,
    root: &str,
    folder: &Text,
    walk: &mut Walk,
) -> Result<(), SurveyStop> {
    let alloc = rt.alloc();
    let mut path = String::from_str(alloc, root)?;
    path.push_str(folder.to_string(alloc)?.as_str())?;
    let entries = match fs::read_dir(rt, path.as_str()) {
        Ok(entries) => entries,
        Err(error) => return Err(unread(folder, &error)),
    };
    for entry in entries {
        match entry {
            Ok(entry) => add_entry(&entry, folder, walk)?,
            Err(error) => add_failed(&error, folder, walk)?,
        }
    }
    Ok(())
}

fn unread(path: &Text, error: &Error) -> SurveyStop {
    if error.kind() == ErrorKind::OutOfMemory {
        return SurveyStop::Memory;
    }
    match path.copy() {
        Ok(path) => SurveyStop::Unread(path),
        Err(Memory) => SurveyStop::Memory,
    }
}

fn add_failed(error: &Error, folder: &Text, walk: &mut Walk) -> Result<(), SurveyStop> {
    if error.kind() != ErrorKind::InvalidFilename {
        return Err(unread(folder, error));
    }
    walk.oddities.push((folder.copy()?, Oddity::Name))?;
    Ok(())
}

/// Adds one file or folder.
fn add_entry<R: Files>(
    entry: &DirEntry<R>,
    folder: &Text,
    walk: &mut Walk,
) -> Result<(), SurveyStop> {
    let mut path = folder.copy()?;
    path.push_str(entry.file_name())?;
    let kind = match entry.file_type() {
        Ok(kind) => kind,
        Err(error) => return Err(unread(&path, &error)),
    };
    if kind.is_file() {
        walk.files.push(path)?;
    } else if kind.is_dir() {
        path.push('/')?;
        walk.folders.push(path)?;
    } else if kind.is_symlink() {
        walk.oddities.push((path, Oddity::Link))?;
    } else {
        walk.oddities.push((path, Oddity::Special))?;
    }
    Ok(())
}
