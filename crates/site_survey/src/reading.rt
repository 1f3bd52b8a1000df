//! The files of a site, read into memory.

use crate::finding::Findings;
use crate::stop::SurveyStop;
use asp_io::{Folder, IoStop, StdFolder};
use file_survey::{Kind, Table};
use std::alloc::Global;
use std::collections::BTreeMap;
use std::rt::Files;
use vb_value::{
    Bytes, Copied, MOST_FILE_BYTES, MOST_FILES, MOST_SITE_BYTES, Memory, SiteFile, Text, fold,
};

/// How many bytes of a file are read: one more than it may have.
const MOST_READ: u32 = MOST_FILE_BYTES as u32 + 1;

/// The files of a site in the order of their folded paths. One that is too large has no bytes here.
#[derive(Drop)]
pub struct Sources {
    /// The files.
    pub files: Vec<SiteFile>,
    /// The place of each among them, by its folded path.
    pub places: BTreeMap<Text, usize>,
}

/// The paths of the site's files by their folded paths: of those that are equal so, the one that comes first, as the
/// host has it. The others are told.
pub fn site_paths(
    alloc: Global,
    table: &Table,
    mut paths: Vec<Text>,
    found: &mut Findings,
) -> Result<BTreeMap<Text, Text>, Memory> {
    paths.sort()?;
    let mut chosen: BTreeMap<Text, Text> = BTreeMap::new(alloc);
    for path in paths {
        let small = fold(alloc, &path)?;
        if chosen.contains_key(&small) {
            found.tell_whole(table, &path, (Kind::File, "twin"))?;
        } else {
            chosen.insert(small, path)?;
        }
    }
    Ok(chosen)
}

/// Reads the files at these paths. Where the site has too many bytes or files, that is told of the file by which it
/// has, and those behind it are not read.
pub fn read_sources<R: Files + AllocGlobal + Clone + Drop>(
    alloc: Global,
    folder: &mut StdFolder<R>,
    table: &Table,
    paths: BTreeMap<Text, Text>,
    found: &mut Findings,
) -> Result<Sources, SurveyStop> {
    let mut sources = Sources {
        files: Vec::new(alloc),
        places: BTreeMap::new(alloc),
    };
    let mut total = 0usize;
    for (small, path) in paths {
        let bytes = read_file(alloc, folder, &path)?;
        total = total.saturating_add(bytes.len());
        if total > MOST_SITE_BYTES || sources.files.len() >= MOST_FILES {
            found.tell_whole(table, &path, (Kind::File, "last"))?;
            return Ok(sources);
        }
        if bytes.len() > MOST_FILE_BYTES {
            found.tell_whole(table, &path, (Kind::Fault, "TooLarge"))?;
        }
        add_source(alloc, &mut sources, small, path, bytes)?;
    }
    Ok(sources)
}

fn read_file<R: Files + AllocGlobal + Clone + Drop>(
    alloc: Global,
    folder: &mut StdFolder<R>,
    path: &Text,
) -> Result<Bytes, SurveyStop> {
    match folder.read(alloc, path, MOST_READ) {
        Ok(bytes) => Ok(bytes),
        Err(IoStop::Failed) => Err(SurveyStop::Unread(path.copy()?)),
        Err(IoStop::Memory) => Err(SurveyStop::Memory),
    }
}

fn add_source(
    alloc: Global,
    sources: &mut Sources,
    small: Text,
    path: Text,
    bytes: Bytes,
) -> Result<(), Memory> {
    let bytes = if bytes.len() > MOST_FILE_BYTES {
        Bytes::new(alloc)
    } else {
        bytes
    };
    sources.places.insert(small, sources.files.len())?;
    sources.files.push(SiteFile { path, bytes })?;
    Ok(())
}
