//! A survey of a site's folder.

use crate::finding::Findings;
use crate::others::tell_others;
use crate::pages::{Site, judge_pages};
use crate::paths::{tell_oddities, tell_paths};
use crate::reading::{Sources, read_sources, site_paths};
use crate::report::report_text;
use crate::scanning::scan_all;
use crate::stop::SurveyStop;
use crate::walk::{Walk, base_path, walk_below};
use asp_io::StdFolder;
use file_survey::Table;
use std::rt::Files;
use vb_value::List;

/// The lines of a survey of the folder at this path. It changes nothing there.
pub fn survey_folder<R: Files + AllocGlobal + Clone + Drop>(
    rt: &R,
    table: &Table,
    root: &str,
) -> Result<String, SurveyStop> {
    let alloc = rt.alloc();
    let root = base_path(rt, root)?;
    let root = root.as_str();
    let mut found = Findings::new(alloc);
    let Walk {
        folders: _,
        files,
        oddities,
    } = walk_below(rt, root)?;
    tell_oddities(table, oddities.as_slice(), &mut found)?;
    let paths = site_paths(alloc, table, files, &mut found)?;
    tell_paths(alloc, table, &paths, &mut found)?;
    let mut folder = StdFolder::new(rt.clone()?, String::from_str(alloc, root)?);
    let mut sources = read_sources(alloc, &mut folder, table, paths, &mut found)?;
    let scans = scan_all(alloc, table, &mut sources, &mut found)?;
    let Sources { files, places } = sources;
    let site = Site {
        table,
        files: &List::from_vec(files),
        places: &places,
        scans: &scans,
    };
    let pages = judge_pages(alloc, &site, &mut found)?;
    tell_others(alloc, &site, pages.as_slice(), &mut found)?;
    Ok(report_text(alloc, &site, pages.as_slice(), &found)?)
}
