//! A site, as it is once all its files are read.

use crate::lines::Lines;
use vb_syntax::Program;
use vb_value::{List, SiteFile, Text};

/// A line of a file.
#[derive(Debug, Drop)]
pub struct LineSpot {
    /// The path of the file, as the site has it.
    pub path: Text,
    /// The line, counted from 1, or 0 for none of them.
    pub line: u32,
}

/// A page, with the files that it includes.
#[derive(Debug, Drop)]
pub struct Page {
    /// The path of the page's own file, as the site has it.
    pub path: Text,
    /// Whether the page has sessions.
    pub session: bool,
    /// What the page runs. Its lines are places in `lines`: line n stands at the place n, counted from 0.
    pub program: Program,
    /// The line of a file in which each line of the program stands. At the place 0 stands none, of the page's own path.
    pub lines: Lines,
}

/// The files of a site.
#[derive(Debug, Drop)]
pub struct Site {
    /// Its pages, in the order of their folded paths.
    pub pages: List<Page>,
    /// The files that are served as they are, in the order of their folded paths.
    pub statics: List<SiteFile>,
    /// The procedures of its events, which stand in `/global.asa`.
    pub events: Option<Page>,
}
