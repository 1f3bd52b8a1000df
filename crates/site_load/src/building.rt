//! The pages that the files of a site make up.
ghost use Rattle.std.specs.Prelude.{◌≡◌, ◌∷◌, [], IfOk, None, Some, filter};
ghost use Rattle.std.specs.List.{All};
ghost use Rattle.vb_value.specs.Outcome.{Changes, Gives};
ghost use Rattle.page_read.specs.Reading.{IsShort, OnSiteFault};
ghost use Rattle.asp_site.specs.Endings as endings;
ghost use Rattle.site_load.specs.Accepted as spec;
ghost use Rattle.site_load.specs.Stopping.{joined};

use asp_site::{Page, Site, is_global, is_page, is_static};
use page_build::build;
use page_read::{SiteStop, expand};
use std::alloc::Global;
use vb_value::{List, Memory, SiteFile, Text};

/// What a file is to its site.
#[derive(Clone, Copy, Debug, PartialEq, Eq)]
pub enum Role {
    /// A page.
    Page,
    /// The file of the site's events.
    Events,
    /// A file that is not run by itself.
    Other,
}

/// The pages of a site, and the page of its events.
#[derive(Debug, Drop)]
pub struct RunPages {
    /// The pages, in the order of their files.
    pub pages: List<Page>,
    /// The page of the events, if the site has one.
    pub events: Option<Page>,
}

/// What the path of a file says of it.
fn role_of(path: &Text) -> Role
    ensures { result ≡ spec.role_of path.now }
{
    if is_page(path.as_slice()) {
        Role::Page
    } else if is_global(path.as_slice()) {
        Role::Events
    } else {
        Role::Other
    }
}

/// The page at the path, with the files that it includes.
fn page_at(
    alloc: Global,
    files: &List<SiteFile>,
    path: &Text,
    global: bool,
) -> Result<Page, SiteStop>
    requires { All IsShort files.now }
    ensures ok { IfOk result (spec.IsBuilt files.now path.now global) }
    ensures fault { OnSiteFault result (spec.HasFault files.now path.now global) }
{
    let parts = match expand(alloc, files, path) {
        Ok(parts) => parts,
        Err(stop) => return Err(stop),
    };
    build(alloc, path, parts.as_slice(), global)
}

/// The site that the files make up, in the order in which they stand, or the fault of the first that has one.
pub fn built(alloc: Global, files: List<SiteFile>) -> Result<Site, SiteStop>
    requires { All IsShort files }
    ensures ok { IfOk result (spec.IsSite files) }
    ensures fault { OnSiteFault result (spec.IsFirstFault files) }
{
    let runs = match site_runs(alloc, &files) {
        Ok(runs) => runs,
        Err(stop) => return Err(stop),
    };
    Ok(Site {
        pages: runs.pages,
        statics: statics(alloc, files)?,
        events: runs.events,
    })
}

/// The files that are served as they are.
fn statics(alloc: Global, files: List<SiteFile>) -> Result<List<SiteFile>, Memory>
    ensures { Gives result (filter (λ file. endings.is_static file.path) files) }
{
    let files = files.into_vec().into_iter();
    let statics = files.filter(|file| is_static(file.path.as_slice()));
    Ok(List::from_vec(statics.collect(alloc)?))
}

/// The pages and the events among the files.
fn site_runs(alloc: Global, files: &List<SiteFile>) -> Result<RunPages, SiteStop>
    requires { All IsShort files.now }
    ensures ok { IfOk result (spec.AreRuns files.now files.now) }
    ensures fault { OnSiteFault result (spec.IsFirstFault files.now) }
{
    let mut runs = no_runs(alloc);
    let all = files.as_slice();
    for file in all {
        match run_of(alloc, files, file) {
            Ok(more) => add(&mut runs, more)?,
            Err(stop) => return Err(stop),
        }
    }
    Ok(runs)
}

/// No pages.
fn no_runs(alloc: Global) -> RunPages
    ensures { result ≡ spec.no_runs }
{
    RunPages {
        pages: List::new(alloc),
        events: None,
    }
}

/// Adds those of a file behind.
fn add(runs: &mut RunPages, more: RunPages) -> Result<(), Memory>
    ensures { Changes result runs.old runs.new (joined runs.old more) }
{
    runs.pages.append(more.pages)?;
    if runs.events.is_none() {
        runs.events = more.events;
    }
    Ok(())
}

/// One page alone.
fn of_page(alloc: Global, page: Page) -> Result<RunPages, Memory>
    ensures { Gives result (record { pages = page ∷ []; events = None }) }
{
    let mut pages = List::with_capacity(alloc, 1)?;
    pages.push(page)?;
    Ok(RunPages {
        pages,
        events: None,
    })
}

/// The events alone.
fn of_events(alloc: Global, page: Page) -> RunPages
    ensures { result ≡ record { pages = []; events = Some page } }
{
    RunPages {
        pages: List::new(alloc),
        events: Some(page),
    }
}

/// The file as one of the pages or the events, if it is one.
fn run_of(alloc: Global, files: &List<SiteFile>, file: &SiteFile) -> Result<RunPages, SiteStop>
    requires { All IsShort files.now }
    ensures ok { IfOk result (spec.AreRuns files.now (file.now ∷ [])) }
    ensures fault { OnSiteFault result (spec.IsFileFault files.now file.now (spec.role_of file.now.path)) }
{
    match role_of(&file.path) {
        Role::Page => match page_at(alloc, files, &file.path, false) {
            Ok(page) => Ok(of_page(alloc, page)?),
            Err(stop) => Err(stop),
        },
        Role::Events => match page_at(alloc, files, &file.path, true) {
            Ok(page) => Ok(of_events(alloc, page)),
            Err(stop) => Err(stop),
        },
        Role::Other => Ok(no_runs(alloc)),
    }
}
