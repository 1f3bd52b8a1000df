//! What stands in a site at a path.
ghost use Rattle.std.specs.Prelude.{◌≡◌, ◌++◌};
ghost use Rattle.std.specs.Option.{option_copied};
ghost use Rattle.vb_value.specs.Folding.{same_name};
ghost use Rattle.asp_site.specs.Lookup as spec;

use crate::ending::has_ending;
use crate::site::{Page, Site};
use asp_text::same_path;
use vb_value::{SiteFile, Text};

/// What a request of a path means.
#[derive(Debug, Drop)]
pub enum Found<'a> {
    /// A page, which is run.
    Page(&'a Page),
    /// A static file, which is sent as it is.
    Static(&'a SiteFile),
    /// Nothing stands there that is served.
    Missing,
}

const DEFAULT_PAGE: [char; 11] = ['d', 'e', 'f', 'a', 'u', 'l', 't', '.', 'a', 's', 'p'];

const DEFAULT_FILE: [char; 11] = ['d', 'e', 'f', 'a', 'u', 'l', 't', '.', 'h', 't', 'm'];

/// Whether the path is this front and what stands behind it, without regard to ASCII case.
#[tactic(auto, using(crate::proofs::Joined::joined_parts, crate::proofs::Joined::too_short))]
fn is_joined(front: &[char], back: &[char], path: &[char]) -> bool
    ensures { result ≡ same_name (front.now ++ back.now) path.now }
{
    if path.len() < front.len() {
        return false;
    }
    let (start, end) = path.split_at(front.len());
    same_path(front, start) && same_path(back, end)
}

fn page_named<'a>(site: &'a Site, front: &[char], back: &[char]) -> Option<&'a Page>
    ensures { option_copied result ≡ spec.page_named site.now (front.now ++ back.now) }
{
    let pages = site.pages.as_slice();
    pages
        .iter()
        .find(|page| is_joined(front, back, page.path.as_slice()))
}

fn page_at<'a>(site: &'a Site, path: &[char]) -> Option<&'a Page>
    ensures { option_copied result ≡ spec.page_at site.now path.now }
{
    if has_ending(path, b"/") {
        return page_named(site, path, &DEFAULT_PAGE);
    }
    page_named(site, path, &[])
}

fn static_named<'a>(site: &'a Site, front: &[char], back: &[char]) -> Option<&'a SiteFile>
    ensures { option_copied result ≡ spec.static_named site.now (front.now ++ back.now) }
{
    let files = site.statics.as_slice();
    files
        .iter()
        .find(|file| is_joined(front, back, file.path.as_slice()))
}

fn static_at<'a>(site: &'a Site, path: &[char]) -> Option<&'a SiteFile>
    ensures { option_copied result ≡ spec.static_at site.now path.now }
{
    if has_ending(path, b"/") {
        return static_named(site, path, &DEFAULT_FILE);
    }
    static_named(site, path, &[])
}

/// What stands in the site at a normal path. A path that ends in `/` is that of the folder's `default.asp`, or else of its
/// `default.htm`. It looks at one file after another.
pub fn find<'a>(site: &'a Site, path: &Text) -> Found<'a>
    ensures { spec.StandsAt site.now path.now result }
{
    if let Some(page) = page_at(site, path.as_slice()) {
        return Found::Page(page);
    }
    match static_at(site, path.as_slice()) {
        Some(file) => Found::Static(file),
        None => Found::Missing,
    }
}
