//! Laws of sites. The functions do nothing: their contracts are the laws.
ghost use Rattle.std.specs.Prelude.{◌≡◌, List, map};
ghost use Rattle.vb_value.specs.declared.site_file.SiteFault.{SiteFault};
ghost use Rattle.vb_value.specs.declared.site_file.SiteFile.{SiteFile};
ghost use Rattle.asp_io.specs.Folder.{AreSitePaths, path_of};
ghost use Rattle.asp_site.specs.declared.site.Site.{Site};
ghost use Rattle.site_load.specs.Accepted.{IsAccepted, IsFolderFault};

use page_build::{one_page_fault, page_or_fault};
use page_read::one_outcome;

/// A folder that is a site has no fault.
pub fn site_or_fault()
    ensures { (all : List SiteFile) (site : Site) (fault : SiteFault) → AreSitePaths (map path_of all)
        → IsAccepted all site → IsFolderFault all fault → ⊥ }
{
    one_outcome();
    page_or_fault();
}

/// A folder has one first fault at most.
pub fn one_folder_fault()
    ensures { (all : List SiteFile) (fault other : SiteFault) → AreSitePaths (map path_of all)
        → IsFolderFault all fault → IsFolderFault all other → fault ≡ other }
{
    one_outcome();
    page_or_fault();
    one_page_fault();
}
