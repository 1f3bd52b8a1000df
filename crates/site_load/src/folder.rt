//! The site of a folder.
ghost use Rattle.std.specs.Prelude.{◌≡◌, IfErr, IfOk, IfSome};
ghost use Rattle.asp_io.specs.Faults.{HasCause};
ghost use Rattle.site_load.specs.Accepted.{IsAccepted};
ghost use Rattle.site_load.specs.Stopping.{Refuses};

use crate::building::built;
use crate::files::site_files;
use crate::stop::LoadStop;
use asp_io::Folder;
use asp_site::Site;
use std::alloc::Global;

/// The site that the files of a folder make up (ASP 3.0, "Creating ASP Pages"). A file that is too large, or the one by
/// which the site is, is refused before any page; then the first page, in the order of folded paths, that has a fault.
pub fn load<F: Folder>(alloc: Global, folder: &mut F) -> Result<Site, LoadStop>
    ensures ok { IfOk result (λ site. IfSome (F.files folder.old) (λ all. IsAccepted all site)) }
    ensures refused { IfErr result (Refuses (F.files folder.old)) }
    ensures same { F.files folder.new ≡ F.files folder.old }
    ensures cause { HasCause LoadStop.ReadFault (F.faults folder.old) (F.faults folder.new) result }
{
    let files = site_files(alloc, folder)?;
    Ok(built(alloc, files)?)
}
