//! A folder of files.
ghost use Rattle.std.specs.Prelude.{◌≡◌, ℕ, ◌≤◌, Option, Some, List as Items};
ghost use Rattle.std.specs.Prelude.{IfOk, IfSome, length, map, option_map, take};
ghost use Rattle.std.specs.Option.{ForSome};
ghost use Rattle.vb_value.specs.declared.site_file.SiteFile.{SiteFile};
ghost use Rattle.asp_io.specs.Faults.{HasCause};
ghost use Rattle.asp_io.specs.Folder.{AreSitePaths, HasFile, bytes_of, path_of};

use crate::fault::IoStop;
use std::alloc::Global;
use vb_value::{Bytes, List, Text};

/// A folder of files, which its calls leave as it is.
pub trait Folder {
    /// Its files. A folder that is no list in memory does not tell them.
    ghost files: { Self → Option (Items SiteFile) };

    /// How many calls have failed, at most 2^64 - 1.
    ghost faults: { Self → ℕ };

    /// The path of every file below the root. It begins with `/`, and has one between each two names.
    fn names(&mut self, alloc: Global) -> Result<List<Text>, IoStop>
        ensures names { IfOk result (λ names. IfSome (files self.old) (λ files. names ≡ map path_of files)) }
        ensures paths { IfOk result AreSitePaths }
        ensures same { files self.new ≡ files self.old }
        ensures cause { HasCause IoStop.Failed (faults self.old) (faults self.new) result };

    /// The first `most` bytes of the file at the path `name`, which may have fewer.
    fn read(&mut self, alloc: Global, name: &Text, most: u32) -> Result<Bytes, IoStop>
        requires { ForSome (files self.old) (λ files. HasFile files name.now) }
        ensures bytes { IfOk result (λ bytes. IfSome (files self.old) (λ files.
            option_map (take most) (bytes_of files name.now) ≡ Some bytes)) }
        ensures within { IfOk result (λ bytes. length bytes ≤ most) }
        ensures same { files self.new ≡ files self.old }
        ensures cause { HasCause IoStop.Failed (faults self.old) (faults self.new) result };
}
