//! Parts of a page, each with the file that it stands in.

use crate::fragment::Fragment;
use std::error::Error;
use std::fmt;
use vb_value::{Memory, SiteFault, Text};

/// A piece of a page, and the file in which it stands.
#[derive(Debug, Drop)]
pub struct Located {
    /// The path of the file, as the site has it.
    pub path: Text,
    /// The piece, whose line is one of that file.
    pub fragment: Fragment,
}

/// Why a site's files were not taken: a fault in one of them, or memory ran out.
#[derive(Debug, Drop)]
pub enum SiteStop {
    /// The first fault.
    Fault(SiteFault),
    /// Memory ran out.
    Memory,
}

impl From<Memory> for SiteStop {
    ghost use Rattle.std.specs.Prelude.{◌≡◌};
    ghost use Rattle.page_read.specs.declared.located.SiteStop.TheVariants.{Memory as OutOfMemory};

    ghost from_gives = { λ _ stop. stop ≡ OutOfMemory };

    fn from(_: Memory) -> SiteStop {
        SiteStop::Memory
    }
}

impl fmt::Display for SiteStop {
    fn fmt<W: fmt::Write>(&self, f: &mut fmt::Formatter<W>) -> fmt::Result {
        match self {
            SiteStop::Fault(fault) => write!(f, "line {}: {}", fault.line, fault.kind),
            SiteStop::Memory => write!(f, "{}", Memory),
        }
    }
}

impl Error for SiteStop {}
