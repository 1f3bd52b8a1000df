//! Why a folder gives no site.
ghost use Rattle.std.specs.Prelude.{◌≡◌};

use asp_io::IoStop;
use page_read::SiteStop;
use std::error::Error;
use std::fmt;
use vb_value::{Memory, SiteFault};

/// Why a folder gives no site.
#[derive(Debug, Drop)]
pub enum LoadStop {
    /// The folder failed.
    ReadFault,
    /// A file of the site is not taken.
    Refused(SiteFault),
    /// Memory ran out.
    Memory,
}

impl From<IoStop> for LoadStop {
    ghost use Rattle.site_load.specs.Reading.{stop_of_folder};

    ghost from_gives = { λ stop gives. gives ≡ stop_of_folder stop };

    fn from(stop: IoStop) -> LoadStop {
        match stop {
            IoStop::Failed => LoadStop::ReadFault,
            IoStop::Memory => LoadStop::Memory,
        }
    }
}

impl From<Memory> for LoadStop {
    ghost use Rattle.site_load.specs.declared.stop.LoadStop.TheVariants.{Memory as OutOfMemory};

    ghost from_gives = { λ _ stop. stop ≡ OutOfMemory };

    fn from(_: Memory) -> LoadStop {
        LoadStop::Memory
    }
}

impl From<SiteStop> for LoadStop {
    ghost use Rattle.site_load.specs.Stopping.{stop_of_page};

    ghost from_gives = { λ stop gives. gives ≡ stop_of_page stop };

    fn from(stop: SiteStop) -> LoadStop {
        match stop {
            SiteStop::Fault(fault) => LoadStop::Refused(fault),
            SiteStop::Memory => LoadStop::Memory,
        }
    }
}

impl fmt::Display for LoadStop {
    fn fmt<W: fmt::Write>(&self, f: &mut fmt::Formatter<W>) -> fmt::Result {
        match self {
            LoadStop::ReadFault => write!(f, "the folder failed"),
            LoadStop::Refused(fault) => write!(f, "line {}: {}", fault.line, fault.kind),
            LoadStop::Memory => write!(f, "{}", Memory),
        }
    }
}

impl Error for LoadStop {}
