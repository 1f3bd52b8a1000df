//! Why a survey ends before its last line.

use file_survey::{TableFault, TableStop};
use std::alloc::{AllocError, AllocFailed, Global};
use vb_value::{Memory, Stop, Text};

/// Why a survey ends before its last line.
#[derive(Drop)]
pub enum SurveyStop {
    /// The words of the command line are none.
    Usage,
    /// The table was not read.
    NoTable,
    /// A line of the table is wrong, counted from 1.
    Table { line: u32, fault: TableFault },
    /// The folder, or what stands in it at this path, was not read.
    Unread(Text),
    /// The output was not taken.
    Unwritten,
    /// Memory ran out.
    Memory,
}

impl From<Memory> for SurveyStop {
    fn from(_: Memory) -> SurveyStop {
        SurveyStop::Memory
    }
}

impl From<AllocError> for SurveyStop {
    fn from(_: AllocError) -> SurveyStop {
        SurveyStop::Memory
    }
}

impl<T: Drop> From<AllocFailed<T>> for SurveyStop {
    fn from(_: AllocFailed<T>) -> SurveyStop {
        SurveyStop::Memory
    }
}

impl From<TableStop> for SurveyStop {
    fn from(stop: TableStop) -> SurveyStop {
        match stop {
            Stop::Fault { kind: fault, line } => SurveyStop::Table { line, fault },
            Stop::Memory => SurveyStop::Memory,
        }
    }
}

impl SurveyStop {
    /// The exit status, as those of the host's commands.
    pub fn code(&self) -> u8 {
        match self {
            SurveyStop::Memory => 1,
            SurveyStop::Usage => 2,
            SurveyStop::Table { line: _, fault: _ } => 3,
            SurveyStop::NoTable => 4,
            SurveyStop::Unread(_) => 4,
            SurveyStop::Unwritten => 5,
        }
    }

    /// What there is to say of it, where these were the table and the site.
    pub fn text(&self, alloc: Global, table: &str, site: &str) -> Result<String, AllocError> {
        match self {
            SurveyStop::Memory => String::from_str(alloc, "out of memory"),
            SurveyStop::Usage => String::from_str(alloc, "usage: survey SITE"),
            SurveyStop::Table { line, fault } => format!(in alloc; "{table}:{line}: {fault}"),
            SurveyStop::NoTable => format!(in alloc; "read fault: {table}"),
            SurveyStop::Unread(path) => unread_text(alloc, site, path),
            SurveyStop::Unwritten => String::from_str(alloc, "write fault"),
        }
    }
}

fn unread_text(alloc: Global, site: &str, path: &Text) -> Result<String, AllocError> {
    let mut text = format!(in alloc; "read fault: {site}")?;
    for character in path.as_slice() {
        text.push(*character)?;
    }
    Ok(text)
}
