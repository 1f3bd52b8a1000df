//! What can be wrong with a page file.

use std::error::Error;
use std::fmt;
use vb_value::Stop;

/// What is wrong with a page file (ASP 3.0, "Creating ASP Pages").
#[derive(Clone, Copy, Debug, PartialEq, Eq)]
pub enum PageFault {
    /// The file is not UTF-8 (RFC 3629).
    NotUtf8,
    /// A block of script has no `%>` behind it, or a script element no `</script>`.
    OpenBlock,
    /// A directive with something else before it than blanks.
    LateDirective,
    /// A directive with an attribute that is not taken, or a script element in another language or with `src`.
    BadDirective,
    /// An `<object>` element that is to run on the server.
    ObjectTag,
}

impl fmt::Display for PageFault {
    /// The name of the fault.
    fn fmt<W: fmt::Write>(&self, f: &mut fmt::Formatter<W>) -> fmt::Result {
        write!(f, "{self:?}")
    }
}

impl Error for PageFault {}

/// Why a file was not read as a page: a fault, whose line is counted from 1 and is 0 for the file as a whole, or memory
/// ran out.
pub type PageStop = Stop<PageFault>;
