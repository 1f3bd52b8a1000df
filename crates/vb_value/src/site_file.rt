//! The files of a site, and what is wrong with one.

use crate::bytes::Bytes;
use crate::text::Text;
use std::error::Error;
use std::fmt;

/// At most so many bytes has a file of a site.
pub const MOST_FILE_BYTES: usize = 4_194_304;

/// At most so many files has a site.
pub const MOST_FILES: usize = 4_096;

/// At most so many bytes have the files of a site together.
pub const MOST_SITE_BYTES: usize = 67_108_864;

/// A file of a site.
#[derive(Debug, Drop)]
pub struct SiteFile {
    /// Its path below the site's root, which begins with `/`.
    pub path: Text,
    /// All that it holds.
    pub bytes: Bytes,
}

/// What is wrong with a file, and where.
#[derive(Debug, Drop)]
pub struct SiteFault {
    /// The path of the file, as in [`SiteFile`].
    pub path: Text,
    /// The line, counted from 1, or 0 for the file as a whole.
    pub line: u32,
    /// What is wrong there.
    pub kind: FaultKind,
}

/// What can be wrong with a file of a site.
#[derive(Clone, Copy, Debug, PartialEq, Eq)]
pub enum FaultKind {
    /// The file holds a form of page that this host does not run yet, or it is no page.
    NotYet,
    /// The bytes are no UTF-8 (RFC 3629).
    NotUtf8,
    /// A script block has no `%>`, an element no end tag, or a comment that includes no `-->`.
    OpenBlock,
    /// A directive that is a second one, stands behind something, or stands in an included file.
    LateDirective,
    /// A directive, or the tag of a script element, with an attribute that it may not have.
    BadDirective,
    /// An `<object>` element that runs at the server.
    ObjectTag,
    /// An included file is no file of the site.
    NotFound,
    /// The path of an included file leaves the site, or is no path.
    BadPath,
    /// A file includes itself, at once or through others.
    Cycle,
    /// More than 32 files include one another.
    Depth,
    /// A script block in `/global.asa`.
    BadGlobal,
    /// A file, or the files of the site together, are too large or too many.
    TooLarge,
    /// A string has no end in its line.
    OpenString,
    /// A name in brackets has no end in its line.
    OpenBracket,
    /// A name is longer than 255 characters.
    LongName,
    /// A number that is too great, or has a point, an exponent or a name at it.
    BadNumber,
    /// A date between number signs.
    DateLiteral,
    /// An operator that whole numbers don't have.
    BadOperator,
    /// A character with which no word begins.
    BadCharacter,
    /// A word with which no script goes on.
    Unexpected,
    /// A Sub is called with several arguments in parentheses.
    CallParens,
    /// The page's text stands where it may not, in a class or before the first Case.
    TextHere,
    /// Blocks or parentheses nest more than 200 deep.
    TooDeep,
    /// A name is declared twice.
    Redefined,
    /// An Exit leaves nothing that is around it.
    BadExit,
    /// A constant is assigned to.
    ConstTarget,
    /// A member of the page's objects that is none, or is used as it can't be.
    BadMember,
    /// More names, dimensions or parameters than may be.
    TooMany,
}

impl fmt::Display for FaultKind {
    fn fmt<W: fmt::Write>(&self, f: &mut fmt::Formatter<W>) -> fmt::Result {
        match self {
            FaultKind::NotYet => write!(f, "a form of page that is not run yet"),
            FaultKind::NotUtf8 => write!(f, "bytes that are no UTF-8"),
            FaultKind::OpenBlock => write!(f, "a block without an end"),
            FaultKind::LateDirective => write!(f, "a directive that does not stand first"),
            FaultKind::BadDirective => write!(f, "a directive that is not understood"),
            FaultKind::ObjectTag => write!(f, "an object element"),
            FaultKind::NotFound => write!(f, "an included file that is not there"),
            FaultKind::BadPath => write!(f, "an included file whose path is none"),
            FaultKind::Cycle => write!(f, "a file that includes itself"),
            FaultKind::Depth => write!(f, "too many files that include one another"),
            FaultKind::BadGlobal => write!(f, "a script block in global.asa"),
            FaultKind::TooLarge => write!(f, "too many bytes or files"),
            FaultKind::OpenString => write!(f, "a string without an end"),
            FaultKind::OpenBracket => write!(f, "a name in brackets without an end"),
            FaultKind::LongName => write!(f, "a name that is too long"),
            FaultKind::BadNumber => write!(f, "a number that is none"),
            FaultKind::DateLiteral => write!(f, "a date"),
            FaultKind::BadOperator => write!(f, "an operator that is not known"),
            FaultKind::BadCharacter => write!(f, "a character that stands for nothing"),
            FaultKind::Unexpected => write!(f, "a word that is not expected"),
            FaultKind::CallParens => write!(f, "several arguments in parentheses"),
            FaultKind::TextHere => write!(f, "text that may not stand here"),
            FaultKind::TooDeep => write!(f, "constructs that nest too deep"),
            FaultKind::Redefined => write!(f, "a name that is declared twice"),
            FaultKind::BadExit => write!(f, "an Exit that leaves nothing"),
            FaultKind::ConstTarget => write!(f, "a constant that is assigned to"),
            FaultKind::BadMember => write!(f, "a member that is none"),
            FaultKind::TooMany => write!(f, "too many of something"),
        }
    }
}

impl Error for FaultKind {}
