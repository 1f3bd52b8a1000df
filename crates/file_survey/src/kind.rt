//! Kinds of what a survey tells.

/// What is told of a place.
#[derive(Clone, Copy, Debug, PartialEq, Eq, PartialOrd, Ord)]
pub enum Kind {
    /// What `check` refuses.
    Fault,
    /// A form of a page.
    Form,
    /// An attribute of a directive or of a tag that runs at the server.
    Attribute,
    /// A comment of a page.
    Comment,
    /// A name that nothing stands behind.
    Name,
    /// A member of the page's objects that is none.
    Member,
    /// An object that cannot be made.
    Component,
    /// A server variable that is Empty.
    Variable,
    /// A file, as a whole.
    File,
    /// A folder.
    Folder,
    /// The ending of a file.
    Ending,
}

/// The kinds, in the order in which they are counted.
pub const KINDS: [Kind; 11] = [
    Kind::Fault,
    Kind::Form,
    Kind::Attribute,
    Kind::Comment,
    Kind::Name,
    Kind::Member,
    Kind::Component,
    Kind::Variable,
    Kind::File,
    Kind::Folder,
    Kind::Ending,
];

impl Kind {
    /// The word for it.
    pub fn word(self) -> &'static str {
        match self {
            Kind::Fault => "fault",
            Kind::Form => "form",
            Kind::Attribute => "attribute",
            Kind::Comment => "comment",
            Kind::Name => "name",
            Kind::Member => "member",
            Kind::Component => "component",
            Kind::Variable => "variable",
            Kind::File => "file",
            Kind::Folder => "folder",
            Kind::Ending => "ending",
        }
    }

    /// The kind with this word.
    pub(crate) fn of_word(word: &str) -> Option<Kind> {
        KINDS.iter().copied().find(|kind| kind.word() == word)
    }
}
