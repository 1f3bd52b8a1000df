//! The words of a script.

use crate::text::Text;

/// A word of a script, and where it stands.
#[derive(Debug, Drop, PartialEq, Eq)]
pub struct Token {
    /// What word it is.
    pub kind: TokenKind,
    /// The line on which it begins, counted from 1.
    pub line: u32,
    /// The place of its first character, counted from 0.
    pub start: u32,
    /// The place behind its last character.
    pub end: u32,
}

/// What a word of a script is (VBScript 5.6 language reference, with the text of an ASP page).
#[derive(Debug, Drop, PartialEq, Eq)]
pub enum TokenKind {
    /// A word that no variable, procedure or class can have as its name.
    Keyword(Keyword),
    /// An operator that is no word, or a mark of punctuation.
    Symbol(Symbol),
    /// A name.
    Name {
        /// Its characters as written, without brackets.
        text: Text,
        /// Whether it stood in `[` and `]`. Such a name is never one of the words `Error`, `Explicit`,
        /// `Property` and `Step`, which are names that some statements give a meaning of their own.
        bracketed: bool,
    },
    /// A number of the type Integer.
    Integer(i16),
    /// A number of the type Long.
    Long(i32),
    /// A text between quotes, each doubled quote in it being one.
    String(Text),
    /// The end of a line, or an edge of a script.
    LineEnd,
    /// Text of the page, which is written as it is.
    PageText(Text),
    /// The beginning of `<%= .. %>`. The words of the expression come behind it.
    PageWrite,
}

/// The keywords.
#[derive(Clone, Copy, Debug, PartialEq, Eq)]
pub enum Keyword {
    /// `And`
    And,
    /// `ByRef`
    ByRef,
    /// `ByVal`
    ByVal,
    /// `Call`
    Call,
    /// `Case`
    Case,
    /// `Class`
    Class,
    /// `Const`
    Const,
    /// `Dim`
    Dim,
    /// `Do`
    Do,
    /// `Each`
    Each,
    /// `Else`
    Else,
    /// `ElseIf`
    ElseIf,
    /// `Empty`
    Empty,
    /// `End`
    End,
    /// `Eqv`
    Eqv,
    /// `Erase`
    Erase,
    /// `Exit`
    Exit,
    /// `False`
    False,
    /// `For`
    For,
    /// `Function`
    Function,
    /// `Get`
    Get,
    /// `GoTo`
    GoTo,
    /// `If`
    If,
    /// `Imp`
    Imp,
    /// `In`
    In,
    /// `Is`
    Is,
    /// `Let`
    Let,
    /// `Loop`
    Loop,
    /// `Me`
    Me,
    /// `Mod`
    Mod,
    /// `New`
    New,
    /// `Next`
    Next,
    /// `Not`
    Not,
    /// `Nothing`
    Nothing,
    /// `Null`
    Null,
    /// `On`
    On,
    /// `Option`
    Option,
    /// `Or`
    Or,
    /// `Preserve`
    Preserve,
    /// `Private`
    Private,
    /// `Public`
    Public,
    /// `ReDim`
    ReDim,
    /// `Resume`
    Resume,
    /// `Select`
    Select,
    /// `Set`
    Set,
    /// `Sub`
    Sub,
    /// `Then`
    Then,
    /// `To`
    To,
    /// `True`
    True,
    /// `Until`
    Until,
    /// `Wend`
    Wend,
    /// `While`
    While,
    /// `With`
    With,
    /// `Xor`
    Xor,
}

/// The operators that are no words, and the marks of punctuation.
#[derive(Clone, Copy, Debug, PartialEq, Eq)]
pub enum Symbol {
    /// `&`
    Ampersand,
    /// `<=`
    AtMost,
    /// `>=`
    AtLeast,
    /// `\`
    Backslash,
    /// `)`
    Close,
    /// `:`
    Colon,
    /// `,`
    Comma,
    /// `=`
    Equal,
    /// `>`
    Greater,
    /// `<`
    Less,
    /// `-`
    Minus,
    /// `<>`
    NotEqual,
    /// `(`
    Open,
    /// `+`
    Plus,
    /// `*`
    Star,
    /// A `.` directly behind a name, `Me` or `)`, which goes on with a path.
    PathPoint,
    /// Any other `.`, which begins a member of the object of a With.
    WithPoint,
}
