//! The classes of characters that words are made of, and runs of one class.
ghost use Rattle.std.specs.Prelude.{◌≡◌, ◌≢◌, ◌<◌, ◌≤◌, length, slice_index};
ghost use Rattle.std.specs.List.{prefix_len};
ghost use Rattle.vb_lex.specs.Characters as spec;

use vb_value::is_blank;

/// The character at a place, or NUL where the text has none.
pub fn character(text: &[char], at: usize) -> char
    ensures value { result ≡ slice_index text.now at }
    ensures within { result ≢ 0 → at < length text.now }
{
    if at < text.len() { text[at] } else { '\0' }
}

/// Whether the character belongs to a line end.
pub fn is_line_end(c: char) -> bool
    ensures { result ≡ spec.is_line_end c }
{
    c == '\n' || c == '\r'
}

/// A class of characters.
#[derive(Clone, Copy, Debug)]
pub enum Class {
    /// Spaces and tabs.
    Blank,
    /// All that belong to no line end.
    OnLine,
    /// Those of a name: ASCII letters, digits and `_`.
    NamePart,
    /// Those of a name in brackets.
    Bracketed,
    /// The digits from 0 to 7.
    Octal,
    /// The digits from 0 to 9.
    Decimal,
    /// The digits from 0 to 9 and from A to F, in any case.
    Hexadecimal,
}

/// Whether the character is of the class.
pub fn is_in(class: Class, c: char) -> bool
    ensures { result ≡ spec.is_in class c }
{
    match class {
        Class::Blank => is_blank(c),
        Class::OnLine => !is_line_end(c),
        Class::NamePart => c.is_ascii_alphanumeric() || c == '_',
        Class::Bracketed => c != ']' && !is_line_end(c),
        Class::Octal => c.is_digit(8),
        Class::Decimal => c.is_digit(10),
        Class::Hexadecimal => c.is_digit(16),
    }
}

/// How many characters of the class a text begins with.
pub fn run(class: Class, text: &[char]) -> usize
    ensures value { result ≡ prefix_len (spec.is_in class) text.now }
    ensures within { result ≤ length text.now }
{
    let mut end = 0;
    while end < text.len() && is_in(class, text[end]) {
        end += 1;
    }
    end
}
