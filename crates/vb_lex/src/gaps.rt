//! What stands between words.
ghost use Rattle.std.specs.Prelude.{◌≡◌, ◌<◌, ◌≤◌, length};
ghost use Rattle.vb_lex.specs.Gaps as spec;

use crate::characters::{Class, character, run};

/// How many characters the line end has that a text begins with, 0 where it begins with none.
pub fn line_end_length(text: &[char]) -> usize
    ensures value { result ≡ spec.line_end_length text.now }
    ensures within { result ≤ length text.now }
{
    match (character(text, 0), character(text, 1)) {
        ('\r', '\n') => 2,
        ('\r' | '\n', _) => 1,
        _ => 0,
    }
}

fn underscore_length(text: &[char]) -> usize
    ensures value { result ≡ spec.underscore_length text.now }
    ensures within { result ≤ length text.now }
{
    match text {
        ['_', rest @ ..] => 1 + run(Class::Blank, rest),
        _ => 0,
    }
}

/// How many characters stand together with the blank that a text begins with.
pub fn blank_length(text: &[char]) -> usize
    requires { 0 < length text.now }
    ensures value { result ≡ spec.blank_length text.now }
    ensures within { result ≤ length text.now }
    ensures moves { 0 < result }
{
    let used = 1 + underscore_length(&text[1..]);
    let ending = line_end_length(&text[used..]);
    if used > 1 && ending > 0 {
        used + ending
    } else {
        1
    }
}
