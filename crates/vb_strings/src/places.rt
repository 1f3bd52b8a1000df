//! The first and the last place of a pattern in a text, each by one pass (Knuth, Morris and Pratt).
ghost use Rattle.std.specs.Prelude.{◌≡◌, ◌+◌, ◌≤◌, IfSome, length};
ghost use Rattle.vb_strings.specs.Borders.{AreBorders};
ghost use Rattle.vb_strings.specs.Searching as spec;

use crate::comparing::{Comparison, same};

/// How many characters stand before the first place at which the pattern stands in the text. Each step reads one
/// character further or tries a later place, so there are at most twice as many as the text has characters.
pub fn first_in(
    comparison: Comparison,
    text: &[char],
    pattern: &[char],
    borders: &[usize],
) -> Option<usize>
    requires { AreBorders comparison pattern.now borders.now }
    ensures place { result ≡ spec.first_in comparison text.now pattern.now }
    ensures within { IfSome result (λ before. before + length pattern.now ≤ length text.now) }
{
    if pattern.is_empty() {
        return if text.is_empty() { None } else { Some(0) };
    }
    let mut start = 0;
    let mut matched = 0;
    while start + matched < text.len() {
        if same(comparison, text[start + matched], pattern[matched]) {
            matched += 1;
            if matched == pattern.len() {
                return Some(start);
            }
        } else if matched == 0 {
            start += 1;
        } else {
            let border = borders[matched - 1];
            start += matched - border;
            matched = border;
        }
    }
    None
}

/// The last place at which the pattern stands in the text, counted from 1, and 0 where it stands nowhere. After a
/// match the search goes on as after a partial one.
pub fn last_place_in(
    comparison: Comparison,
    text: &[char],
    pattern: &[char],
    borders: &[usize],
) -> usize
    requires { AreBorders comparison pattern.now borders.now }
    ensures { result ≡ spec.place_of 0 (spec.last_in comparison text.now pattern.now) }
{
    if pattern.is_empty() {
        return text.len();
    }
    let mut last = 0;
    let mut start = 0;
    let mut matched = 0;
    while start + matched < text.len() {
        if same(comparison, text[start + matched], pattern[matched]) {
            matched += 1;
            if matched == pattern.len() {
                last = start + 1;
                let border = borders[matched - 1];
                start += matched - border;
                matched = border;
            }
        } else if matched == 0 {
            start += 1;
        } else {
            let border = borders[matched - 1];
            start += matched - border;
            matched = border;
        }
    }
    last
}
