//! Comments and tags in the plain text of a page, which the host sends as it stands.

use crate::folding::folded_characters;
use crate::kind::Kind;
use crate::scan::Scan;
use crate::table::Table;
use std::alloc::Global;
use vb_value::{Memory, ends_line};

/// How long a tag is read, and the blanks behind the beginning of a comment.
const MOST_OF_TAG: usize = 1000;

/// How long the word of a comment is read.
const MOST_OF_WORD: usize = 20;

/// Adds the comments and tags of a text that begins in this line, which another host would not have sent.
pub fn add_plain(
    alloc: Global,
    table: &Table,
    text: &[char],
    first: u32,
    scan: &mut Scan,
) -> Result<(), Memory> {
    let mut line = first;
    for at in 0..text.len() {
        if text[at] == '<' {
            add_form(alloc, table, &text[at..], line, scan)?;
        }
        if ends_line(text, at) {
            line = line.saturating_add(1);
        }
    }
    Ok(())
}

fn begins(text: &[char], mark: &str) -> bool {
    text.len() >= mark.len()
        && text
            .iter()
            .zip(mark.chars())
            .all(|(one, other)| one.to_ascii_lowercase() == other)
}

/// Adds the form at the front, if it is one.
fn add_form(
    alloc: Global,
    table: &Table,
    text: &[char],
    line: u32,
    scan: &mut Scan,
) -> Result<(), Memory> {
    if begins(text, "<!--") {
        let word = comment_word(alloc, text)?;
        if let Some(row) = table.row(Kind::Comment, word.as_str()) {
            scan.see(Kind::Comment, line, row.word.as_str(), row.way.as_str())?;
        }
    } else if (begins(text, "<script") || begins(text, "<object")) && runs(alloc, text)? {
        let way = table.way_out(Kind::Form, "tag")?;
        scan.see(Kind::Form, line, "tag", way.as_str())?;
    }
    Ok(())
}

/// The first word of a comment, in small letters.
fn comment_word(alloc: Global, text: &[char]) -> Result<String, Memory> {
    let mut word = String::new(alloc);
    for character in text.iter().skip(4).take(MOST_OF_TAG) {
        if character.is_ascii_alphanumeric() || *character == '#' {
            word.push(character.to_ascii_lowercase())?;
        } else if !word.is_empty() || !character.is_ascii_whitespace() {
            return Ok(word);
        }
        if word.len() > MOST_OF_WORD {
            return Ok(word);
        }
    }
    Ok(word)
}

/// Whether the tag at the front says that it runs at the server.
fn runs(alloc: Global, text: &[char]) -> Result<bool, Memory> {
    let (start, _) = text.split_at(text.len().min(MOST_OF_TAG));
    let small = folded_characters(alloc, start)?;
    let (tag, _) = small
        .as_str()
        .split_once('>')
        .unwrap_or((small.as_str(), ""));
    Ok(tag.contains("runat"))
}
