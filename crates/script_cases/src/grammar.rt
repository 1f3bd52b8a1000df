//! What the grammar makes of scripts.

use crate::stopped::write_stop;
use crate::units::write_unit;
use crate::words::{bare_words, script_words, text_words};
use crate::writing::{write_counts, write_lined, write_places, write_words};
use case_files::{Answer, CaseStop};
use vb_parse::parse;
use vb_print::print;
use vb_syntax::Unit;
use vb_value::{List, Memory, Token};

/// Writes the words of a script between its two edges.
pub fn write_inner_words(out: &mut Answer, script: &str) {
    if let Some(words) = text_words(out, script) {
        match words.as_slice() {
            [_, inner @ .., _] => write_words(out, inner),
            _ => write_words(out, words.as_slice()),
        }
    }
}

/// Writes the places of a script's words, edges and all.
pub fn write_script_places(out: &mut Answer, script: &str) {
    if let Some(words) = text_words(out, script) {
        write_places(out, words.as_slice());
    }
}

/// Writes how many words a script has, edges and all.
pub fn write_script_counts(out: &mut Answer, script: &str) {
    if let Some(words) = text_words(out, script) {
        write_counts(out, words.as_slice());
    }
}

/// The tree of words, if they have one. Else the answer has why.
fn tree(out: &mut Answer, words: Option<List<Token>>) -> Option<Unit> {
    match parse(out.alloc(), words?.as_slice()) {
        Ok(unit) => Some(unit),
        Err(stop) => {
            write_stop(out, &stop);
            None
        }
    }
}

/// The tree of a script.
fn script_tree(out: &mut Answer, script: &str) -> Option<Unit> {
    let words = script_words(out, script);
    tree(out, words)
}

/// Writes the tree of a script.
pub fn write_tree(out: &mut Answer, script: &str) {
    if let Some(unit) = script_tree(out, script) {
        write_unit(out, &unit);
    }
}

/// Writes the tree of a script without line ends at its edges.
pub fn write_bare_tree(out: &mut Answer, script: &str) {
    let words = bare_words(out, script);
    if let Some(unit) = tree(out, words) {
        write_unit(out, &unit);
    }
}

/// Writes that the grammar has the script.
pub fn write_verdict(out: &mut Answer, script: &str) {
    if script_tree(out, script).is_some() {
        out.put("accepted");
    }
}

/// Writes the words that are printed of a script's tree.
pub fn write_printed(out: &mut Answer, script: &str) {
    if let Some(unit) = script_tree(out, script) {
        match print(out.alloc(), &unit) {
            Ok(words) => write_lined(out, words.as_slice()),
            Err(Memory) => out.stop(CaseStop::Memory),
        }
    }
}
