//! The words of cases, read. Where that fails it is noted in the answer, and what is read has some value.

use case_files::{Answer, CaseStop};
use std::str::Split;
use vb_value::{Bytes, Text};

/// The next word; behind the last one an empty one.
pub fn next<'a>(words: &mut Split<'a, char>) -> &'a str {
    words.next().unwrap_or("")
}

/// The number that is written so.
pub fn number(out: &mut Answer, written: &str) -> u32 {
    match written.parse() {
        Ok(number) => number,
        Err(_) => {
            out.stop(CaseStop::Unreadable);
            0
        }
    }
}

/// The number that the next word is.
pub fn next_number(out: &mut Answer, words: &mut Split<'_, char>) -> u32 {
    number(out, next(words))
}

/// The moment that the next word is, in seconds.
pub fn next_moment(out: &mut Answer, words: &mut Split<'_, char>) -> u64 {
    match next(words).parse() {
        Ok(moment) => moment,
        Err(_) => {
            out.stop(CaseStop::Unreadable);
            0
        }
    }
}

/// The text that is written so.
pub fn text(out: &mut Answer, written: &str) -> Text {
    match Text::from_str(out.alloc(), written) {
        Ok(text) => text,
        Err(_) => {
            out.stop(CaseStop::Memory);
            Text::new(out.alloc())
        }
    }
}

/// These bytes.
pub fn bytes(out: &mut Answer, bytes: &[u8]) -> Bytes {
    match Bytes::from_slice(out.alloc(), bytes) {
        Ok(bytes) => bytes,
        Err(_) => {
            out.stop(CaseStop::Memory);
            Bytes::new(out.alloc())
        }
    }
}
