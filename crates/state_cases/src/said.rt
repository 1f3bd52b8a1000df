//! The numbers of calls, and what calls give, as cases write them.

use case_files::{Answer, CaseStop};
use vb_value::{List, Memory};

/// The number that is written so. Anything else stops the answer.
pub fn number(out: &mut Answer, written: Option<&str>) -> u32 {
    match written.unwrap_or("").parse() {
        Ok(number) => number,
        Err(_) => {
            out.stop(CaseStop::Unreadable);
            0
        }
    }
}

/// The moment that is written so, in seconds. Anything else stops the answer.
pub fn moment(out: &mut Answer, written: Option<&str>) -> u64 {
    u64::from(number(out, written))
}

/// Writes what stands before an answer, unless it is the first.
pub fn write_comma(out: &mut Answer) {
    if !out.is_empty() {
        out.put(", ");
    }
}

/// A call gave this word.
pub fn write_word(out: &mut Answer, word: &str) {
    write_comma(out);
    out.put(word);
}

/// A call gave this number.
pub fn write_number(out: &mut Answer, number: u32) {
    write_comma(out);
    out.show(&number);
}

/// A call gave a number or nothing.
pub fn write_maybe(out: &mut Answer, number: Option<u32>) {
    match number {
        Some(number) => write_number(out, number),
        None => write_word(out, "none"),
    }
}

/// A call gave these numbers.
pub fn write_numbers(out: &mut Answer, numbers: &Result<List<u32>, Memory>) {
    match numbers {
        Ok(numbers) => {
            write_word(out, "[");
            for (i, number) in numbers.as_slice().iter().enumerate() {
                if i > 0 {
                    out.put(" ");
                }
                out.show(number);
            }
            out.put("]");
        }
        Err(_) => out.stop(CaseStop::Memory),
    }
}
