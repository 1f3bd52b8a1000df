//! Lines of a journal, read and written.

use crate::entries::{entry_of, read_entry};
use crate::said::{line_of, write_bytes, write_record_stop};
use asp_record::{Line, read_lines};
use case_files::{Answer, CaseStop, Subject, read_text};
use vb_value::{Bytes, List};

/// `read` and the text of lines: how many they are, and whether their entries have the same lines again; or where they
/// are refused. `made` and an entry in words: its line.
pub struct Lines;

/// The lines of the entries of which lines tell.
fn lines_again(out: &mut Answer, lines: List<Line>) -> Bytes {
    let mut again = Bytes::new(out.alloc());
    for line in lines.into_vec() {
        let entry = entry_of(out, line);
        if again.append(line_of(out, &entry)).is_err() {
            out.stop(CaseStop::Memory);
        }
    }
    again
}

/// Writes how many lines there are, and whether they are these bytes again.
fn write_again(out: &mut Answer, lines: List<Line>, bytes: &[u8]) {
    out.show(&lines.len());
    out.put(", ");
    let again = lines_again(out, lines);
    if again.as_slice() == bytes {
        out.put("the same");
    } else {
        write_bytes(out, again.as_slice());
    }
}

fn write_read(out: &mut Answer, bytes: &[u8]) {
    match read_lines(out.alloc(), bytes) {
        Ok(lines) => write_again(out, lines, bytes),
        Err(stop) => write_record_stop(out, stop),
    }
}

fn write_made(out: &mut Answer, written: &str) {
    let entry = read_entry(out, written);
    let line = line_of(out, &entry);
    write_bytes(out, line.as_slice());
}

fn write_of_words(out: &mut Answer, written: &str) {
    match written.split_once(' ') {
        Some(("read", text)) => write_read(out, text.as_bytes()),
        Some(("made", entry)) => write_made(out, entry),
        _ => out.stop(CaseStop::Unreadable),
    }
}

impl Subject for Lines {
    fn answer(&self, case: &str, out: &mut Answer) {
        match read_text(out.alloc(), case) {
            Ok(written) => write_of_words(out, written.as_str()),
            Err(stop) => out.stop(stop),
        }
    }
}
