//! What the calls of a case give.

use crate::calls::{write_on_one, write_on_page, write_on_two};
use crate::keyed::write_on_entry;
use case_files::{Answer, CaseStop, Subject, read_text};
use vb_heap::Heap;

/// Calls on a new page, with `; ` between them, each with what it gives.
pub struct Pages;

impl Subject for Pages {
    fn answer(&self, case: &str, out: &mut Answer) {
        match read_text(out.alloc(), case) {
            Ok(text) => write_page(out, text.as_str()),
            Err(stop) => out.stop(stop),
        }
    }
}

fn write_page(out: &mut Answer, calls: &str) {
    match Heap::new(out.alloc()) {
        Ok(mut heap) => {
            for call in calls.split("; ") {
                write_call(out, &mut heap, call);
            }
        }
        Err(_) => out.stop(CaseStop::Memory),
    }
}

/// Writes what a call gives. A blank stands before each of its arguments, of which it has at most three.
fn write_call(out: &mut Answer, heap: &mut Heap, written: &str) {
    let mut words = written.split(' ');
    let word = words.next().unwrap_or("");
    let (first, second, third) = (words.next(), words.next(), words.next());
    match (first, second, third) {
        (None, _, _) => write_on_page(out, heap, word),
        (Some(first), None, _) => write_on_one(out, heap, word, first),
        (Some(first), Some(second), None) => write_on_two(out, heap, word, first, second),
        (Some(first), Some(second), Some(third)) => {
            write_on_entry(out, heap, word, first, second, third)
        }
    }
}
