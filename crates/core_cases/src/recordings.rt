//! Recordings, read and written.

use crate::said::{write_bytes, write_record_stop};
use crate::table::recording;
use asp_record::{Item, Recording, read_recording, write_recording};
use case_files::{Answer, CaseStop, Subject, read_text};
use vb_value::Bytes;

/// `read` and the text of a recording: how many items it has, the rule of its lock, whether it has the same text again, as
/// the second version has it, and where it ends; or where it is refused. `made again`: the same of the recording of twenty items that is made in code, and whether the same
/// items and seed are read again. `made text`: the text of that.
pub struct Recordings;

/// The text of a recording.
fn text_of(out: &mut Answer, recording: &Recording) -> Bytes {
    match write_recording(out.alloc(), recording) {
        Ok(text) => text,
        Err(_) => {
            out.stop(CaseStop::Memory);
            Bytes::new(out.alloc())
        }
    }
}

fn write_told(out: &mut Answer, recording: &Recording, are_same: bool, end: u64) {
    out.show(&recording.items.len());
    out.put(if recording.strict {
        ", strict"
    } else {
        ", plain"
    });
    out.put(if are_same { ", the same" } else { ", others" });
    out.put(", ends at ");
    out.show(&end);
}

/// Whether a text is the one of the second version that has the seed and the items of this one.
fn is_again(again: &[u8], bytes: &[u8]) -> bool {
    match bytes.strip_prefix(b"ASPREC 1\n") {
        None => again == bytes,
        Some(rest) => match (
            rest.get(..70),
            rest.get(70..),
            again.strip_prefix(b"ASPREC 2\n"),
        ) {
            (Some(seed), Some(items), Some(text)) => match text.strip_prefix(seed) {
                Some(text) => text.strip_prefix(b"lock plain\n") == Some(items),
                None => false,
            },
            _ => false,
        },
    }
}

/// Writes what was read, and whether it is these bytes again.
fn write_again(out: &mut Answer, recording: &Recording, end: u64, bytes: &[u8]) {
    let again = text_of(out, recording);
    let are_same = match bytes.get(..end as usize) {
        Some(read) => is_again(again.as_slice(), read),
        None => false,
    };
    write_told(out, recording, are_same, end);
}

fn write_read(out: &mut Answer, bytes: &[u8]) {
    match read_recording(out.alloc(), bytes) {
        Ok(read) => write_again(out, &read.0, read.1, bytes),
        Err(stop) => write_record_stop(out, stop),
    }
}

fn is_request(item: &Item, of: u32, at: u64, sent: &[u8]) -> bool {
    match item {
        Item::Request {
            client,
            moment,
            bytes,
        } => *client == of && *moment == at && bytes.as_slice() == sent,
        Item::Tick { .. } => false,
    }
}

fn is_tick(item: &Item, at: u64) -> bool {
    match item {
        Item::Request { .. } => false,
        Item::Tick { moment } => *moment == at,
    }
}

fn is_same(item: &Item, other: &Item) -> bool {
    match item {
        Item::Request {
            client,
            moment,
            bytes,
        } => is_request(other, *client, *moment, bytes.as_slice()),
        Item::Tick { moment } => is_tick(other, *moment),
    }
}

/// Whether recordings have the same seed, the same rule and the same items.
fn are_same(one: &Recording, other: &Recording) -> bool {
    let mut same = one.seed.as_slice() == other.seed.as_slice() && one.strict == other.strict;
    same = same && one.items.len() == other.items.len();
    for (at, item) in one.items.as_slice().iter().enumerate() {
        same = match other.items.get(at) {
            Some(found) => same && is_same(item, found),
            None => false,
        };
    }
    same
}

fn write_made(out: &mut Answer) {
    let made = recording(out);
    let text = text_of(out, &made);
    match read_recording(out.alloc(), text.as_slice()) {
        Ok(read) => {
            let are_same = are_same(&made, &read.0) && text.len() as u64 == read.1;
            write_told(out, &read.0, are_same, read.1);
        }
        Err(stop) => write_record_stop(out, stop),
    }
}

fn write_text(out: &mut Answer) {
    let made = recording(out);
    let text = text_of(out, &made);
    write_bytes(out, text.as_slice());
}

fn write_of_words(out: &mut Answer, written: &str) {
    match written.split_once(' ') {
        Some(("read", text)) => write_read(out, text.as_bytes()),
        Some(("made", "again")) => write_made(out),
        Some(("made", "text")) => write_text(out),
        _ => out.stop(CaseStop::Unreadable),
    }
}

impl Subject for Recordings {
    fn answer(&self, case: &str, out: &mut Answer) {
        match read_text(out.alloc(), case) {
            Ok(written) => write_of_words(out, written.as_str()),
            Err(stop) => out.stop(stop),
        }
    }
}
