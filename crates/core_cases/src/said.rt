//! Lines and other bytes, as cases write them.

use asp_job::Entry;
use asp_record::{RecordStop, entry_line};
use case_files::{Answer, CaseStop};
use vb_value::Bytes;

/// The line of an entry of a journal; empty where it has none.
pub fn line_of(out: &mut Answer, entry: &Entry) -> Bytes {
    match entry_line(out.alloc(), entry) {
        Ok(line) => line,
        Err(_) => {
            out.stop(CaseStop::Memory);
            Bytes::new(out.alloc())
        }
    }
}

/// Writes bytes as a text. Where they are none, U+FFFD stands for them.
pub fn write_bytes(out: &mut Answer, bytes: &[u8]) {
    match String::from_utf8_lossy(out.alloc(), bytes) {
        Ok(text) => out.put(text.as_str()),
        Err(_) => out.stop(CaseStop::Memory),
    }
}

/// Writes where bytes were refused.
pub fn write_record_stop(out: &mut Answer, stop: RecordStop) {
    match stop {
        RecordStop::Refused { offset } => {
            out.put("refused at ");
            out.show(&offset);
        }
        RecordStop::Memory => out.stop(CaseStop::Memory),
    }
}
