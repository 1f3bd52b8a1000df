//! Bytes and ends of connections, as cases write them.

use asp_serve::LinkEnd;
use case_files::{Answer, CaseStop};
use vb_value::Bytes;

/// Adds bytes.
fn add(out: &mut Answer, bytes: &mut Bytes, more: &[u8]) {
    if bytes.append_slice(more).is_err() {
        out.stop(CaseStop::Memory);
    }
}

/// The bytes of a text, with CR LF for each end of a line.
pub fn read_bytes(out: &mut Answer, written: &str) -> Bytes {
    let mut bytes = Bytes::new(out.alloc());
    let mut is_first = true;
    for line in written.split('\n') {
        if !is_first {
            add(out, &mut bytes, b"\r\n");
        }
        is_first = false;
        add(out, &mut bytes, line.as_bytes());
    }
    bytes
}

/// Writes a line: a CR or LF that stands alone is written as `\r` or `\n`.
fn write_line(out: &mut Answer, line: &str) {
    for c in line.chars() {
        match c {
            '\r' => out.put("\\r"),
            '\n' => out.put("\\n"),
            _ => out.text(&[c]),
        }
    }
}

fn write_text(out: &mut Answer, text: &str) {
    let mut between = "";
    for line in text.split("\r\n") {
        out.put(between);
        write_line(out, line);
        between = "\n";
    }
}

/// Writes bytes as a text with an end of a line for each CR LF. Where they are no text, U+FFFD stands for them.
pub fn write_bytes(out: &mut Answer, bytes: &[u8]) {
    match String::from_utf8_lossy(out.alloc(), bytes) {
        Ok(text) => write_text(out, text.as_str()),
        Err(_) => out.stop(CaseStop::Memory),
    }
}

/// Writes how a connection ended.
pub fn write_end(out: &mut Answer, ended: LinkEnd) {
    match ended {
        LinkEnd::Closed { rest } => {
            out.put("closed, ");
            out.show(&rest);
            out.put(" left");
        }
        LinkEnd::Drained => out.put("drained"),
        LinkEnd::Refused(status) => {
            out.put("refused ");
            out.show(&status);
        }
        LinkEnd::ReadFault => out.put("read fault"),
        LinkEnd::WriteFault => out.put("write fault"),
        LinkEnd::JournalFull { .. } => out.put("journal full"),
        LinkEnd::Memory => out.stop(CaseStop::Memory),
    }
}
