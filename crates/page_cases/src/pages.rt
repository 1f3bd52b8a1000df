//! What page files are made of.

use crate::hexadecimal::read_bytes;
use case_files::{Answer, CaseStop, Subject, read_text};
use page_read::{Fragment, PageStop, fragments};
use vb_value::Text;

/// How many bytes a page file of a case may have.
pub const MOST_BYTES: usize = 4_194_304;

/// Page files, each with its pieces: what each is, its line and its text in quotes.
pub struct Pages;

/// Page files by their bytes in hexadecimal.
pub struct PageBytes;

impl Subject for Pages {
    fn answer(&self, case: &str, out: &mut Answer) {
        match read_text(out.alloc(), case) {
            Ok(text) => write_pieces(out, text.as_str().as_bytes()),
            Err(stop) => out.stop(stop),
        }
    }
}

impl Subject for PageBytes {
    fn answer(&self, case: &str, out: &mut Answer) {
        match read_bytes(out.alloc(), case) {
            Ok(bytes) => write_pieces(out, bytes.as_slice()),
            Err(stop) => out.stop(stop),
        }
    }
}

fn write_pieces(out: &mut Answer, bytes: &[u8]) {
    if bytes.len() > MOST_BYTES {
        return out.stop(CaseStop::Unreadable);
    }
    match fragments(out.alloc(), bytes) {
        Ok(pieces) => {
            for (i, piece) in pieces.as_slice().iter().enumerate() {
                if i > 0 {
                    out.put(", ");
                }
                write_piece(out, piece);
            }
        }
        Err(PageStop::Fault { kind, line }) => {
            out.debug(&kind);
            out.put(" ");
            out.show(&line);
        }
        Err(PageStop::Memory) => out.stop(CaseStop::Memory),
    }
}

/// Adds a piece as cases write it.
pub fn write_piece(out: &mut Answer, piece: &Fragment) {
    match piece {
        Fragment::Directive { session: true } => out.put("directive"),
        Fragment::Directive { session: false } => out.put("directive without sessions"),
        Fragment::Text { text, line: _ } => write_quoted(out, text),
        Fragment::Script { text, line } => write_kind(out, "script ", *line, text),
        Fragment::Write { text, line } => write_kind(out, "", *line, text),
        Fragment::Element { text, line } => write_kind(out, "element ", *line, text),
        Fragment::Include {
            from_root: true,
            path,
            line,
        } => write_kind(out, "virtual ", *line, path),
        Fragment::Include {
            from_root: false,
            path,
            line,
        } => write_kind(out, "file ", *line, path),
    }
}

fn write_kind(out: &mut Answer, kind: &str, line: u32, text: &Text) {
    out.put(kind);
    out.show(&line);
    out.put(": ");
    write_quoted(out, text);
}

fn write_quoted(out: &mut Answer, text: &Text) {
    out.put("\"");
    out.text(text.as_slice());
    out.put("\"");
}
