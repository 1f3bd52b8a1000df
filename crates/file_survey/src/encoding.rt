//! How the text of a file is written.

use std::alloc::Global;
use vb_value::{Bytes, List, Memory};

/// How the text of a file is written.
#[derive(Clone, Copy)]
pub enum Encoding {
    /// In UTF-8 (RFC 3629).
    Utf8,
    /// In UTF-16, by the mark at its front.
    Utf16,
    /// Otherwise, as in windows-1252.
    Other {
        /// The first line that is not UTF-8.
        line: u32,
    },
}

/// How these bytes are written.
pub fn encoding_of(bytes: &[u8]) -> Encoding {
    if let [0xff, 0xfe, ..] | [0xfe, 0xff, ..] = bytes {
        return Encoding::Utf16;
    }
    match str::from_utf8(bytes) {
        Ok(_) => Encoding::Utf8,
        Err(error) => Encoding::Other {
            line: lines_before(bytes, error.valid_up_to()).saturating_add(1),
        },
    }
}

/// The text with a sign in place of what is not UTF-8.
pub fn repaired(alloc: Global, bytes: &[u8]) -> Result<Bytes, Memory> {
    let text = String::from_utf8_lossy(alloc, bytes)?;
    Ok(List::from_vec(text.into_bytes()))
}

/// How many line ends stand among the first bytes: CR LF, CR or LF.
pub fn lines_before(bytes: &[u8], count: usize) -> u32 {
    let mut ends = 0u32;
    let mut last = 0u8;
    for byte in bytes.iter().take(count) {
        if *byte == b'\r' || (*byte == b'\n' && last != b'\r') {
            ends = ends.saturating_add(1);
        }
        last = *byte;
    }
    ends
}
