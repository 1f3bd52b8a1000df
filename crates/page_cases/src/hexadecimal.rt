//! Bytes as cases write them where they are no text: in hexadecimal.

use case_files::CaseStop;
use std::alloc::Global;
use vb_value::Bytes;

/// The bytes that are written so, with blanks between them.
pub fn read_bytes(alloc: Global, written: &str) -> Result<Bytes, CaseStop> {
    let mut bytes = Bytes::new(alloc);
    for byte in written.split_whitespace() {
        match u8::from_str_radix(byte, 16) {
            Ok(byte) => bytes.push(byte)?,
            Err(_) => return Err(CaseStop::Unreadable),
        }
    }
    Ok(bytes)
}
