//! Texts in URLs.
ghost use Rattle.std.specs.Prelude.{◌≡◌, IfOk, string_bytes};
ghost use Rattle.vb_value.specs.Outcome.{Adds, Gives};
ghost use Rattle.asp_text.specs.Url.{url_byte, url_bytes, url_encoded};

use percent_encoding::percent_encode_byte;
use std::alloc::Global;
use vb_value::{Memory, Text};

fn push_encoded(encoded: &mut String, byte: u8) -> Result<(), Memory>
    ensures { Adds result (string_bytes encoded.old) (string_bytes encoded.new) (url_byte byte) }
{
    if byte.is_ascii_alphanumeric() {
        encoded.push(char::from(byte))?;
    } else if byte == b' ' {
        encoded.push('+')?;
    } else {
        encoded.push_str(percent_encode_byte(byte))?;
    }
    Ok(())
}

#[tactic(auto, using(crate::proofs::Coding::url_more), unfolding(crate::specs::Url::url_bytes))]
fn url_string(alloc: Global, bytes: &[u8]) -> Result<String, Memory>
    ensures { IfOk result (λ encoded. string_bytes encoded ≡ url_bytes bytes.now) }
{
    let mut encoded = String::with_capacity(alloc, bytes.len())?;
    for byte in bytes {
        push_encoded(&mut encoded, *byte)?;
    }
    Ok(encoded)
}

/// The text as the query of a URL has it (`Server.URLEncode` of ASP 3.0): letters and digits, `+` for a space, and
/// `%` with two hexadecimal digits for each other byte of its UTF-8.
#[tactic(auto, using(crate::proofs::Coding::url_characters))]
pub fn url_encode(alloc: Global, text: &Text) -> Result<Text, Memory>
    ensures { Gives result (url_encoded text.now) }
{
    let bytes = text.to_utf8(alloc)?;
    let encoded = url_string(alloc, bytes.as_slice())?;
    Text::from_str(alloc, encoded.as_str())
}
