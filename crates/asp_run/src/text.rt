//! Texts of ASCII.
ghost use Rattle.vb_value.specs.Outcome.{Adds, Gives};

use std::alloc::Global;
use vb_value::{Memory, Text};

/// The characters with the numbers of the bytes.
pub(crate) fn ascii(alloc: Global, bytes: &[u8]) -> Result<Text, Memory>
    ensures { Gives result bytes.now }
{
    let mut text = Text::with_capacity(alloc, bytes.len())?;
    for byte in bytes {
        text.push(char::from(*byte))?;
    }
    Ok(text)
}

/// Adds the characters with the numbers of the bytes.
pub(crate) fn push_ascii(text: &mut Text, more: &[u8]) -> Result<(), Memory>
    ensures { Adds result text.old text.new more.now }
{
    let more = ascii(*text.allocator(), more)?;
    text.append(more)
}
