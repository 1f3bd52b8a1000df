//! Texts in small letters.

use std::alloc::Global;
use vb_value::Memory;

/// The text with its letters A to Z made small.
pub fn folded(alloc: Global, text: &str) -> Result<String, Memory> {
    let mut small = String::with_capacity(alloc, text.len())?;
    for character in text.chars() {
        small.push(character.to_ascii_lowercase())?;
    }
    Ok(small)
}

/// The characters as a text with its letters A to Z made small.
pub fn folded_characters(alloc: Global, characters: &[char]) -> Result<String, Memory> {
    let mut small = String::with_capacity(alloc, characters.len())?;
    for character in characters {
        small.push(character.to_ascii_lowercase())?;
    }
    Ok(small)
}
