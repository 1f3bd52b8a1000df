//! Texts.
ghost use Rattle.std.specs.Prelude.{◌≡◌, ◌++◌, IfOk, encode_utf8_all};
ghost use Rattle.std.specs.Str.{chars};
ghost use Rattle.std.specs.String.{string_bytes};
ghost use Rattle.vb_value.specs.Outcome.{Answers, Changes, Gives};
ghost use Rattle.vb_value.specs.Decoding.{decoded};
ghost use Rattle.vb_value.specs.Folding.{folded};

use crate::bytes::Bytes;
use crate::list::List;
use crate::memory::Memory;
use std::alloc::{AllocError, AllocFailed, Global};
use std::error::Error;
use std::fmt;

/// A list of characters (Unicode scalar values).
pub type Text = List<char>;

/// Why bytes were not read as a text.
#[derive(Clone, Copy, Debug, PartialEq, Eq)]
pub enum Utf8Stop {
    /// The bytes are not UTF-8 (RFC 3629).
    NotUtf8,
    /// Memory ran out.
    Memory,
}

impl fmt::Display for Utf8Stop {
    fn fmt<W: fmt::Write>(&self, f: &mut fmt::Formatter<W>) -> fmt::Result {
        match self {
            Utf8Stop::NotUtf8 => write!(f, "not UTF-8"),
            Utf8Stop::Memory => write!(f, "{}", Memory),
        }
    }
}

impl Error for Utf8Stop {}

impl From<Memory> for Utf8Stop {
    ghost use Rattle.vb_value.specs.declared.text.Utf8Stop.TheVariants.{Memory as OutOfMemory};

    ghost from_gives = { λ _ stop. stop ≡ OutOfMemory };

    fn from(_: Memory) -> Utf8Stop {
        Utf8Stop::Memory
    }
}

impl List<char> {
    /// The characters of `text`.
    #[tactic(auto, using(crate::proofs::Characters::collected))]
    pub fn from_str(alloc: Global, text: &str) -> Result<Text, Memory>
        ensures { Gives result (chars text.now) }
    {
        Ok(List::from_vec(text.chars().collect(alloc)?))
    }

    /// The characters that `bytes` encode, by RFC 3629.
    #[tactic(auto, using(crate::proofs::Characters::decoded_text, crate::proofs::Characters::decoded_other))]
    pub fn from_utf8(alloc: Global, bytes: &[u8]) -> Result<Text, Utf8Stop>
        ensures { Answers result Utf8Stop.Memory (decoded bytes.now) }
    {
        match str::from_utf8(bytes) {
            Ok(text) => Ok(Text::from_str(alloc, text)?),
            Err(_) => Err(Utf8Stop::NotUtf8),
        }
    }

    /// The text as a string of std.
    #[tactic(auto, using(crate::proofs::Characters::encoded_more))]
    pub fn to_string(&self, alloc: Global) -> Result<String, Memory>
        ensures { IfOk result (λ string. string_bytes string ≡ encode_utf8_all self.now) }
    {
        let mut string = String::with_capacity(alloc, self.len())?;
        for character in self.as_slice() {
            string.push(*character)?;
        }
        Ok(string)
    }

    /// The bytes that encode the text, by RFC 3629.
    pub fn to_utf8(&self, alloc: Global) -> Result<Bytes, Memory>
        ensures { Gives result (encode_utf8_all self.now) }
    {
        Ok(List::from_vec(self.to_string(alloc)?.into_bytes()))
    }

    /// Adds the characters of `more` at the end.
    pub fn push_str(&mut self, more: &str) -> Result<(), Memory>
        ensures { Changes result self.old self.new (self.old ++ chars more.now) }
    {
        let more = Text::from_str(*self.allocator(), more)?;
        self.append(more)
    }
}

/// The text with each of its letters A to Z made small, as names compare.
pub fn fold(alloc: Global, text: &Text) -> Result<Text, Memory>
    ensures { Gives result (folded text.now) }
{
    let characters = text.as_slice().iter();
    Ok(List::from_vec(characters.map(|c| c.to_ascii_lowercase()).collect(alloc)?))
}
