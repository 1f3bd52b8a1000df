//! Values as texts, without a copy where they hold one.
ghost use Rattle.std.specs.Prelude.{◌≡◌, ◌≢◌, IfOk, IfErr, Ok, Err};
ghost use Rattle.vb_value.specs.Conversions.{to_str_of};
ghost use Rattle.vb_value.specs.Errors.{reported};
ghost use Rattle.vb_strings.specs.Texts as spec;

use std::alloc::Global;
use vb_value::{Text, Value, VbFault, to_str};

/// A value as a text.
#[derive(Drop)]
pub enum AsText<'a> {
    /// The text that the value is.
    Held(&'a Text),
    /// The text that was made of it.
    Made(Text),
}

impl<'a> AsText<'a> {
    /// The text.
    pub fn text(&self) -> &Text
        ensures { result.now ≡ spec.characters_of self.now }
    {
        match self {
            AsText::Held(text) => text,
            AsText::Made(text) => text,
        }
    }

    /// The characters of the text, as they lie.
    pub fn as_slice(&self) -> &[char]
        ensures { result.now ≡ spec.characters_of self.now }
    {
        self.text().as_slice()
    }
}

/// A value as a text. The errors are those of `to_str`.
pub fn as_text(alloc: Global, value: &Value) -> Result<AsText<'_>, VbFault>
    ensures given { IfOk result (λ text. reported (to_str_of value.now) ≡ Ok (spec.characters_of text)) }
    ensures refused { IfErr result (λ stop. stop ≢ VbFault.Memory → reported (to_str_of value.now) ≡ Err stop) }
{
    match value {
        Value::Str(text) => Ok(AsText::Held(text)),
        _ => Ok(AsText::Made(to_str(alloc, value)?)),
    }
}
