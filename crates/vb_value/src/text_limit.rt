//! The limit on texts.
ghost use Rattle.std.specs.Prelude.{◌≡◌};
ghost use Rattle.vb_value.specs.TextLimit as spec;

use crate::fault::VbError;
use crate::text::Text;
use crate::value::Value;

/// How many characters a text has at most that a function gives.
pub const MOST_CHARACTERS: usize = 1_048_576;

/// A text as what a function gives; error 14 where it has more than [`MOST_CHARACTERS`].
pub fn limited(text: Text) -> Result<Value, VbError>
    ensures { result ≡ spec.limited text }
{
    if MOST_CHARACTERS < text.len() {
        return Err(VbError::OUT_OF_STRING_SPACE);
    }
    Ok(Value::Str(text))
}
