//! The texts that bytes encode.
ghost use Rattle.std.specs.Prelude.{◌++◌, codes, flat_map};
ghost use Rattle.vb_value.specs.Outcome.{Adds, Gives};
ghost use Rattle.asp_request.specs.Pairs.{joined};
ghost use Rattle.asp_request.specs.Request as spec;

use form_urlencoded::decode;
use std::alloc::Global;
use vb_value::{Memory, Text};

/// The characters that bytes encode, U+FFFD for what is no UTF-8.
pub(crate) fn text_of(alloc: Global, bytes: &[u8]) -> Result<Text, Memory>
    ensures { Gives result (spec.text_of bytes.now) }
{
    let string = String::from_utf8_lossy(alloc, bytes)?;
    Text::from_str(alloc, string.as_str())
}

/// The characters that a part of a query stands for.
pub(crate) fn decoded(alloc: Global, part: &[u8]) -> Result<Text, Memory>
    ensures { Gives result (spec.decoded part.now) }
{
    let text = decode(alloc, part)?;
    Text::from_str(alloc, &text)
}

/// The characters with the numbers of the bytes.
pub(crate) fn ascii(alloc: Global, bytes: &[u8]) -> Result<Text, Memory>
    ensures { Gives result bytes.now }
{
    let mut text = Text::with_capacity(alloc, bytes.len())?;
    for byte in bytes {
        text.push(char::from(*byte))?;
    }
    Ok(text)
}

fn push_next(text: &mut Text, value: &Text) -> Result<(), Memory>
    ensures { Adds result text.old text.new (codes ", " ++ value.now) }
{
    text.append_slice(&[',', ' '])?;
    text.append_slice(value.as_slice())
}

fn push_others(text: &mut Text, values: &[Text]) -> Result<(), Memory>
    ensures { Adds result text.old text.new (flat_map (λ other. codes ", " ++ other) values.now) }
{
    for value in values {
        push_next(text, value)?;
    }
    Ok(())
}

/// The texts in one, with `, ` between them.
#[tactic(auto, unfolding(crate::specs::Pairs::joined))]
pub(crate) fn join(alloc: Global, values: &[Text]) -> Result<Text, Memory>
    ensures { Gives result (joined values.now) }
{
    let mut text = Text::new(alloc);
    let [first, others @ ..] = values else {
        return Ok(text);
    };
    text.append_slice(first.as_slice())?;
    push_others(&mut text, others)?;
    Ok(text)
}
