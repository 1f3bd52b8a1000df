//! Texts in HTML.
ghost use Rattle.std.specs.Fmt.{decimal};
ghost use Rattle.vb_value.specs.Outcome.{Adds, Gives};
ghost use Rattle.asp_text.specs.Html.{html_character, html_encoded, numbered};

use std::alloc::Global;
use vb_value::{Memory, Text};

#[tactic(auto, using(crate::proofs::Coding::digit_characters))]
fn decimal(alloc: Global, number: u32) -> Result<Text, Memory>
    ensures { Gives result (decimal number) }
{
    Text::from_str(alloc, number.to_string(alloc)?.as_str())
}

fn push_number(encoded: &mut Text, number: u32) -> Result<(), Memory>
    ensures { Adds result encoded.old encoded.new (numbered number) }
{
    let digits = decimal(*encoded.allocator(), number)?;
    encoded.append_slice(&['&', '#'])?;
    encoded.append(digits)?;
    encoded.push(';')
}

fn push_encoded(encoded: &mut Text, character: char) -> Result<(), Memory>
    ensures { Adds result encoded.old encoded.new (html_character character) }
{
    match character {
        '<' => encoded.append_slice(&['&', 'l', 't', ';']),
        '>' => encoded.append_slice(&['&', 'g', 't', ';']),
        '&' => encoded.append_slice(&['&', 'a', 'm', 'p', ';']),
        '"' => encoded.append_slice(&['&', 'q', 'u', 'o', 't', ';']),
        _ if character.is_ascii() => encoded.push(character),
        _ => push_number(encoded, u32::from(character)),
    }
}

/// The text as HTML shows it (`Server.HTMLEncode` of ASP 3.0): `<`, `>`, `&` and `"` by name, and each character
/// beyond ASCII by its number.
#[tactic(auto, using(crate::proofs::Coding::html_more), unfolding(crate::specs::Html::html_encoded))]
pub fn html_encode(alloc: Global, text: &Text) -> Result<Text, Memory>
    ensures { Gives result (html_encoded text.now) }
{
    let mut encoded = Text::with_capacity(alloc, text.len())?;
    for character in text.as_slice() {
        push_encoded(&mut encoded, *character)?;
    }
    Ok(encoded)
}
