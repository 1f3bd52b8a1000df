//! What may stand in the head of an answer.
ghost use Rattle.std.specs.Prelude.{◌≡◌, ◌==◌};
ghost use Rattle.std.specs.List.{list_all, list_any};
ghost use Rattle.asp_response.specs.Head as spec;

use vb_value::is_word;

const TOKEN_MARKS: [char; 15] = [
    '!', '#', '$', '%', '&', '\'', '*', '+', '-', '.', '^', '_', '`', '|', '~',
];

fn is_printable(character: char) -> bool
    ensures { result ≡ spec.is_printable character }
{
    character >= ' ' && character <= '~'
}

/// Whether a text may be the value of a field.
pub(crate) fn is_value(text: &[char]) -> bool
    ensures { result ≡ spec.is_value text.now }
{
    text.iter().all(|c| is_printable(*c))
}

fn is_among(marks: &[char], character: char) -> bool
    ensures { result ≡ list_any (λ mark. mark == character) marks.now }
{
    marks.iter().any(|mark| *mark == character)
}

#[tactic(auto, unfolding(crate::specs::Head::is_token_character))]
fn is_token_character(character: char) -> bool
    ensures { result ≡ spec.is_token_character character }
{
    character.is_ascii_alphanumeric() || is_among(&TOKEN_MARKS, character)
}

fn has_token_characters(text: &[char]) -> bool
    ensures { result ≡ list_all spec.is_token_character text.now }
{
    text.iter().all(|c| is_token_character(*c))
}

/// Whether a text is a token.
pub(crate) fn is_token(text: &[char]) -> bool
    ensures { result ≡ spec.is_token text.now }
{
    !text.is_empty() && has_token_characters(text)
}

/// Whether an answer writes the field of this name by itself, so that no page may add one.
#[tactic(auto, unfolding(crate::specs::Head::is_reserved))]
pub(crate) fn is_reserved(name: &[char]) -> bool
    ensures { result ≡ spec.is_reserved name.now }
{
    is_word(b"Date", name)
        || is_word(b"Content-Type", name)
        || is_word(b"Content-Length", name)
        || is_word(b"Connection", name)
        || is_word(b"Transfer-Encoding", name)
}
