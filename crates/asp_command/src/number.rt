//! Numbers in words.
ghost use Rattle.std.specs.Prelude.{◌↔◌, IsTrue, MatchOption, slice_index};
ghost use Rattle.std.specs.Int.{IsInRange};
ghost use Rattle.asp_command.specs.Saying.{IsNumber, IsNoNumber};

/// The number from 1 to the most, whose decimal text the word is.
pub fn number_to(most: u32, word: &str) -> Option<u32>
    ensures { MatchOption result (IsNoNumber most word.now) (IsNumber most word.now) }
{
    if !begins_as_number(word) {
        return None;
    }
    let Ok(number) = word.parse::<u32>() else {
        return None;
    };
    if number <= most { Some(number) } else { None }
}

/// Whether a digit other than 0 stands first.
fn begins_as_number(word: &str) -> bool
    ensures { IsTrue result ↔ IsInRange 49 57 (slice_index word.now 0) }
{
    matches!(word.as_bytes().first(), Some(b'1'..=b'9'))
}
