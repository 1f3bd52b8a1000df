//! Marks of a page, blanks, and what stands up to a mark.
ghost use Rattle.std.specs.Prelude.{◌≡◌, ◌↔◌, ◌+◌, ◌≤◌, IfSome, IsTrue, length, take};
ghost use Rattle.std.specs.List.{prefix_len};
ghost use Rattle.std.specs.Option.{option_copied};
ghost use Rattle.vb_value.specs.Folding.{folded};
ghost use Rattle.page_read.specs.Marks as spec;
ghost use Rattle.page_read.specs.Reading.{shown_pair};

fn is_blank(c: char) -> bool
    ensures { result ≡ spec.is_blank c }
{
    matches!(c, ' ' | '\t' | '\r' | '\n')
}

/// How many blanks stand at the front.
#[tactic(auto, using(crate::proofs::Fronts::front_more, crate::proofs::Fronts::front_stops, crate::proofs::Fronts::front_ends))]
pub fn blank_len(text: &[char]) -> usize
    ensures value { result ≡ prefix_len spec.is_blank text.now }
    ensures within { result ≤ length text.now }
{
    for at in 0..text.len() {
        if !is_blank(text[at]) {
            return at;
        }
    }
    text.len()
}

/// The text behind the blanks at its front.
pub fn unblanked(text: &[char]) -> &[char]
    ensures value { result.now ≡ spec.unblanked text.now }
    ensures shorter { length result.now ≤ length text.now }
{
    &text[blank_len(text)..]
}

/// Whether the text has nothing but blanks.
pub fn is_blank_text(text: &[char]) -> bool
    ensures { result ≡ spec.is_blank_text text.now }
{
    blank_len(text) == text.len()
}

/// Whether the text begins with the mark, which has no capital letters, in any ASCII case.
#[tactic(auto, using(crate::proofs::Marks::decided))]
pub fn begins(text: &[char], mark: &[char]) -> bool
    ensures { result ≡ spec.begins mark.now text.now }
{
    stands(text, mark)
}

#[tactic(auto, using(crate::proofs::Marks::letter_more))]
fn stands(text: &[char], mark: &[char]) -> bool
    ensures { IsTrue result ↔ (take (length mark.now) (folded text.now) ≡ mark.now) }
{
    if text.len() < mark.len() {
        return false;
    }
    for (at, letter) in mark.iter().enumerate() {
        if text[at].to_ascii_lowercase() != *letter {
            return false;
        }
    }
    true
}

/// What stands behind the mark, where the text begins with it.
#[tactic(auto, using(crate::proofs::Marks::begins_short))]
pub fn behind<'a>(text: &'a [char], mark: &[char]) -> Option<&'a [char]>
    ensures value { option_copied result ≡ spec.behind mark.now text.now }
    ensures shorter { IfSome result (λ rest. length rest.now + length mark.now ≤ length text.now) }
{
    if !begins(text, mark) {
        return None;
    }
    Some(&text[mark.len()..])
}

/// The first place at which the mark stands.
pub fn place_of(text: &[char], mark: &[char]) -> Option<usize>
    ensures value { result ≡ spec.place_of mark.now text.now }
    ensures within { IfSome result (λ at. at + length mark.now ≤ length text.now) }
{
    for at in 0..text.len() {
        if begins(&text[at..], mark) {
            return Some(at);
        }
    }
    None
}

/// What stands before the first such mark, and what stands behind it.
pub fn cut_by<'a>(text: &'a [char], mark: &[char]) -> Option<(&'a [char], &'a [char])>
    ensures value { shown_pair result ≡ spec.cut_by mark.now text.now }
    ensures shorter { IfSome result (λ cut. length cut.1.now + length mark.now ≤ length text.now) }
{
    let at = place_of(text, mark)?;
    Some((&text[..at], &text[at + mark.len()..]))
}
